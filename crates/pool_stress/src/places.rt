// Places of slots, drawn at random.
ghost use Rattle.std.specs.Prelude.{◌<◌, length};

/// Draws places of slots, in runs of neighbours that begin anywhere: a run over empty slots allocates, one over filled slots frees.
#[derive(Drop)]
pub(crate) struct Places {
    number: u64,
    /// The last place, before the slots are counted round.
    place: u64,
    /// How many places of the run are left.
    left: u64,
}

impl Places {
    /// The places that a seed makes.
    pub(crate) fn new(seed: u64) -> Places {
        Places {
            number: seed,
            place: 0,
            left: 0,
        }
    }

    /// A number below 2^31.
    fn draw(&mut self) -> u64 {
        self.number = self
            .number
            .wrapping_mul(6364136223846793005)
            .wrapping_add(1442695040888963407);
        self.number >> 33
    }

    /// The next place among so many, in runs that are at most as long as there are places.
    pub(crate) fn next(&mut self, count: usize) -> usize
        requires { 0 < count }
        ensures { result < count }
    {
        if self.left == 0 {
            self.place = self.draw();
            self.left = self.draw() % count as u64;
        } else {
            self.place = self.place.wrapping_add(1);
            self.left -= 1;
        }
        (self.place % count as u64) as usize
    }

    /// Whether an allocate is to be a search: one in eight.
    pub(crate) fn searches(&mut self) -> bool {
        self.draw() % 8 == 0
    }
}
