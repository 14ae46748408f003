// What playing a file counts.
ghost use Rattle.std.specs.Prelude.{◌≡◌, ◌+◌, ◌-◌, ◌^◌, ◌<◌, ◌≤◌, [], max, map};

use mtrace_reader::Script;

/// What one file did: what its player counted, and what its script says besides.
#[derive(Clone, Copy, Debug, Default, PartialEq, Eq, Hash)]
pub struct Tally {
    /// How many slots were placed.
    pub news: u64,
    /// How many blocks were freed.
    pub frees: u64,
    /// How many allocations were larger than a block.
    pub big: u64,
    /// How many allocations and resizes failed.
    pub failed: u64,
    /// How many releases named no live address.
    pub stray: u64,
    /// How many allocations named a live address.
    pub twice: u64,
    /// How many slots were refused a block.
    pub refused: u64,
    /// The most blocks that were held at once.
    pub peak: u64,
    /// How many blocks were given and not freed.
    pub left: u64,
    /// 1 where the trace was cut, else 0.
    pub cut: u64,
}

impl Tally {
    ghost use Rattle.trace_player.specs.Playing.{tally_after};
    ghost use Rattle.trace_player.specs.Report.{columns_of};

    /// The columns of the report's line of this file, in their order: a name and a number each. Those of the
    /// default are the sums over no file.
    pub fn columns(&self) -> [(&'static str, u64); 10]
        ensures { map (λ column. (column.0.now, column.1)) result ≡ columns_of self.now }
    {
        [
            ("news", self.news),
            ("frees", self.frees),
            ("big", self.big),
            ("failed", self.failed),
            ("stray", self.stray),
            ("twice", self.twice),
            ("refused", self.refused),
            ("peak", self.peak),
            ("left", self.left),
            ("cut", self.cut),
        ]
    }

    /// The tally of a script of which nothing was played yet.
    pub fn begin(script: &Script) -> Tally
        ensures { result ≡ tally_after script.now [] [] }
    {
        Tally {
            news: u64::from(script.news),
            frees: 0,
            big: script.big,
            failed: script.failed,
            stray: script.stray,
            twice: script.twice,
            refused: 0,
            peak: 0,
            left: 0,
            cut: script.cut,
        }
    }

    /// Counts a block that was given.
    pub fn count_given(&mut self)
        requires { self.old.left + 1 < 2 ^ 64 }
        ensures { self.new
            ≡ record self.old { left = self.old.left + 1; peak = max self.old.peak (self.old.left + 1) } }
    {
        self.left += 1;
        self.peak = self.peak.max(self.left);
    }

    /// Counts a refusal.
    pub fn count_refused(&mut self)
        requires { self.old.refused + 1 < 2 ^ 64 }
        ensures { self.new ≡ record self.old { refused = self.old.refused + 1 } }
    {
        self.refused += 1;
    }

    /// Counts a block that was freed.
    pub fn count_freed(&mut self)
        requires some { 1 ≤ self.old.left }
        requires few { self.old.frees + 1 < 2 ^ 64 }
        ensures { self.new ≡ record self.old { frees = self.old.frees + 1; left = self.old.left - 1 } }
    {
        self.frees += 1;
        self.left -= 1;
    }
}
