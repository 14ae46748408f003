// The draft of a try.
ghost use Rattle.std.specs.Prelude.{◌≡◌, ◌+◌, ◌*◌, ◌%◌, ◌<◌, ◌≤◌, ◌==◌, ◌↔◌, if◌then◌else◌, not, IsTrue};
ghost use Rattle.word_layout.specs.Packing.{is_odd_reply};
ghost use Rattle.transfer_machine.specs.Opening.{nothing_drafted};
ghost use Rattle.transfer_machine.specs.Loads.{loaded_base};
ghost use Rattle.transfer_machine.specs.Tries.{pops_slot, begun_draft, after_announcement, granted, CanApply};
ghost use Rattle.transfer_machine.specs.Tries.{wish_reply, take_reply, drafted_value};

use crate::loaded::Loaded;
use word_layout::{Announced, Reply, Wish};

/// The new state that a try works out: what it changes of the stack's content, and the replies. It grows by
/// one announcement at each load of one, so that no step has a loop.
#[derive(Clone, Copy, Debug)]
pub struct TryDraft {
    /// How many places of the old content stay.
    pub base: u32,
    /// How many batches were given above them.
    pub overlay: u32,
    /// The heads of these batches, the top last; past them nothing is said.
    pub heads: [u32; 32],
    /// The values of the replies of the processes whose announcements were met.
    pub replies: [u32; 32],
}

/// Whether the number of an announcement is odd.
fn is_odd(announced: &Announced) -> bool
    ensures { result ≡ (announced.now.number % 2 == 1) }
{
    announced.number % 2 == 1
}

/// Whether an announcement, of a number that is odd or not, is pending against the value of a reply.
pub fn is_pending(odd: bool, reply: u32) -> bool
    ensures { result ≡ (if odd then not (is_odd_reply reply) else is_odd_reply reply) }
{
    let (replied_odd, _) = Reply::read(reply);
    odd != replied_odd
}

impl TryDraft {
    /// A draft of nothing.
    pub fn nothing() -> TryDraft
        ensures { result ≡ nothing_drafted }
    {
        TryDraft {
            base: 0,
            overlay: 0,
            heads: [0; 32],
            replies: [0; 32],
        }
    }

    /// Begins the draft of a try that has loaded a whole record.
    pub fn begin(&mut self, loaded: &Loaded)
        ensures { self.new ≡ begun_draft loaded.now self.old }
    {
        self.base = loaded.base() + loaded.overlay_length();
        self.overlay = 0;
    }

    /// Whether this announcement of a process takes a batch from a slot, which is then to be loaded.
    pub fn pops_slot(&self, loaded: &Loaded, processes: u32, process: u32, word: u64) -> bool
        requires few { processes ≤ 32 }
        requires process { process < processes }
        ensures { result ≡ pops_slot processes loaded.now process word self.now }
    {
        let announced = Announced::read(word);
        is_pending(is_odd(&announced), loaded.reply(processes, process))
            && announced.wish == Wish::Take
            && self.overlay == 0
            && self.base > 0
            && self.base - 1 < loaded.base()
    }

    /// Whether the announcement of one more process can be applied: there is room for one more head, and what
    /// is answered fits a reply.
    pub fn can_apply(
        &self,
        loaded: &Loaded,
        processes: u32,
        process: u32,
        word: u64,
        popped: u32,
    ) -> bool
        ensures { IsTrue result ↔ CanApply processes loaded.now process word popped self.now }
    {
        processes <= 32
            && process < processes
            && self.overlay < 32
            && self.base <= loaded.base() + 64
            && self
                .answer(loaded, Announced::read(word).wish, popped)
                .fits()
    }

    /// Applies the announcement of one more process. `popped` is the batch of the slot that it takes, where
    /// it takes one from a slot.
    pub fn apply(&mut self, loaded: &Loaded, processes: u32, process: u32, word: u64, popped: u32)
        requires { CanApply processes loaded.now process word popped self.old }
        ensures { self.new ≡ after_announcement processes loaded.now process word popped self.old }
    {
        let announced = Announced::read(word);
        let odd = is_odd(&announced);
        let old = loaded.reply(processes, process);
        self.replies[process as usize] = if is_pending(odd, old) {
            let answer = self.answer(loaded, announced.wish, popped);
            self.grant(announced.wish);
            answer.pack(odd)
        } else {
            old
        };
    }

    /// What a wish is answered: a take gets the last batch of the working overlay, else the one below the
    /// working base.
    fn answer(&self, loaded: &Loaded, wish: Wish, popped: u32) -> Reply
        requires room { self.now.overlay < 32 }
        requires near { self.now.base ≤ loaded_base loaded.now + 64 }
        ensures { result ≡ wish_reply loaded.now popped self.now wish }
    {
        match wish {
            Wish::Give(_) => Reply::Gave,
            Wish::Take => self.take_answer(loaded, popped),
        }
    }

    /// What a take is answered.
    fn take_answer(&self, loaded: &Loaded, popped: u32) -> Reply
        requires room { self.now.overlay < 32 }
        requires near { self.now.base ≤ loaded_base loaded.now + 64 }
        ensures { result ≡ take_reply loaded.now popped self.now }
    {
        if self.overlay > 0 {
            return Reply::Took(self.heads[(self.overlay - 1) as usize]);
        }
        if self.base == 0 {
            return Reply::Nothing;
        }
        let place = self.base - 1;
        Reply::Took(if place < loaded.base() {
            popped
        } else {
            loaded.overlay_head(place - loaded.base())
        })
    }

    /// Grants a wish: a give adds its head, a take lowers the working overlay, else the working base.
    fn grant(&mut self, wish: Wish)
        requires room { self.old.overlay < 32 }
        ensures { self.new ≡ granted wish self.old }
    {
        match wish {
            Wish::Give(head) => {
                self.heads[self.overlay as usize] = head;
                self.overlay += 1;
            }
            Wish::Take => {
                if self.overlay > 0 {
                    self.overlay -= 1;
                } else if self.base > 0 {
                    self.base -= 1;
                }
            }
        }
    }

    /// The value that word `index` of the next record gets.
    pub fn value(&self, processes: u32, index: u32) -> u32
        requires few { processes ≤ 32 }
        requires index { index < 2 * processes + 2 }
        requires room { self.now.overlay ≤ 32 }
        ensures { result ≡ drafted_value processes self.now index }
    {
        if index == 0 {
            self.base
        } else if index == 1 {
            self.overlay
        } else if index < processes + 2 {
            if index - 2 < self.overlay {
                self.heads[(index - 2) as usize]
            } else {
                0
            }
        } else {
            self.replies[(index - (processes + 2)) as usize]
        }
    }
}
