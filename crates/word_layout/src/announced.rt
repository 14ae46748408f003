// What a process announces.
ghost use Rattle.std.specs.Prelude.{◌≡◌, ◌↔◌, IsTrue};

use crate::shape::Shape;
use crate::tagged::Tagged;

/// What a transfer is to do.
#[derive(Clone, Copy, Debug, PartialEq, Eq, Hash)]
pub enum Wish {
    /// Take a batch from the shared stack.
    Take,
    /// Give the batch with this head to the shared stack.
    Give(u32),
}

impl Wish {
    ghost use Rattle.word_layout.specs.Packing.{FitsWish};

    /// Whether the wish's head is a block of some pool.
    pub fn fits(&self) -> bool
        ensures { IsTrue result ↔ FitsWish self.now }
    {
        match self {
            Wish::Take => true,
            Wish::Give(head) => *head < Shape::MOST_BLOCKS,
        }
    }
}

/// An announcement: which transfer of its process it is, and what it is to do. Process and helpers learn a
/// wish by one word.
#[derive(Clone, Copy, Debug, PartialEq, Eq, Hash)]
pub struct Announced {
    /// The number of the transfer, from 1, and 0 before the first. It is a tag, so it is below 2^40.
    pub number: u64,
    pub wish: Wish,
}

impl Announced {
    ghost use Rattle.word_layout.specs.Packing.{announced_word, announced_of, FitsAnnounced};

    /// The word of an announcement.
    pub fn pack(&self) -> u64
        requires { FitsAnnounced self.now }
        ensures { result ≡ announced_word self.now }
    {
        let code = match self.wish {
            Wish::Take => 0,
            Wish::Give(head) => head + 1,
        };
        Tagged::pack(self.number, code)
    }

    /// The announcement of a word.
    pub fn read(word: u64) -> Announced
        ensures { result ≡ announced_of word }
    {
        let code = Tagged::value(word);
        let wish = if code == 0 {
            Wish::Take
        } else {
            Wish::Give(code - 1)
        };
        Announced {
            number: Tagged::tag(word),
            wish,
        }
    }
}
