//! What a step does to its one word: a load, a store, or a compare and exchange.

use word_layout::WordName;

/// What a step does to the one word that it names.
#[derive(Clone, Copy, Debug, PartialEq, Eq, Hash)]
pub enum Action {
    /// Load the word.
    Load { name: WordName },
    /// Store this word, whatever was there.
    Store { name: WordName, word: u64 },
    /// Store the new word where the old one is there.
    Exchange { name: WordName, old: u64, new: u64 },
}

impl Action {
    ghost use Rattle.std.specs.Prelude.{◌≡◌};
    ghost use Rattle.transfer_machine.specs.Words.{name_of};

    /// The word that the action is on.
    pub fn name(&self) -> WordName
        ensures { result ≡ name_of self.now }
    {
        match self {
            Action::Load { name } => *name,
            Action::Store { name, .. } => *name,
            Action::Exchange { name, .. } => *name,
        }
    }
}
