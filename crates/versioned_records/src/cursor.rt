// The word of a record that comes next.
ghost use Rattle.std.specs.Prelude.{◌≡◌, ◌<◌};
ghost use Rattle.word_layout.specs.Packing.{tag_limit, tagged, value_limit};
ghost use Rattle.word_layout.specs.declared.name.WordName.TheVariants.{RecordWord};
ghost use Rattle.transfer_machine.specs.declared.action.Action.TheVariants.{Load, Store};

use transfer_machine::Action;
use word_layout::{Tagged, WordName};

/// The word of a record that comes next, for whoever loads or stores the record in order.
#[derive(Clone, Copy, Debug)]
pub struct RecordCursor {
    /// The number of the state whose record it is.
    pub tag: u64,
    /// The record's number.
    pub row: u32,
    /// The word's index in it.
    pub index: u32,
}

impl RecordCursor {
    /// The load of that word.
    #[inline(always)]
    pub fn load(&self) -> Action
        ensures { result ≡ Load (RecordWord self.now.row self.now.index) }
    {
        Action::Load { name: self.name() }
    }

    /// The store of this value there, with the number of the state.
    #[inline(always)]
    pub fn store(&self, value: u32) -> Action
        requires tag { self.now.tag < tag_limit }
        requires value { value < value_limit }
        ensures { result ≡ Store (RecordWord self.now.row self.now.index) (tagged self.now.tag value) }
    {
        Action::Store {
            name: self.name(),
            word: Tagged::pack(self.tag, value),
        }
    }

    /// The word's name.
    #[inline(always)]
    fn name(&self) -> WordName
        ensures { result ≡ RecordWord self.now.row self.now.index }
    {
        WordName::RecordWord {
            row: self.row,
            index: self.index,
        }
    }
}
