// What a transfer has loaded.
ghost use Rattle.std.specs.Prelude.{◌≡◌, ◌+◌, ◌<◌, ◌≤◌};
ghost use Rattle.word_layout.specs.Packing.{value_limit, tag_limit};
ghost use Rattle.transfer_machine.specs.Opening.{nothing_loaded};
ghost use Rattle.transfer_machine.specs.Loads.{record_value, loaded_base, overlay_length, overlay_head, loaded_reply};
ghost use Rattle.transfer_machine.specs.Loads.{loaded_tag, loaded_record};

use word_layout::Tagged;

/// The words that a transfer has loaded in its present try or in its end, whole, by the kind of step that
/// loaded them. Its room is a part of it, so no step takes memory.
#[derive(Clone, Copy, Debug)]
pub struct Loaded {
    /// The state.
    pub state: u64,
    /// The words of that state's record.
    pub record_words: [u64; 66],
    /// The covered slots, by their place in the overlay.
    pub slots: [u64; 32],
    /// The announcements, by process.
    pub announcements: [u64; 32],
    /// The slots of the batches that pending takes get, by process.
    pub popped: [u64; 32],
}

impl Loaded {
    /// Nothing is loaded.
    pub fn nothing() -> Loaded
        ensures { result ≡ nothing_loaded }
    {
        Loaded {
            state: 0,
            record_words: [0; 66],
            slots: [0; 32],
            announcements: [0; 32],
            popped: [0; 32],
        }
    }

    /// The number of the loaded state.
    pub fn tag(&self) -> u64
        ensures tag { result ≡ loaded_tag self.now }
        ensures small { result < tag_limit }
    {
        Tagged::tag(self.state)
    }

    /// The record of the loaded state.
    pub fn row(&self) -> u32
        ensures row { result ≡ loaded_record self.now }
        ensures small { result < value_limit }
    {
        Tagged::value(self.state)
    }

    /// The value of a loaded record word.
    pub fn value(&self, index: u32) -> u32
        requires { index < 66 }
        ensures value { result ≡ record_value self.now index }
        ensures small { result < value_limit }
    {
        Tagged::value(self.record_words[index as usize])
    }

    /// How many slots hold true content.
    pub fn base(&self) -> u32
        ensures base { result ≡ loaded_base self.now }
        ensures small { result < value_limit }
    {
        self.value(0)
    }

    /// How many slots the overlay covers.
    pub fn overlay_length(&self) -> u32
        ensures value { result ≡ overlay_length self.now }
        ensures small { result < value_limit }
    {
        self.value(1)
    }

    /// The head that the overlay has at `offset`.
    pub fn overlay_head(&self, offset: u32) -> u32
        requires { offset < 64 }
        ensures head { result ≡ overlay_head self.now offset }
        ensures small { result < value_limit }
    {
        self.value(2 + offset)
    }

    /// The value of the reply of a process.
    pub fn reply(&self, processes: u32, process: u32) -> u32
        requires few { processes ≤ 32 }
        requires process { process < processes }
        ensures value { result ≡ loaded_reply processes self.now process }
        ensures small { result < value_limit }
    {
        self.value(processes + 2 + process)
    }
}
