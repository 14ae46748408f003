// The steps of a try.
ghost use Rattle.std.specs.Prelude.{◌≡◌, ◌<◌, ◌^◌, ◌↔◌, IsTrue, slice_index, slice_set};
ghost use Rattle.word_layout.specs.Names.{InRange, record_words};
ghost use Rattle.word_layout.specs.Packing.{value_of};
ghost use Rattle.transfer_machine.specs.Machine.{try_action, met_in_try, CanActInTry, CanMeetInTry, CanStore};
ghost use Rattle.transfer_machine.specs.Machine.{state_loaded, slot_loaded, record_word_loaded, announcement_loaded, popped_loaded};
ghost use Rattle.transfer_machine.specs.Machine.{after_try, after_slot, after_record, after_heard, after_stored, installed, other_record};
ghost use Rattle.transfer_machine.specs.Tries.{CanApply};
ghost use Rattle.transfer_machine.specs.Words.{name_of};

use crate::action::Action;
use crate::loaded::Loaded;
use crate::stage::{NextStep, TryStep};
use crate::transfer::TransferView;
use word_layout::{Shape, Tagged, WordName};

impl TransferView {
    /// Whether the numbers that a step of a try names are in their ranges, and what it writes fits a word.
    pub(crate) fn can_act_in_try(&self, step: TryStep, shape: &Shape) -> bool
        ensures { IsTrue result ↔ CanActInTry shape.now self.now step }
    {
        let processes = shape.processes();
        let rows = 2 * processes + 1;
        match step {
            TryStep::LoadState => true,
            TryStep::LoadRecordWord { index } => {
                self.loaded.row() < rows && index < shape.record_words()
            }
            TryStep::LoadCoveredSlot { offset } | TryStep::ExchangeSlot { offset } => {
                offset < 32 && self.loaded.base() + offset < shape.batches()
            }
            TryStep::LoadAnnouncement { process } => process < processes,
            TryStep::LoadPoppedSlot { process } => {
                process < processes && self.draft.base >= 1 && self.draft.base <= shape.batches()
            }
            TryStep::StoreRecordWord { index } => self.can_store(shape, index),
            TryStep::ExchangeState => self.next_record < rows
                && self.loaded.tag() + 1 < Tagged::TAG_LIMIT,
        }
    }

    /// Whether the drafted word can be stored there.
    fn can_store(&self, shape: &Shape, index: u32) -> bool
        ensures { IsTrue result ↔ CanStore shape.now self.now index }
    {
        let processes = shape.processes();
        self.next_record < 2 * processes + 1
            && index < shape.record_words()
            && self.draft.overlay <= 32
            && self.loaded.tag() + 1 < Tagged::TAG_LIMIT
            && self.draft.value(processes, index) < Tagged::VALUE_LIMIT
    }

    /// Whether what a step of a try makes of the view stays in range where it meets this word.
    pub(crate) fn can_meet_in_try(&self, step: TryStep, shape: &Shape, word: u64) -> bool
        requires { CanActInTry shape.now self.now step }
        ensures { IsTrue result ↔ CanMeetInTry shape.now self.now word step }
    {
        let processes = shape.processes();
        match step {
            TryStep::LoadAnnouncement { process } => {
                self.draft
                    .can_apply(&self.loaded, processes, process, word, 0)
            }
            TryStep::LoadPoppedSlot { process } => {
                let heard = self.loaded.announcements[process as usize];
                let popped = Tagged::value(word);
                self.draft
                    .can_apply(&self.loaded, processes, process, heard, popped)
            }
            TryStep::LoadState
            | TryStep::LoadRecordWord { .. }
            | TryStep::LoadCoveredSlot { .. }
            | TryStep::ExchangeSlot { .. }
            | TryStep::StoreRecordWord { .. }
            | TryStep::ExchangeState => true,
        }
    }

    /// What the view does at this step of a try, and to which word.
    #[inline(always)]
    pub(crate) fn try_action(&self, step: TryStep, shape: &Shape) -> Action
        requires { CanActInTry shape.now self.now step }
        ensures action { result ≡ try_action shape.now self.now step }
        ensures within { InRange shape.now (name_of result) }
    {
        prove!(shape.processes() <= 32);
        match step {
            TryStep::LoadState => load(WordName::State),
            TryStep::LoadRecordWord { index } => load(WordName::RecordWord {
                row: self.loaded.row(),
                index,
            }),
            TryStep::LoadCoveredSlot { offset } => load(WordName::Slot {
                slot: self.loaded.base() + offset,
            }),
            TryStep::ExchangeSlot { offset } => Action::Exchange {
                name: WordName::Slot {
                    slot: self.loaded.base() + offset,
                },
                old: self.loaded.slots[offset as usize],
                new: Tagged::pack(self.loaded.tag(), self.loaded.overlay_head(offset)),
            },
            TryStep::LoadAnnouncement { process } => load(WordName::Announcement { process }),
            TryStep::LoadPoppedSlot { .. } => load(WordName::Slot {
                slot: self.draft.base - 1,
            }),
            TryStep::StoreRecordWord { index } => self.store_drafted(shape, index),
            TryStep::ExchangeState => Action::Exchange {
                name: WordName::State,
                old: self.loaded.state,
                new: Tagged::pack(self.loaded.tag() + 1, self.next_record),
            },
        }
    }

    /// Stores the drafted word at a place of the next record.
    #[inline(always)]
    fn store_drafted(&self, shape: &Shape, index: u32) -> Action
        requires { CanStore shape.now self.now index }
        ensures action { result ≡ try_action shape.now self.now (TryStep.StoreRecordWord index) }
        ensures within { InRange shape.now (name_of result) }
    {
        let value = self.draft.value(shape.processes(), index);
        Action::Store {
            name: WordName::RecordWord {
                row: self.next_record,
                index,
            },
            word: Tagged::pack(self.loaded.tag() + 1, value),
        }
    }

    /// What the view becomes once this step of the first or the second try met this word.
    #[inline(always)]
    pub(crate) fn meet_in_try(&mut self, second: bool, step: TryStep, shape: &Shape, word: u64)
        requires act { CanActInTry shape.now self.old step }
        requires meet { CanMeetInTry shape.now self.old word step }
        ensures { self.new ≡ met_in_try shape.now self.old word second step }
    {
        prove!(shape.processes() <= 32);
        match step {
            TryStep::LoadState => self.load_state(second, word),
            TryStep::LoadRecordWord { index } => {
                if Tagged::tag(word) > self.loaded.tag() {
                    self.next = after_try(second);
                } else {
                    self.load_record_word(second, shape, index, word);
                }
            }
            TryStep::LoadCoveredSlot { offset } => self.load_slot(second, offset, word),
            TryStep::ExchangeSlot { offset } => {
                let step = after_slot(&self.loaded, offset);
                self.next = NextStep::Try { second, step };
            }
            TryStep::LoadAnnouncement { process } => {
                self.load_announcement(second, shape, process, word);
            }
            TryStep::LoadPoppedSlot { process } => self.load_popped(second, shape, process, word),
            TryStep::StoreRecordWord { index } => {
                let step = after_stored(shape, index);
                self.next = NextStep::Try { second, step };
            }
            TryStep::ExchangeState => {
                if word == self.loaded.state {
                    self.install();
                } else {
                    self.next = after_try(second);
                }
            }
        }
    }

    /// The state, at the beginning of a try. The first try notes its number.
    fn load_state(&mut self, second: bool, word: u64)
        ensures { self.new ≡ state_loaded second word self.old }
    {
        self.loaded.state = word;
        if !second {
            self.first_loaded = Tagged::tag(word);
        }
        self.next = NextStep::Try {
            second,
            step: TryStep::LoadRecordWord { index: 0 },
        };
    }

    /// A word of the loaded state's record. The draft begins with the last one.
    fn load_record_word(&mut self, second: bool, shape: &Shape, index: u32, word: u64)
        requires { index < record_words shape.now }
        ensures { let words = slice_set self.old.loaded.record_words index word in
            self.new ≡ record_word_loaded shape.now second index (record self.old.loaded { record_words = words }) self.old }
    {
        let count = shape.record_words();
        self.loaded.record_words[index as usize] = word;
        let step = if index + 1 == count {
            self.draft.begin(&self.loaded);
            after_record(&self.loaded)
        } else {
            TryStep::LoadRecordWord { index: index + 1 }
        };
        self.next = NextStep::Try { second, step };
    }

    /// A covered slot. One with an older tag is exchanged next.
    fn load_slot(&mut self, second: bool, offset: u32, word: u64)
        requires { offset < 32 }
        ensures { self.new ≡ slot_loaded second offset word self.old }
    {
        let step = if Tagged::tag(word) < self.loaded.tag() {
            TryStep::ExchangeSlot { offset }
        } else {
            after_slot(&self.loaded, offset)
        };
        self.loaded.slots[offset as usize] = word;
        self.next = NextStep::Try { second, step };
    }

    /// An announcement: it is applied at once unless its batch is still to be loaded.
    fn load_announcement(&mut self, second: bool, shape: &Shape, process: u32, word: u64)
        requires { CanApply shape.now.processes self.old.loaded process word 0 self.old.draft }
        ensures { self.new ≡ announcement_loaded shape.now second process word self.old }
    {
        let processes = shape.processes();
        let step = if self.draft.pops_slot(&self.loaded, processes, process, word) {
            TryStep::LoadPoppedSlot { process }
        } else {
            self.draft.apply(&self.loaded, processes, process, word, 0);
            after_heard(shape, process)
        };
        self.loaded.announcements[process as usize] = word;
        self.next = NextStep::Try { second, step };
    }

    /// The slot of a taken batch: its announcement is applied.
    fn load_popped(&mut self, second: bool, shape: &Shape, process: u32, word: u64)
        requires { let heard = slice_index self.old.loaded.announcements process in
            CanApply shape.now.processes self.old.loaded process heard (value_of word) self.old.draft }
        ensures { self.new ≡ popped_loaded shape.now second process word self.old }
    {
        let heard = self.loaded.announcements[process as usize];
        self.draft.apply(
            &self.loaded,
            shape.processes(),
            process,
            heard,
            Tagged::value(word),
        );
        self.loaded.popped[process as usize] = word;
        let step = after_heard(shape, process);
        self.next = NextStep::Try { second, step };
    }

    /// The exchange put the next record there: the tries have ended.
    fn install(&mut self)
        requires { self.old.next_record < 2 ^ 31 }
        ensures { self.new ≡ installed self.old }
    {
        self.next = NextStep::LoadFinalState;
        self.installed = self.loaded.tag() + 1;
        self.next_record = other_record(self.next_record);
    }
}

/// Loads the word.
fn load(name: WordName) -> Action
    ensures { result ≡ Action.Load name }
{
    Action::Load { name }
}

/// What follows a try that installed nothing: the second follows the first, and the end the second.
fn after_try(second: bool) -> NextStep
    ensures { result ≡ after_try second }
{
    if second {
        NextStep::LoadFinalState
    } else {
        NextStep::Try {
            second: true,
            step: TryStep::LoadState,
        }
    }
}

/// What follows a whole record: the covered slots, if any.
fn after_record(loaded: &Loaded) -> TryStep
    ensures { result ≡ after_record loaded.now }
{
    match loaded.overlay_length() {
        0 => TryStep::LoadAnnouncement { process: 0 },
        _ => TryStep::LoadCoveredSlot { offset: 0 },
    }
}

/// What follows a covered slot: the next one, or the announcements.
fn after_slot(loaded: &Loaded, offset: u32) -> TryStep
    requires { offset < 32 }
    ensures { result ≡ after_slot loaded.now offset }
{
    if offset + 1 == loaded.overlay_length() {
        TryStep::LoadAnnouncement { process: 0 }
    } else {
        TryStep::LoadCoveredSlot { offset: offset + 1 }
    }
}

/// What follows an announcement: the next process's, or the stores of the next record.
fn after_heard(shape: &Shape, process: u32) -> TryStep
    requires { process < 32 }
    ensures { result ≡ after_heard shape.now process }
{
    if process + 1 == shape.processes() {
        TryStep::StoreRecordWord { index: 0 }
    } else {
        TryStep::LoadAnnouncement {
            process: process + 1,
        }
    }
}

/// What follows a stored record word.
fn after_stored(shape: &Shape, index: u32) -> TryStep
    requires { index < 66 }
    ensures { result ≡ after_stored shape.now index }
{
    if index + 1 == shape.record_words() {
        TryStep::ExchangeState
    } else {
        TryStep::StoreRecordWord { index: index + 1 }
    }
}

/// The other of a process's two records.
fn other_record(row: u32) -> u32
    requires { row < 2 ^ 31 }
    ensures { result ≡ other_record row }
{
    if row % 2 == 0 { row + 1 } else { row - 1 }
}
