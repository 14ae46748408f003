//! How far a transfer is: the step that its process makes next.

use crate::kind::Kind;

/// The next step of a transfer: the announcement, two tries, and the end.
#[derive(Clone, Copy, Debug, PartialEq, Eq, Hash)]
pub enum NextStep {
    /// No transfer is begun.
    Rest,
    /// Store the own announcement.
    Announce,
    /// A step of the first try, or of the second.
    Try { second: bool, step: TryStep },
    /// Load the state, at the end of the transfer.
    LoadFinalState,
    /// Load the own reply.
    LoadReply,
}

/// The next step of a try.
#[derive(Clone, Copy, Debug, PartialEq, Eq, Hash)]
pub enum TryStep {
    /// Load the state, at the beginning of the try.
    LoadState,
    /// Load word `index` of the loaded state's record.
    LoadRecordWord { index: u32 },
    /// Load the slot that the loaded overlay covers at `offset`.
    LoadCoveredSlot { offset: u32 },
    /// Exchange that slot for what the overlay has there.
    ExchangeSlot { offset: u32 },
    /// Load the announcement of a process.
    LoadAnnouncement { process: u32 },
    /// Load the slot of the batch that the pending take of a process gets.
    LoadPoppedSlot { process: u32 },
    /// Store word `index` of the next record.
    StoreRecordWord { index: u32 },
    /// Exchange the state for one with the next record.
    ExchangeState,
}

/// Where a transfer stands.
#[derive(Clone, Copy, Debug, PartialEq, Eq, Hash)]
pub struct Stage {
    /// 0 for the announcement, 1 and 2 for the two tries, 3 for the end.
    pub turn: u32,
    /// The kind of the next step.
    pub kind: Kind,
    /// The record word, the place in the loaded overlay or the process that the next step is about, else 0.
    pub index: u32,
}

impl NextStep {
    ghost use Rattle.std.specs.Prelude.{◌≡◌};
    ghost use Rattle.transfer_machine.specs.Stages.{turn_of, kind_of, index_of};

    /// 0 for the announcement and at rest, 1 and 2 in the two tries, 3 at the end.
    pub fn turn(&self) -> u32
        ensures { result ≡ turn_of self.now }
    {
        match self {
            NextStep::Rest | NextStep::Announce => 0,
            NextStep::Try { second, .. } => { if *second { 2 } else { 1 } }
            NextStep::LoadFinalState | NextStep::LoadReply => 3,
        }
    }

    /// The kind of the step. Rest has that of a load of the state that changes nothing.
    pub fn kind(&self) -> Kind
        ensures { result ≡ kind_of self.now }
    {
        match self {
            NextStep::Rest => Kind::K19,
            NextStep::Announce => Kind::K1,
            NextStep::Try { step, .. } => step.kind(),
            NextStep::LoadFinalState => Kind::K10,
            NextStep::LoadReply => Kind::K11,
        }
    }

    /// The record word, the place in the loaded overlay or the process that the step is about, else 0.
    pub fn index(&self) -> u32
        ensures { result ≡ index_of self.now }
    {
        match self {
            NextStep::Try { step, .. } => step.index(),
            NextStep::Rest | NextStep::Announce | NextStep::LoadFinalState | NextStep::LoadReply =>
                0,
        }
    }
}

impl TryStep {
    ghost use Rattle.std.specs.Prelude.{◌≡◌};
    ghost use Rattle.transfer_machine.specs.Stages.{try_kind, try_index};

    /// The kind of the step.
    pub fn kind(&self) -> Kind
        ensures { result ≡ try_kind self.now }
    {
        match self {
            TryStep::LoadState => Kind::K2,
            TryStep::LoadRecordWord { .. } => Kind::K3,
            TryStep::LoadCoveredSlot { .. } => Kind::K4,
            TryStep::ExchangeSlot { .. } => Kind::K5,
            TryStep::LoadAnnouncement { .. } => Kind::K6,
            TryStep::LoadPoppedSlot { .. } => Kind::K7,
            TryStep::StoreRecordWord { .. } => Kind::K8,
            TryStep::ExchangeState => Kind::K9,
        }
    }

    /// The record word, the place in the loaded overlay or the process that the step is about, else 0.
    pub fn index(&self) -> u32
        ensures { result ≡ try_index self.now }
    {
        match self {
            TryStep::LoadRecordWord { index } | TryStep::StoreRecordWord { index } => *index,
            TryStep::LoadCoveredSlot { offset } | TryStep::ExchangeSlot { offset } => *offset,
            TryStep::LoadAnnouncement { process } | TryStep::LoadPoppedSlot { process } => *process,
            TryStep::LoadState | TryStep::ExchangeState => 0,
        }
    }
}
