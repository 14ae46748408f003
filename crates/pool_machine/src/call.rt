// The calls of a process.
ghost use Rattle.std.specs.Prelude.{◌≡◌};
ghost use Rattle.pool_machine.specs.Conditions.{may_use_calls, may_use_transfers};
ghost use Rattle.pool_machine.specs.Pools.{opening_calls};

/// What a process calls for.
#[derive(Clone, Copy, Debug, PartialEq, Eq, Hash)]
pub enum Call {
    /// Get a block.
    Allocate,
    /// Give a held block back.
    Free { block: u32 },
    /// Load data word `index` of a held block.
    Read { block: u32, index: u32 },
    /// Store a value as data word `index` of a held block.
    Write { block: u32, index: u32, value: u64 },
    /// Get a block, after whole transfers: one that is pending is run to its end, and then the one that is due.
    Search,
}

/// How a process has used its pool so far.
#[derive(Clone, Copy, Debug, PartialEq, Eq, Hash)]
pub enum Way {
    /// It has begun nothing.
    Fresh,
    /// It has begun a transfer alone, outside any call.
    Alone,
    /// It has begun a call.
    Calls,
}

impl Way {
    /// Whether a process that has used its pool so may begin a call.
    pub fn may_use_calls(self) -> bool
        ensures { result ≡ may_use_calls self }
    {
        match self {
            Way::Fresh | Way::Calls => true,
            Way::Alone => false,
        }
    }

    /// Whether a process that has used its pool so may begin a transfer outside any call.
    pub fn may_use_transfers(self) -> bool
        ensures { result ≡ may_use_transfers self }
    {
        match self {
            Way::Fresh | Way::Alone => true,
            Way::Calls => false,
        }
    }
}

/// Where a process stands in its call.
#[derive(Clone, Copy, Debug, PartialEq, Eq, Hash)]
pub enum CallStage {
    /// In no call.
    Between,
    /// In a search whose met transfer has ended: before its next step it begins the one that is due, if any.
    Choosing,
    /// At a step of the pending transfer.
    Moving,
    /// At the own step of the call.
    Own,
}

/// What a process keeps for its calls.
#[derive(Clone, Copy, Debug, PartialEq, Eq, Hash)]
pub struct CallView {
    /// Where it stands in the call.
    pub stage: CallStage,
    /// The present call.
    pub call: Option<Call>,
    /// How many steps of its quantum an allocate or a free has made.
    pub steps: u32,
    /// Whether the call begins no transfer any more. A search that met one chooses once that has ended: it begins what is
    /// due then, if anything.
    pub chosen: bool,
    /// How the process has used its pool so far.
    pub way: Way,
}

impl CallView {
    /// The view of a process at the opening.
    pub fn open() -> CallView
        ensures { result ≡ opening_calls }
    {
        CallView {
            stage: CallStage::Between,
            call: None,
            steps: 0,
            chosen: false,
            way: Way::Fresh,
        }
    }
}
