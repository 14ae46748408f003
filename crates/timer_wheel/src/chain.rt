// The lists in which timers stand, and a timer's spot in one.
use crate::record::TimerRecord;

/// The ends of a list. A link is 0, or one more than the place that it leads to.
#[derive(Clone, Copy, Debug, PartialEq, Eq)]
pub(crate) struct Chain {
    pub(crate) first: u64,
    pub(crate) last: u64,
}

/// Where a timer stands: its list, the link to the timer before it there, its own place, and the record at that.
#[derive(Clone, Copy, Debug, PartialEq, Eq)]
pub(crate) struct Spot {
    pub(crate) list: usize,
    pub(crate) before: u64,
    pub(crate) place: usize,
    pub(crate) timer: TimerRecord,
}
