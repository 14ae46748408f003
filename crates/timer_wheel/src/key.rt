// Keys of timers, and how a start is answered.

/// Tells a timer from all others that a wheel ever started, by its number. The place is where it stands: with it, it is
/// found without a search. A place that isn't the timer's changes no answer.
#[derive(Clone, Copy, Debug, PartialEq, Eq)]
pub struct Key {
    /// Which start it was, from 0.
    pub number: u64,
    /// Where it stands.
    pub place: u32,
}

/// How a start is answered.
#[derive(Clone, Copy, Debug, PartialEq, Eq)]
pub enum Started {
    /// The timer runs, and has this key.
    Running(Key),
    /// As many timers run as the wheel has room for.
    Crowded,
    /// The pass's own pool has no block.
    Full,
}
