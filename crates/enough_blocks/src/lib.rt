//! With enough blocks no legal history refuses one, whatever the processes play.
//!
//! A run of scripts shows how many blocks each script holds at most while none is refused; with more blocks than these
//! and the slack together, it follows that none is.
#![tactic(auto)]

ghost use Rattle.enough_blocks.specs.Enough.{EnoughBlocksAreNotRefused};

/// What holds of all legal histories: the contract of a call that does nothing. Where each process holds at most its peak
/// as long as none is refused, and there are more blocks than the processes may withhold and hold at their peaks together,
/// none is refused.
pub fn enough_blocks()
    ensures { EnoughBlocksAreNotRefused }
{}
