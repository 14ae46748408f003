//! Each law is the contract of a call that does nothing.
ghost use Rattle.history_invariant.specs.Laws.{OpeningHasHistory, StepsKeepHistory, ExchangesKeepHistory, GotsKeepHistory};
ghost use Rattle.history_invariant.specs.Laws.{BacksKeepHistory, RefusalsKeepHistory, JoinsKeepHistory, EmptyStackLeavesFew};
ghost use Rattle.history_invariant.specs.Laws.{HistoryIsLongest, HeldBlocksAreShared, BeginningsAreLegal, SeenIsLegal};

/// At the opening the history is empty.
pub fn opening()
    ensures { OpeningHasHistory }
{}

/// Each step of a process that makes no entry keeps the history.
pub fn steps()
    ensures { StepsKeepHistory }
{}

/// So does an exchange of the state, where takes find nothing only while few blocks are unheld.
pub fn exchanges()
    ensures { ExchangesKeepHistory }
{}

/// Each call adds its entry to the history, which stays legal. A refusal needs no premise for that.
pub fn entries()
    ensures gots { GotsKeepHistory }
    ensures backs { BacksKeepHistory }
    ensures refusals { RefusalsKeepHistory }
{}

/// A process that is told what another one has seen keeps the history.
pub fn joins()
    ensures { JoinsKeepHistory }
{}

/// While the shared stack is empty, few blocks are unheld.
pub fn empty_stacks()
    ensures { EmptyStackLeavesFew }
{}

/// Each held block is one of the pool, and in the grip of one process.
pub fn held_blocks()
    ensures { HeldBlocksAreShared }
{}

/// Each beginning of the history is legal, and with it what each process has seen.
pub fn beginnings()
    ensures all { BeginningsAreLegal }
    ensures seen { SeenIsLegal }
{}

/// The history is the longest that a process has seen.
pub fn longest_seen()
    ensures { HistoryIsLongest }
{}
