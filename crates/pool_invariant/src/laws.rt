//! Each law is the contract of a call that does nothing.
ghost use Rattle.pool_invariant.specs.Laws.{OpeningMeetsPool, BeginningsKeepPool, StepsKeepPool, StepsCanCount};
ghost use Rattle.pool_invariant.specs.Laws.{RepliesCanEnd, PlansWithinTable, StepsAreLeft, StepsComeNearer, TransfersEnd, OverlaysAreFew};

/// The facts of a process's pool hold at the opening.
pub fn opening()
    ensures { OpeningMeetsPool }
{}

/// A process that begins a transfer keeps them.
pub fn beginnings()
    ensures { BeginningsKeepPool }
{}

/// Each step of its transfer keeps them, whatever word it meets, where the loaded overlay has at most a head a
/// process and the own reply answers the own wish.
pub fn steps()
    ensures { StepsKeepPool }
{}

/// The pool can count each step of its transfer, and end it with the own reply.
pub fn pools_can_meet()
    ensures count { StepsCanCount }
    ensures end { RepliesCanEnd }
{}

/// The plan is within the table of spares.
pub fn plans_within_table()
    ensures { PlansWithinTable }
{}

/// A transfer takes at most 16 p + 15 steps among p processes.
pub fn transfers_end()
    ensures left { StepsAreLeft }
    ensures nearer { StepsComeNearer }
    ensures ends { TransfersEnd }
{}

/// The parts of the records give that a loaded overlay has at most a head a process.
pub fn overlays_are_few()
    ensures { OverlaysAreFew }
{}
