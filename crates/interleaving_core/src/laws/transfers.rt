//! Transfers in every run: they end, they are applied, and each changes the content of the stack once.
ghost use Rattle.interleaving_core.specs.TransferLaws.{RunsMeetInvariant, RunsGoOn, RunsAreMade, BusyProcessesGoOn, RunsMakeSteps, TransfersAreBounded, StepsCount, OthersLeaveViews, TransfersEnd, WholeTransfersEnd, TwoTriesApply, RunsShowStates, ContentMoves, HeadsStayApart};

/// Every run meets the invariant with its history, and is of the shape that it was opened with.
pub fn runs_keep_invariant()
    ensures { RunsMeetInvariant }
{}

/// Any turns can be made from any opening, and every run is made so. A process that has a next step makes it by a
/// turn of its own.
#[tactic(auto, using(crate::proofs::RunTurns::runs_go_on, crate::proofs::RunTurns::runs_are_made, crate::proofs::RunTurns::busy_go_on))]
pub fn runs_go_on()
    ensures on { RunsGoOn }
    ensures made { RunsAreMade }
    ensures busy { BusyProcessesGoOn }
{}

/// No transfer has made more steps than its bound, and one that hasn't ended has a step left.
pub fn transfers_are_bounded()
    ensures { TransfersAreBounded }
{}

/// A move that is made is a step of its process's transfer, and so is an event where the process's call makes these.
/// Such a step counts one, or ends the transfer; no other turn counts, and one of another process leaves its view.
pub fn steps_count()
    ensures made { RunsMakeSteps }
    ensures own { StepsCount }
    ensures others { OthersLeaveViews }
{}

/// A transfer among p processes ends within 16p + 15 steps of its own process, alone or in calls, whatever the
/// others do.
pub fn transfers_end()
    ensures going { TransfersEnd }
    ensures whole { WholeTransfersEnd }
{}

/// An announcement is pending only while its process is in its two tries: once they are over, be they made or
/// failed, its transfer is applied, whoever did it.
pub fn two_tries_apply()
    ensures { TwoTriesApply }
{}

/// The words and views show a state, in which all announced transfers are applied but the pending ones.
pub fn states_are_shown()
    ensures { RunsShowStates }
{}

/// The content of the stack changes only by an exchange of the state. That applies pending transfers, in the
/// order of the processes, each once.
pub fn content_moves()
    ensures { ContentMoves }
{}

/// The heads of all batches are blocks, and none is at two places.
pub fn heads_stay_apart()
    ensures { HeadsStayApart }
{}
