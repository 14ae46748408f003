//! Labels: what is told of a next step fits what it does to which word.
ghost use Rattle.interleaving_core.specs.LabelLaws.{TransferKindsFit, NextKindsFit, TurnsFit, AnswersFit, PhasesFit, WaitingsFit};

/// The kind and the index of the next step of every view say which word it is on, and whether it loads, stores or
/// exchanges it. The turn of a transfer goes with the kind.
#[tactic(auto, using(crate::proofs::Labels::transfer_kinds_fit, crate::proofs::Labels::next_kinds_fit, crate::proofs::Labels::turns_fit))]
pub fn kinds_fit()
    ensures transfers { TransferKindsFit }
    ensures all { NextKindsFit }
    ensures turns { TurnsFit }
{}

/// The answer of a step names its kind.
pub fn answers_fit()
    ensures { AnswersFit }
{}

/// What a process of a run is said to be at fits its next step: it has none between two calls or at rest, that of its
/// transfer while that moves, and the own step of its call there. A transfer that is begun and doesn't move waits.
pub fn phases_fit()
    ensures phases { PhasesFit }
    ensures waiting { WaitingsFit }
{}
