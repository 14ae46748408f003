//! What transfers move. Each law is the contract of a call that does nothing.
ghost use Rattle.batch_invariant.specs.Laws.{BeginningsKeepBatches, StepsKeepBatches, NextStatesCarry, SameStatesCarry, DraftedStatesCarry};

/// A process that begins a transfer keeps its batches, and so does one whose transfer makes a step, in a state that stays.
pub fn views()
    ensures begun { BeginningsKeepBatches }
    ensures met { StepsKeepBatches }
{}

/// All states that pending announcements make of one move batches between what is in transit and the content alone.
/// So do a state that says the same, and the one that a view installs.
pub fn states()
    ensures next { NextStatesCarry }
    ensures same { SameStatesCarry }
    ensures drafted { DraftedStatesCarry }
{}
