//! What holds of every view, every call and every word. Each law is the contract of a call that does
//! nothing.
ghost use Rattle.pool_machine.specs.Laws.{ConditionsAreTests, MovesAreTests, CallsEnd};
ghost use Rattle.pool_machine.specs.Laws.{ChoicesAreThePlans, DueTransfersCanBegin, OwnStepsAreThePlans};
ghost use Rattle.pool_machine.specs.Laws.{OpeningFits, BeginningsKeepSizes, StepsKeepSizes};

/// The tests of the conditions on a beginning are these conditions.
pub fn conditions()
    ensures calls { ConditionsAreTests }
    ensures transfers { MovesAreTests }
{}

/// The transfer that begins with a call is the one that the plan chooses, and can begin; an own step takes or
/// gives one block of the plan.
pub fn plans()
    ensures choices { ChoicesAreThePlans }
    ensures due { DueTransfersCanBegin }
    ensures own_steps { OwnStepsAreThePlans }
{}

/// The plan has the shape's sizes at the opening, and calls keep them.
pub fn sizes()
    ensures opening { OpeningFits }
    ensures beginnings { BeginningsKeepSizes }
    ensures steps { StepsKeepSizes }
{}

/// An allocate or a free takes at most a quantum of steps and one, a read or a write one, whatever words they
/// meet.
pub fn calls_end()
    ensures { CallsEnd }
{}
