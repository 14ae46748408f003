//! What the next step of one process makes of words and views that meet the invariant, whether or not a run led to
//! them.
ghost use Rattle.interleaving_core.specs.StepLaws.{StepsKeepInvariant, StepsLeaveData, StepsTellData, StepsKeepData, StepsEnterOwn, HoldersAreApart, CallsAreDue, CallsKeepInvariant, MovesAreDue, MovesKeepInvariant, CallsMeetConditions, AnswersAreReplies};

/// A step keeps the invariant, with the history that its answer makes.
pub fn steps_keep_invariant()
    ensures { StepsKeepInvariant }
{}

/// A process between two calls that may begin this one begins it and makes its first step; one in a call goes on. The
/// step is due as soon as the call is begun, and keeps the invariant.
pub fn calls_keep_invariant()
    ensures due { CallsAreDue }
    ensures kept { CallsKeepInvariant }
{}

/// A process at rest that may begin a transfer alone begins it and makes its first step; one in such a transfer goes
/// on. The step is due as soon as the transfer is begun, and keeps the invariant.
pub fn moves_keep_invariant()
    ensures due { MovesAreDue }
    ensures kept { MovesKeepInvariant }
{}

/// A step leaves each data word of each block that its process doesn't hold.
pub fn steps_leave_data()
    ensures { StepsLeaveData }
{}

/// What a process knows of the data words of its blocks holds after its step, with the word that a read loaded or a
/// write stored, and without those of a block that it freed. It needn't note a word that it read.
pub fn steps_tell_data()
    ensures told { StepsTellData }
    ensures kept { StepsKeepData }
{}

/// A step makes no entry of another process.
pub fn steps_enter_own()
    ensures { StepsEnterOwn }
{}

/// What a process holds is a block of the pool, and no other process holds it.
pub fn holders_are_apart()
    ensures { HoldersAreApart }
{}

/// The process whose step loads the reply that ends its transfer is answered with its reply in the current record,
/// whatever the others did since its last try.
pub fn answers_are_replies()
    ensures { AnswersAreReplies }
{}

/// A process that is to make a step of a transfer meets the conditions on its call: alone it has begun none; in a
/// call it holds the block that this names, and has made fewer than a quantum of steps in it.
pub fn calls_meet_conditions()
    ensures { CallsMeetConditions }
{}
