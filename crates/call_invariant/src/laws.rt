//! Each law is the contract of a call that does nothing.
ghost use Rattle.call_invariant.specs.Laws.{ShapesFitSchedules, OpeningMeetsCalls, ChangingCallsBegin, KeepingCallsBegin, SearchesChoose};
ghost use Rattle.call_invariant.specs.Laws.{TransferStepsCarryOn, TransferStepsEnterNothing, OwnStepsAreDue, GotsEndCalls};
ghost use Rattle.call_invariant.specs.Laws.{RefusalsEndCalls, BacksEndCalls, KeepingStepsEndCalls, BlocksAreThePlans, AllocatesHaveSpares};
ghost use Rattle.call_invariant.specs.Laws.{FreesHaveRoom, HoldersMayFree, TransfersBegin, TransfersStep, CallsAreOneWay, InCallsIsAUse};
ghost use Rattle.call_invariant.specs.Laws.{TransfersAreOneWay, InTransfersIsAUse, SameAccountsKeep, UsesKeepPools, UsesWithholdFew};
ghost use Rattle.call_invariant.specs.Laws.{StepsCanCount, RepliesCanEnd, DueTransfersMayBegin, IdlePoolsRest, CallsCanBegin};
ghost use Rattle.call_invariant.specs.Laws.{MovesCanBeMade, EmptyStackLeavesFew};

/// The sizes of a shape are those of a schedule.
pub fn shapes()
    ensures { ShapesFitSchedules }
{}

/// A process that has begun nothing has the ledger of the opening.
pub fn opening()
    ensures { OpeningMeetsCalls }
{}

/// A process begins a call. With an allocate or a free its ledger goes on, with a read or a write it stays.
pub fn beginnings()
    ensures changing { ChangingCallsBegin }
    ensures keeping { KeepingCallsBegin }
    ensures choosing { SearchesChoose }
{}

/// A process makes a transfer step in a call. Its ledger goes on, without an entry.
pub fn transfer_steps()
    ensures carry_on { TransferStepsCarryOn }
    ensures enter_nothing { TransferStepsEnterNothing }
{}

/// A process makes the own step of its call, which enters that call in the ledger, or nothing.
pub fn own_steps()
    ensures due { OwnStepsAreDue }
    ensures gots { GotsEndCalls }
    ensures refusals { RefusalsEndCalls }
    ensures backs { BacksEndCalls }
    ensures keeping { KeepingStepsEndCalls }
{}

/// Which block an allocate is given, and which spares an own step finds.
pub fn spares()
    ensures blocks { BlocksAreThePlans }
    ensures opened { AllocatesHaveSpares }
    ensures room { FreesHaveRoom }
    ensures held { HoldersMayFree }
{}

/// A process begins a transfer alone, or makes a step of it. Nothing is entered in its ledger.
pub fn transfers_alone()
    ensures begin { TransfersBegin }
    ensures step { TransfersStep }
{}

/// A process uses its pool by calls, or by transfers alone.
pub fn ways()
    ensures calls { CallsAreOneWay }
    ensures in_calls { InCallsIsAUse }
    ensures transfers { TransfersAreOneWay }
    ensures in_transfers { InTransfersIsAUse }
    ensures same { SameAccountsKeep }
{}

/// What holds either way: what the pool keeps, that it can count each step of its transfer and end it, and that
/// the transfer that is due may begin.
pub fn pools()
    ensures keep { UsesKeepPools }
    ensures count { StepsCanCount }
    ensures end { RepliesCanEnd }
    ensures due { DueTransfersMayBegin }
    ensures rest { IdlePoolsRest }
{}

/// Calls can begin and make their transfer steps.
pub fn calls_can_go_on()
    ensures begin { CallsCanBegin }
    ensures move_on { MovesCanBeMade }
{}

/// Whichever way a process uses its pool, it withholds at most its allowance; so few blocks are unheld while the
/// shared stack is empty.
pub fn empty_stacks()
    ensures withheld { UsesWithholdFew }
    ensures few { EmptyStackLeavesFew }
{}
