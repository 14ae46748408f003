//! The laws of plans that move together with the entries of their process.
//!
//! An account is a plan, the place in the present call, and the numbers of own entries; `specs/Account.antt`
//! has one constructor for each step of the schedule. The functions here do nothing: each clause is a law,
//! proved of every account that these steps reach.
ghost use Rattle.std.specs.Prelude.{ℕ};
ghost use Rattle.transfer_schedule.specs.Numbers.{Numbers, AreSizes};
ghost use Rattle.transfer_schedule.specs.Table.{InTable};
ghost use Rattle.transfer_schedule.specs.Account.{Account, Reached, EveryReached};
ghost use Rattle.transfer_schedule.specs.Laws.{HasSizes, RestsWithFour, WithholdsFive, EndsInTime, GivesLeaveBatch};
ghost use Rattle.transfer_schedule.specs.Laws.{CountsSteps, BeginsShort, RefusesSoon, SoundWhileServing, MissesNow};
ghost use Rattle.transfer_schedule.specs.Laws.{WaitsAnnounced, JustBegun, PendsWhileMoving, IdlesWhileStill, RestsCleared};
ghost use Rattle.transfer_schedule.specs.Alone.{EveryAlone};

/// Of a process that makes calls: what it keeps at every moment, and why it is ever short of blocks.
pub fn of_accounts()
    ensures sizes { (length bound quantum : ℕ) (a : Account) → Reached length bound quantum a → HasSizes length bound quantum a.plan }
    ensures table { EveryReached (λ a. InTable a.plan) }
    ensures rests { EveryReached (λ a. RestsWithFour a.plan) }
    ensures withholds { EveryReached (λ a. WithholdsFive a.plan) }
    ensures ends { EveryReached EndsInTime }
    ensures gives { EveryReached GivesLeaveBatch }
    ensures counts { EveryReached CountsSteps }
    ensures sound { EveryReached SoundWhileServing }
    ensures begins { EveryReached BeginsShort }
    ensures refuses { EveryReached RefusesSoon }
    ensures misses { EveryReached MissesNow }
    ensures rested { EveryReached RestsCleared }
    ensures waits { EveryReached WaitsAnnounced }
    ensures just_begun { EveryReached JustBegun }
    ensures pends { EveryReached PendsWhileMoving }
    ensures still { EveryReached IdlesWhileStill }
{}

/// Of a process that makes transfers alone, outside any call.
pub fn of_transfers_alone()
    ensures table { EveryAlone InTable }
    ensures rests { EveryAlone RestsWithFour }
    ensures withholds { EveryAlone WithholdsFive }
{}
