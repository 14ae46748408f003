//! Laws of calls, over every run: the histories, who holds a block, what is withheld, and how long a call is.
ghost use Rattle.interleaving_core.specs.CallLaws.{ShapesStay, HistoriesAreLegal, RefusalsHadFew, NoneIsHeldTwice, HoldersHold, FewAreWithheld, EachKeepsFive, AllAreCounted, KeptFollowsCalls, CallsAreShort, QuantaAreKept, TransfersAreShort, TransfersEndInTime, PlansWithinTable, ReadsLoad, WritesStore, DataIsKept};

/// The shape of a run stays.
pub fn shapes_stay()
    ensures { ShapesStay }
{}

/// The history of every run is legal: each refusal had a moment in its window with few unheld blocks, and no block
/// is held twice.
#[tactic(auto, using(crate::proofs::CallLaws::histories_are_legal, crate::proofs::CallLaws::refusals_had_few))]
pub fn histories_are_legal()
    ensures legal { HistoriesAreLegal }
    ensures refusals { RefusalsHadFew }
    ensures once { NoneIsHeldTwice }
{}

/// Whoever a run names as the holder of a block holds it by the history, and nobody else does.
pub fn holders_hold()
    ensures { HoldersHold }
{}

/// All blocks but the slack are held or in the shared stack, at every moment.
pub fn few_are_withheld()
    ensures { FewAreWithheld }
{}

/// A process keeps at most five batches of blocks, wherever it stands, and so wherever it stopped. Each block is
/// kept by a process, held, or in the shared stack. The answer of a call moves blocks between what is held and what its
/// own process keeps, and changes what no other keeps.
pub fn kept_are_few()
    ensures five { EachKeepsFive }
    ensures all { AllAreCounted }
    ensures follows { KeptFollowsCalls }
{}

/// An allocate or a free takes at most a quantum of steps and its own one, whatever the other processes do.
pub fn calls_are_short()
    ensures short { CallsAreShort }
    ensures quanta { QuantaAreKept }
{}

/// A transfer that a call begins ends within as many calls of its process as a batch has blocks, whatever the other
/// processes do.
pub fn transfers_end_in_time()
    ensures short { TransfersAreShort }
    ensures account { TransfersEndInTime }
{}

/// Each plan is within the schedule's table of spares.
pub fn plans_within_table()
    ensures { PlansWithinTable }
{}

/// A data word of a block keeps its value while a process holds the block, but for that process's writes to it. A
/// read is answered with it, and a write leaves its value there.
#[tactic(auto, using(crate::proofs::CallLawsData::reads_load))]
pub fn data_is_kept()
    ensures kept { DataIsKept }
    ensures reads { ReadsLoad }
    ensures writes { WritesStore }
{}
