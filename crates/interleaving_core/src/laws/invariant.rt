//! What follows of any words and views that meet the invariant, whether or not a run led to them.
ghost use Rattle.interleaving_core.specs.InvariantLaws.{HistoryIsLegal, FewAreWithheld, EachKeepsFive, AllAreCounted};

/// Their history is legal.
pub fn history_is_legal()
    ensures { HistoryIsLegal }
{}

/// All blocks but the slack are held or in the shared stack. A process keeps at most five batches of blocks; what the
/// processes keep, what is held and what is in the stack are all blocks.
pub fn few_are_withheld()
    ensures few { FewAreWithheld }
    ensures five { EachKeepsFive }
    ensures all { AllAreCounted }
{}
