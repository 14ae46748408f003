//! Sums of a number of each process.
//!
//! What all processes hold together is a sum over them: `total` of `specs/Sums.antt`. So are the blocks of all
//! batches and the weight of the stack's content. The lemmas on such sums are in `proofs/Sums.antt`, each once
//! for all crates above; the main ones are the contract of [`of_sums`].
#![tactic(auto)]

ghost use Rattle.process_sums.specs.Laws.{SameTermsHaveOneSum, OneTermMovesTheSum, TermsAreWithinTheSum};
ghost use Rattle.process_sums.specs.Laws.{SumsAddUp, SumsHaveParts, SomeTermIsThere};

/// What holds of all sums: the contract of a call that does nothing.
#[tactic(auto, using(crate::proofs::Sums::total_same, crate::proofs::Sums::total_sums, crate::proofs::Sums::total_parts, crate::proofs::Sums::some_term))]
pub fn of_sums()
    ensures same { SameTermsHaveOneSum }
    ensures moved { OneTermMovesTheSum }
    ensures within { TermsAreWithinTheSum }
    ensures sums { SumsAddUp }
    ensures parts { SumsHaveParts }
    ensures some { SomeTermIsThere }
{}
