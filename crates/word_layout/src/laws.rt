//! What holds of shapes, names, places and packed words, for all of them at once. Each law is the contract
//! of a call that does nothing.
ghost use Rattle.word_layout.specs.Laws.{LengthIsOne, FirstFaultIsOne, ShapesHaveNoFault, BatchesHaveTwoBlocks, BatchesLieWithinBlocks, PlacesAreInTable, PlacesDiffer, PlacesHaveNames, SetWordIsRead, OtherWordsStay, MostAgeHasTags, MostAgeIsGreatest, TaggedFits, TaggedReadsBack, AnnouncedFits, AnnouncedReadsBack, ReplyFits, ReplyReadsBack};

/// What a batch's length is, and which fault is told, is settled by the numbers: those of a shape have none.
/// Batches have two blocks or more, and lie within the pool.
#[tactic(auto, using(crate::proofs::Refusals::no_fault, crate::proofs::Limits::two_blocks_a_batch, crate::proofs::Limits::batch_within_blocks))]
pub fn shapes()
    ensures length { LengthIsOne }
    ensures fault { FirstFaultIsOne }
    ensures no_fault { ShapesHaveNoFault }
    ensures two_blocks { BatchesHaveTwoBlocks }
    ensures within { BatchesLieWithinBlocks }
{}

/// Names and places lead to one another.
#[tactic(auto, using(crate::proofs::Placed::place_below, crate::proofs::Placed::places_apart, crate::proofs::Placed::named))]
pub fn places()
    ensures in_table { PlacesAreInTable }
    ensures apart { PlacesDiffer }
    ensures all { PlacesHaveNames }
{}

/// A change of one word is seen at its name and nowhere else.
pub fn words()
    ensures here { SetWordIsRead }
    ensures elsewhere { OtherWordsStay }
{}

/// The most transfers of a process is the greatest number for which all transfers of all processes have tags.
#[tactic(auto, using(crate::proofs::Ages::most_age_has_tags, crate::proofs::Ages::most_age_is_greatest))]
pub fn ages()
    ensures tags { MostAgeHasTags }
    ensures greatest { MostAgeIsGreatest }
{}

/// What is packed is read back, and fits its word.
pub fn packing()
    ensures tagged_fits { TaggedFits }
    ensures tagged { TaggedReadsBack }
    ensures announced_fits { AnnouncedFits }
    ensures announced { AnnouncedReadsBack }
    ensures reply_fits { ReplyFits }
    ensures reply { ReplyReadsBack }
{}
