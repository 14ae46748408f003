//! The opening meets the part, each step keeps it, and what it gives. Each law is the contract of a call that does
//! nothing.
ghost use Rattle.draft_invariant.specs.Laws.{OpeningMeetsDrafts, StepsKeepDrafts, BeginningsKeepDrafts, StepsCanBeMade};
ghost use Rattle.draft_invariant.specs.Laws.{StoredWordsFit, DraftedIsNext, DraftedHeadsAreBlocks, DraftedBaseIsLow, DraftsGiveWrites};

/// The words and views of the opening meet the part.
pub fn opening()
    ensures { OpeningMeetsDrafts }
{}

/// Every step of every process, from words and views that meet the invariant and the part, leads to words and views
/// that meet the part.
pub fn steps()
    ensures { StepsKeepDrafts }
{}

/// So does the beginning of a transfer by a process that is at rest.
pub fn beginnings()
    ensures { BeginningsKeepDrafts }
{}

/// Every view can make its next step: the numbers of the step and of what it makes of the view are in range.
pub fn steps_can_be_made()
    ensures { StepsCanBeMade }
{}

/// What a view stores in its next record fits a value.
pub fn stored_words_fit()
    ensures { StoredWordsFit }
{}

/// A state that is installed is what the loaded announcements make of the present one.
pub fn drafted_is_next()
    ensures { DraftedIsNext }
{}

/// The heads that a view drafts are blocks.
pub fn drafted_heads_are_blocks()
    ensures { DraftedHeadsAreBlocks }
{}

/// A view that is about to install its draft has drafted a base of at most the height of the state that it loaded.
pub fn drafted_base_is_low()
    ensures { DraftedBaseIsLow }
{}

/// What a view writes fits, where all places of a draft that it installs are slots.
pub fn writes_fit()
    ensures { DraftsGiveWrites }
{}
