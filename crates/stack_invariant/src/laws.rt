//! The opening meets the invariant, each step keeps it, and what it gives. Each law is the contract of a call
//! that does nothing.
ghost use Rattle.stack_invariant.specs.Laws.{OpeningMeetsStack, BeginningsKeepStack, StepsKeepStack, StackStepsCanBeMade};
ghost use Rattle.stack_invariant.specs.Laws.{OtherWordsKeepStack, InstalledIsNext, RepliesAreAnswers, EachProcessHolds};
ghost use Rattle.stack_invariant.specs.Laws.{TriesApply, WordsShowState, TablesShowState, StepsMoveContent};
ghost use Rattle.stack_invariant.specs.Laws.{StatesAreBlocks, EmptyTakesMetNothing};

/// The words and views of the opening meet the invariant, with the opening state.
pub fn opening()
    ensures { OpeningMeetsStack }
{}

/// The beginning of a transfer by a process that is at rest keeps it.
pub fn beginnings()
    ensures { BeginningsKeepStack }
{}

/// So does every step of every process, where a transfer that is announced has a number and a wish in range and
/// a state that is installed has room.
pub fn steps()
    ensures { StepsKeepStack }
{}

/// Every view can make its next step: the numbers of the step and of what it makes of the view are in range.
pub fn steps_can_be_made()
    ensures { StackStepsCanBeMade }
{}

/// The invariant doesn't speak of next words and data words.
pub fn other_words()
    ensures { OtherWordsKeepStack }
{}

/// A state that is installed is the present one with the loaded announcements applied, of which the pending ones
/// are present.
pub fn installs()
    ensures { InstalledIsNext }
{}

/// The reply that a transfer loads in the end is that of the present state, which has applied it.
pub fn answers()
    ensures { RepliesAreAnswers }
{}

/// Of each process: its number, the count of its applied transfers, and the slots that its view covers.
pub fn processes()
    ensures { EachProcessHolds }
{}

/// A transfer is applied once its two tries are over, whoever applied it.
pub fn tries()
    ensures { TriesApply }
{}

/// All heads of all states so far are blocks.
pub fn states()
    ensures { StatesAreBlocks }
{}

/// A transfer that was answered with nothing was a take, which an exchange applied to an empty content.
pub fn empty_takes()
    ensures { EmptyTakesMetNothing }
{}

/// The words show the present state.
pub fn content()
    ensures { WordsShowState }
{}

/// So do the words of a table: the stack that they hold is the content of the present state.
pub fn tables()
    ensures { TablesShowState }
{}

/// A step leaves the content that the words show, but for an exchange of the state that hits: it applies the
/// loaded announcements.
pub fn changes()
    ensures { StepsMoveContent }
{}
