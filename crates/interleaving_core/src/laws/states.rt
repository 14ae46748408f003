//! What follows of any words and views that meet the invariant, of the states of the stack, of takes that found nothing,
//! and of what views loaded.
ghost use Rattle.interleaving_core.specs.StateLaws.{StatesFollowOne, EmptyTakesMetNothing, EmptyTakesHadFew, TriesApply};
ghost use Rattle.interleaving_core.specs.StateLaws.{FailedTriesMoveState, LoadsAreInRange, AnswersStay, NoneWhereNoneIsKept};

/// The stack had a state for each number up to the present one: that of the opening, then each the one before it with pending
/// announcements applied, in the order of the processes, and no transfer twice. A state that a transfer installed has applied it.
pub fn states_follow()
    ensures { StatesFollowOne }
{}

/// A transfer is answered with nothing only where an exchange applied it, a take, to an empty content.
pub fn empty_takes()
    ensures { EmptyTakesMetNothing }
{}

/// Since a take was announced that found nothing, there was a place of the history at which at most the slack was unheld: of the
/// pending take, and of the last ended one where the plan says dry. So it is of every process, also of one that makes transfers alone.
pub fn empty_takes_had_few()
    ensures { EmptyTakesHadFew }
{}

/// Once its two tries are over a transfer is applied. Where both failed there are two states after the one that it loaded first.
pub fn tries()
    ensures applied { TriesApply }
    ensures moved { FailedTriesMoveState }
{}

/// The numbers of the announcements and the heads in the slots that a view loaded are in range.
pub fn loads()
    ensures { LoadsAreInRange }
{}

/// The last answer of a process that has announced no transfer is its reply in the current record.
pub fn answers()
    ensures { AnswersStay }
{}

/// An allocate finds no block exactly where its process keeps none.
pub fn none_is_kept()
    ensures { NoneWhereNoneIsKept }
{}
