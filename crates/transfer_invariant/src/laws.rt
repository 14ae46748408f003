//! The opening meets the invariant and each step keeps it. Each law is the contract of a call that does
//! nothing.
ghost use Rattle.transfer_invariant.specs.Laws.{OpeningMeetsInvariant, StepsKeepInvariant, BeginningsKeepInvariant};
ghost use Rattle.transfer_invariant.specs.Laws.{TableActsByNames, TagsAreFew, WholeRecordsAreStates};

/// The words and views of the opening meet the invariant, with the opening state.
pub fn opening()
    ensures { OpeningMeetsInvariant }
{}

/// Every step of every process, from words and views that meet the invariant, leads to such words and views,
/// where the value of a record word that it stores fits and the draft of a state that it installs has room.
pub fn steps()
    ensures { StepsKeepInvariant }
{}

/// So does the beginning of a transfer by a process that is at rest.
pub fn beginnings()
    ensures { BeginningsKeepInvariant }
{}

/// The words of a table, by their names, are words of the invariant, and a step on the table is one on them.
pub fn tables()
    ensures { TableActsByNames }
{}

/// The invariant bounds the number of the state by the ages of the processes.
pub fn tags()
    ensures { TagsAreFew }
{}

/// Whoever has loaded a whole record has loaded the state with the number that it loaded before.
pub fn loads()
    ensures { WholeRecordsAreStates }
{}
