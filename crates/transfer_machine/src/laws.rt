//! What holds of every view, every word and every state. Each law is the contract of a call that does
//! nothing.
ghost use Rattle.transfer_machine.specs.NextStates.{DraftsAreNextStates};
ghost use Rattle.transfer_machine.specs.Drafted.{StepsKeepDraft};

/// The draft that a view keeps, one announcement at a time, is that of the words that it loaded.
pub fn drafts()
    ensures { StepsKeepDraft }
{}

/// The draft of the loaded words is the next state: the loaded one with the transfers of the pending
/// announcements applied, in the order of the process numbers.
pub fn next_states()
    ensures { DraftsAreNextStates }
{}
