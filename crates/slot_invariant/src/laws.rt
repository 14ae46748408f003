//! What holds of the slots at the opening and after each step. Each law is the contract of a call that does
//! nothing.
ghost use Rattle.slot_invariant.specs.Laws.{OpeningMeetsSlots, StepsKeepSlots, BeginningsKeepSlots};
ghost use Rattle.slot_invariant.specs.Laws.{PoppedSlotsHoldContent, CoveredSlotsAreFew};

/// The words and views of the opening meet the part on slots, with the opening state.
pub fn opening()
    ensures { OpeningMeetsSlots }
{}

/// Every step of every process, from words and views that meet the invariant and the part on slots, leads to
/// such words and views, where the draft of a state that it installs lies on the loaded content.
pub fn steps()
    ensures { StepsKeepSlots }
{}

/// So does the beginning of a transfer by a process that is at rest.
pub fn beginnings()
    ensures { BeginningsKeepSlots }
{}

/// While the loaded state is the present one, the slot of a taken batch holds its content.
pub fn popped_slots()
    ensures { PoppedSlotsHoldContent }
{}

/// A view loads and exchanges only slots that the loaded overlay covers.
pub fn covered_slots()
    ensures { CoveredSlotsAreFew }
{}
