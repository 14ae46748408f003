//! The opening meets the parts of helping and each step keeps them. Each law is the contract of a call that
//! does nothing.
ghost use Rattle.helping_invariant.specs.Laws.{OpeningMeetsHelping, StepsKeepHelping, BeginningsKeepHelping};
ghost use Rattle.helping_invariant.specs.Laws.{InstallsPresent, TransfersAreAnswered, TwoTriesApply, AllButOneApplied};

/// The words and views of the opening meet the parts of helping.
pub fn opening()
    ensures { OpeningMeetsHelping }
{}

/// Every step of every process keeps the parts of helping, where what it writes fits, its draft replies to
/// what it heard, and the wish that it announces fits.
pub fn steps()
    ensures { StepsKeepHelping }
{}

/// So does the beginning of a transfer by a process that is at rest.
pub fn beginnings()
    ensures { BeginningsKeepHelping }
{}

/// A process that installs a state applies only announcements that are present and pending.
pub fn installs()
    ensures { InstallsPresent }
{}

/// The reply that a transfer loads in the end is that of the present state, which has applied it.
pub fn replies()
    ensures { TransfersAreAnswered }
{}

/// After its two tries a transfer is applied, whoever did it.
pub fn tries()
    ensures { TwoTriesApply }
{}

/// All transfers of a process up to its age are applied, but the last one may still pend.
pub fn counts()
    ensures { AllButOneApplied }
{}
