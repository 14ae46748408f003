//! Each block is at one place. Each law is the contract of a call that does nothing.
ghost use Rattle.chain_invariant.specs.Calls.{CallsBeginWithChains, OwnStepsKeepChains, GotBlocksAreFree, OwnStepsCanBeMade};
ghost use Rattle.chain_invariant.specs.Calls.{SameHeldKeepChains};
ghost use Rattle.chain_invariant.specs.Laws.{OpeningHasChains, BeginningsKeepChains, StepsKeepChains, NextStatesKeepChains};
ghost use Rattle.chain_invariant.specs.Laws.{SameStatesKeepChains, TransfersKeepChains, QuietStepsKeepChains, LeavingKeepsChains};
ghost use Rattle.chain_invariant.specs.Laws.{OpeningASpareKeepsChains, ComingKeepsChains, StartingKeepsChains, CurrentListsAreFree};
ghost use Rattle.chain_invariant.specs.Laws.{SparesAreFree, HeldAreApart, BlocksAreOnce, StackHasRoom, HeadsAreBlocks, HeadsAreApart};
ghost use Rattle.chain_invariant.specs.Laws.{GivesAreBlocks, DraftsHaveRoom, EndsAnswerWishes, BlocksAreCounted, KeptIsWithheld};
ghost use Rattle.chain_invariant.specs.Laws.{FewAreFree, EmptyTakesFindFew};

/// At the opening each block is at one place.
pub fn opening()
    ensures { OpeningHasChains }
{}

/// The beginning of a transfer by a process that is at rest keeps that.
pub fn beginnings()
    ensures { BeginningsKeepChains }
{}

/// So does every step of a transfer that leaves the state.
pub fn steps()
    ensures { StepsKeepChains }
{}

/// It holds of all states that pending announcements make of one, and of states that say the same.
pub fn states()
    ensures next { NextStatesKeepChains }
    ensures same { SameStatesKeepChains }
{}

/// So each step of a transfer on the words keeps that, of the present state before and after.
pub fn transfers()
    ensures { TransfersKeepChains }
{}

/// The own steps of a process keep it: those that change no list, those by which a block leaves, and those by which one comes.
pub fn own_steps()
    ensures quiet { QuietStepsKeepChains }
    ensures leaving { LeavingKeepsChains }
    ensures spare { OpeningASpareKeepsChains }
    ensures coming { ComingKeepsChains }
    ensures starting { StartingKeepsChains }
{}

/// A block that leaves a list is one of the pool that nobody held, and a held block is held by one.
pub fn free()
    ensures current { CurrentListsAreFree }
    ensures spares { SparesAreFree }
    ensures held { HeldAreApart }
{}

/// Each block of the pool is at exactly one place.
pub fn once()
    ensures { BlocksAreOnce }
{}

/// The stack has no more batches than there are, all heads are blocks, and none is at two places.
pub fn heads()
    ensures room { StackHasRoom }
    ensures blocks { HeadsAreBlocks }
    ensures apart { HeadsAreApart }
    ensures gives { GivesAreBlocks }
{}

/// A draft that is installed has room: all its places are slots, and its heads are blocks.
pub fn plans()
    ensures { DraftsHaveRoom }
{}

/// A transfer ends with a reply to its wish.
pub fn replies()
    ensures { EndsAnswerWishes }
{}

/// All blocks are kept, held or in the content; so few are free where the content is empty.
pub fn counts()
    ensures all { BlocksAreCounted }
    ensures kept { KeptIsWithheld }
    ensures few { FewAreFree }
    ensures empty { EmptyTakesFindFew }
{}

/// The calls of processes keep it as the machine of calls makes them: their beginnings and their own steps.
pub fn calls()
    ensures begun { CallsBeginWithChains }
    ensures own { OwnStepsKeepChains }
    ensures got { GotBlocksAreFree }
    ensures made { OwnStepsCanBeMade }
    ensures same { SameHeldKeepChains }
{}
