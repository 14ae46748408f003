//! A run begins what it is asked for: what a turn begins and makes, and how it is answered.
ghost use Rattle.interleaving_core.specs.TurnLaws.{CallsBeginAsAsked, CallsStay, CallsAreAnsweredAsAsked, TransfersBeginAsAsked, TurnsMakeSteps, OtherTurnsAreIgnored, TransfersAloneEnd};

/// A process between two calls begins the call that it is asked for, and goes on with that one until it is answered: an
/// allocate and a search with a block or with none, a free with its block, each by its own process; a read with a word,
/// a write with its being stored.
pub fn calls_are_as_asked()
    ensures begin { CallsBeginAsAsked }
    ensures stay { CallsStay }
    ensures answered { CallsAreAnsweredAsAsked }
{}

/// A process at rest that moves alone begins the transfer that it is asked for, and announces it.
pub fn transfers_are_as_asked()
    ensures { TransfersBeginAsAsked }
{}

/// A turn that is made makes the machine's step; any other changes nothing.
pub fn turns_make_steps()
    ensures made { TurnsMakeSteps }
    ensures ignored { OtherTurnsAreIgnored }
{}

/// A transfer alone that begins ends within 16p + 15 turns of its process, whatever the others do.
pub fn transfers_alone_end()
    ensures { TransfersAloneEnd }
{}
