//! What follows of the calls of a player. Each law is the contract of a call that does nothing.
ghost use Rattle.pool_player.specs.Calling.{ShortCallsMakeFew};

/// Where each call is short, as a player's are, all of them together made a step each at least, and a quantum and one each at most.
pub fn short_calls_make_few()
    ensures { ShortCallsMakeFew }
{}
