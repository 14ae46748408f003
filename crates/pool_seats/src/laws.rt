//! What holds of seats that have taken in others. Each law is the contract of a call that does nothing.
ghost use Rattle.pool_seats.specs.Settling.{AllSeatsFit, EachHoldsFew};

/// Once a seat has taken in those of all other processes, the longest history that any of them has seen is the one of
/// the pool: it is legal, and it has the entries of each process and no others.
pub fn all_seats_fit()
    ensures { AllSeatsFit }
{}

/// A process holds no more than all blocks of the pool.
pub fn each_holds_few()
    ensures { EachHoldsFew }
{}
