//! What holds of every seat. Each law is the contract of a call that does nothing.
ghost use Rattle.pool_table.specs.Settled.{SeatsSettle};

/// Whatever a process's seat has taken in: one legal history has the entries of its own process and of all those, and
/// begins with what each of them has seen.
pub fn seats_settle()
    ensures { SeatsSettle }
{}
