//! What follows of a run's history. Each law is the contract of a call that does nothing.
ghost use Rattle.pool_runs.specs.Enough.{EnoughBlocksRefuseNothing};

/// Where there are more blocks than the processes may withhold together and than the scripts hold at most, no legal
/// history refuses one: the tallies follow from the scripts alone, and are those of the scripts over a plain pool.
pub fn enough_blocks()
    ensures { EnoughBlocksRefuseNothing }
{}
