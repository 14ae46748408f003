//! What follows of the history of a run of store scripts. Each law is the contract of a call that does nothing.
ghost use Rattle.store_runs.specs.Enough.{EnoughBlocksRefuseNoPut};

/// Where there are more blocks than the processes may withhold together and than keys are present at most, no legal
/// history refuses one: the answers follow from the scripts alone, and are those of a store that refuses no put.
pub fn enough_blocks()
    ensures { EnoughBlocksRefuseNoPut }
{}
