//! What holds of pools with enough batches. The law is the contract of a call that does nothing.
ghost use Rattle.pool_sizing.specs.Enough.{EnoughAreNotRefused};

/// A pool with more blocks than its processes may withhold and hold together refuses nobody.
pub fn enough()
    ensures { EnoughAreNotRefused }
{}
