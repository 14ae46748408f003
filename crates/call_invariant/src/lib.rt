//! A process's pool and its ledger, under its calls.
//!
//! A process uses its pool by calls, or it makes transfers alone. Of calls its ledger has the plan of the pool
//! and where the process stands (`specs/InCalls.antt`); of transfers alone nothing is entered
//! (`specs/InTransfers.antt`). The module [`laws`] has that beginnings and steps of either way keep that, how
//! the ledger goes on with them, and what follows.
#![tactic(auto)]

pub mod laws;
