//! The pool for programs in C: one handle for each process of a pool, which owns a member on the heap.
//!
//! `bindings/c/loskebri.h` declares these calls. Each is total: any number may be given, and a handle may be closed.
#![tactic(auto)]

mod exports;
mod handle;
mod opening;
mod shape;
mod sizing;
mod status;
