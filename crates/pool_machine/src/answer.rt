// How the own step of a call answers.
use pool_model::Entry;

/// How the own step of a call answers.
#[derive(Clone, Copy, Debug, PartialEq, Eq, Hash)]
pub enum OwnAnswer {
    /// An allocate or a free has made its entry.
    Recorded(Entry),
    /// A read has loaded this word.
    Loaded(u64),
    /// A write has stored its value.
    Stored,
}
