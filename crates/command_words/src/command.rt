// What a command line can ask for.
ghost use Rattle.std.specs.Prelude.{◌≡◌, map, string_bytes, length};

use std::marker::Model;

/// A command, with all that its words say.
#[derive(Debug, Drop)]
pub enum Command {
    /// Play trace files.
    Play(Play),
    /// Make traces, and play these.
    Drill(Drill),
    /// Play store scripts.
    Store(Store),
}

/// What `play` was asked for.
#[derive(Debug, Drop)]
pub struct Play {
    /// How many batches of blocks the pool has.
    pub batches: u32,
    /// How many bytes a block holds: a larger allocation takes no block.
    pub size: u32,
    /// How many steps of a transfer a call makes at most.
    pub quantum: u32,
    /// The trace files.
    pub files: FileNames,
}

/// What `drill` was asked for.
#[derive(Clone, Copy, Debug, PartialEq, Eq, Hash)]
pub struct Drill {
    /// The number that the first trace is made from. Each further trace is made from the next number.
    pub seed: u64,
    /// How many processes there are, each with a trace of its own.
    pub processes: u32,
    /// How many operations each trace has, at most [`MOST_CALLS`].
    pub calls: u32,
    /// How many steps of a transfer a call makes at most.
    pub quantum: u32,
}

/// What `store` was asked for.
#[derive(Debug, Drop)]
pub struct Store {
    /// How many batches of blocks the pool has.
    pub batches: u32,
    /// How many steps of a transfer a call makes at most.
    pub quantum: u32,
    /// The store scripts.
    pub files: FileNames,
}

/// How many operations a trace of `drill` has at most.
pub const MOST_CALLS: u32 = 131072;

/// The names of files, in the order of the words. Contracts see a list of texts.
#[derive(Debug, Drop)]
pub struct FileNames {
    names: Vec<String>,
}

impl Model for FileNames {
    ghost use Rattle.std.specs.Prelude.{ℕ, List, map, string_bytes};

    ghost Value = { List (List ℕ) };

    ghost view = { λ files. map string_bytes files.names.items };
}

impl FileNames {
    /// The names of a vector. Takes no memory.
    pub fn new(names: Vec<String>) -> FileNames
        ensures { result ≡ map string_bytes names.items }
    {
        FileNames { names }
    }

    /// How many files there are.
    pub fn len(&self) -> usize
        ensures { result ≡ length self.now }
    {
        self.names.len()
    }

    /// The names as a slice.
    pub fn as_slice(&self) -> &[String]
        ensures { map string_bytes result.now ≡ self.now }
    {
        self.names.as_slice()
    }

    /// Gives the vector back. Takes no memory.
    pub fn into_vec(self) -> Vec<String>
        ensures { map string_bytes result.items ≡ self }
    {
        self.names
    }
}
