ghost use Rattle.std.specs.Prelude.{◌≡◌};

/// Why numbers are the sizes of no pool.
#[derive(Clone, Copy, Debug, PartialEq, Eq, Hash)]
pub enum ShapeFault {
    /// There is no process.
    NoProcess,
    /// There are more than 32 processes.
    ManyProcesses,
    /// There are fewer than two batches a process.
    FewBatches,
    /// The quantum is none of 1, 2, 4, 8 and 16.
    BadQuantum,
    /// There are more than 2^22 blocks.
    ManyBlocks,
    /// A block has more than 8 data words.
    WideBlock,
}

impl ShapeFault {
    ghost use Rattle.word_layout.specs.Faults.{number_of};

    /// The fault's number, 1 to 6.
    pub fn number(&self) -> u32
        ensures { result ≡ number_of self.now }
    {
        match self {
            ShapeFault::NoProcess => 1,
            ShapeFault::ManyProcesses => 2,
            ShapeFault::FewBatches => 3,
            ShapeFault::ManyBlocks => 4,
            ShapeFault::WideBlock => 5,
            ShapeFault::BadQuantum => 6,
        }
    }
}
