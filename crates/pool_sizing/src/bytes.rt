// What a pool takes.
ghost use Rattle.std.specs.Prelude.{◌≡◌};
ghost use Rattle.pool_sizing.specs.Bytes.{memory, opening_memory};

use word_layout::Shape;

/// How many bytes an open pool takes: 8 for each word of its table, data words included, and for each process a mark
/// a block, 64 of them a word. A few cache lines for each process are not counted.
pub fn memory(shape: &Shape) -> u64
    ensures { result ≡ memory shape.now }
{
    let marks = u64::from(shape.blocks().div_ceil(64));
    8 * (u64::from(shape.table_words()) + u64::from(shape.processes()) * marks)
}

/// How many bytes the opening of a pool takes at its peak: the table is made of a copy of its words, which is freed
/// before the marks are made.
pub fn opening_memory(shape: &Shape) -> u64
    ensures { result ≡ opening_memory shape.now }
{
    16 * u64::from(shape.table_words())
}
