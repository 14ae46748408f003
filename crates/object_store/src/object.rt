// A value in a block, and how a put is answered.
use block_pool::Block;
use std::marker::Model;
use std::snapshot::Snapshot;
use store_script::Record;

/// A value that stands in a block of a pool. It can't be copied; the block of an object that is dropped stays held for good.
///
/// Clauses see its block and its value.
#[derive(Drop)]
pub struct Object<R: Record> {
    pub(crate) block: Block,
    /// What was put or set last. It has no bytes.
    pub(crate) value: Snapshot<R>,
}

impl<R: Record> Model for Object<R> {
    ghost use Rattle.object_store.specs.Objects.{ObjectView};

    ghost Value = { ObjectView R };

    ghost view = { λ object. record { block = object.block; value = object.value.value } };
}

/// How a put is answered.
#[derive(Drop)]
pub enum Put<R: Record> {
    /// The value stands in a block that nobody held. The pass holds it now.
    Stored(Object<R>),
    /// The pass's own pool has no block. The value is given back.
    Full(R),
}
