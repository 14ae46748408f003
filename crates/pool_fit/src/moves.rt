// What a trace takes and gives, by the bytes of each allocation.
ghost use Rattle.std.specs.Prelude.{◌≡◌, ◌+◌, ◌^◌, ◌<◌, ◌≤◌, length, IfOk, OnOk};
ghost use Rattle.pool_fit.specs.Moves.{Carries, IsAt, after, after_new, after_release, moves_of, nothing_live};

use line_text::Listed;
use mtrace_reader::{Operation, Trace};
use pool_model::NoMemory;
use std::alloc::Global;
use std::collections::BTreeMap;
use std::collections::btree_map::Entry;

/// What one operation of a trace does.
#[derive(Clone, Copy, Debug, PartialEq, Eq, Hash)]
pub enum Move {
    /// An allocation of so many bytes, at an address that isn't live.
    Take { bytes: u64 },
    /// A release of a live address, whose allocation had so many bytes.
    Give { bytes: u64 },
}

/// Moves in the order of their operations. Contracts see the list.
pub type MoveList = Listed<Move>;

/// Moves that are being written, and the bytes at each live address.
#[derive(Drop)]
struct MoveWriter {
    live: BTreeMap<u64, u64>,
    moves: MoveList,
}

impl MoveWriter {
    fn new(alloc: Global) -> MoveWriter
        ensures { IsAt result nothing_live }
    {
        MoveWriter {
            live: BTreeMap::new(alloc),
            moves: MoveList::new(Vec::new(alloc)),
        }
    }

    fn follow(&mut self, operation: Operation) -> Result<(), NoMemory>
        ensures { OnOk result (Carries self.old self.new (λ walk. after walk operation)) }
    {
        match operation {
            Operation::New { address, size } => self.take(address, size),
            Operation::Release { address } => self.give(address),
            Operation::Failed => Ok(()),
        }
    }

    fn take(&mut self, address: u64, bytes: u64) -> Result<(), NoMemory>
        ensures { OnOk result (Carries self.old self.new (λ walk. after_new walk address bytes)) }
    {
        if address == 0 {
            return Ok(());
        }
        match self.live.entry(address)? {
            Entry::Occupied(_) => {}
            Entry::Vacant(entry) => {
                self.moves.push(Move::Take { bytes })?;
                entry.insert(bytes);
            }
        }
        Ok(())
    }

    fn give(&mut self, address: u64) -> Result<(), NoMemory>
        ensures { OnOk result (Carries self.old self.new (λ walk. after_release walk address)) }
    {
        match self.live.remove(&address) {
            Some(bytes) => self.moves.push(Move::Give { bytes })?,
            None => {}
        }
        Ok(())
    }
}

/// What the operations of a trace take and give, in their order: each allocation at an address that isn't live, and each
/// release of a live one. Its only error is want of memory.
pub fn trace_moves(alloc: Global, trace: &Trace) -> Result<MoveList, NoMemory>
    ensures { IfOk result (λ moves. moves ≡ moves_of trace.now.operations) }
{
    let mut writer = MoveWriter::new(alloc);
    for operation in trace.operations.as_slice() {
        writer.follow(*operation)?;
    }
    Ok(writer.moves)
}
