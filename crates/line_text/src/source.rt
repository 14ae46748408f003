// A source that is read to its end, or to one byte past a limit, piece by piece.
ghost use Rattle.std.specs.Prelude.{◌≡◌, ◌+◌, ◌<◌, ◌≤◌, ◌^◌, ℕ, List, [], ◌∷◌, ◌++◌, Some, None, length, min, vec_len, IfOk, IfSome};
ghost use Rattle.std.specs.Prelude.{IsOk, OnOk, OnErr};
ghost use Rattle.pool_io.specs.Counts.{HasRisen};
ghost use Rattle.pool_io.specs.Told.{HandsOut, IsAtEnd};
ghost use Rattle.line_text.specs.Leaving.{LeavesFiles};
ghost use Rattle.line_text.specs.Taken.{GivesAll, HasRoom, HasSoMany, ReadsOf};

use crate::TextFault;
use pool_io::{Failed, Files};
use pool_model::NoMemory;
use std::alloc::Global;

/// The most bytes that a text may have.
const MOST_BYTES: u64 = 1 << 24;

/// How many bytes a read asks for, where so many may still come.
const BUFFER_BYTES: usize = 1 << 16;

/// What keeps the bytes of a source, or what they say, piece by piece.
pub trait PieceKeeper {
    /// All pieces so far, one behind the other, are these bytes.
    ghost has: { Self → List ℕ → Type 0 };

    /// Keeps the next piece.
    fn keep(&mut self, piece: &[u8]) -> Result<(), NoMemory>
        requires { HasRoom (has self.old) (length piece.now) }
        ensures { OnOk result ((bytes : List ℕ) → has self.old bytes → has self.new (bytes ++ piece.now)) };
}

impl PieceKeeper for Vec<u8> {
    ghost has = { λ kept bytes. kept.items ≡ bytes };

    fn keep(&mut self, piece: &[u8]) -> Result<(), NoMemory> {
        self.extend_from_slice(piece)?;
        Ok(())
    }
}

/// The places that reads fill.
fn new_buffer(alloc: Global) -> Result<Vec<u8>, NoMemory>
    ensures { IfOk result (λ buffer. vec_len buffer ≡ BUFFER_BYTES) }
{
    Ok(vec![in alloc; 0u8; BUFFER_BYTES]?)
}

/// How many bytes the next read asks for, where so many were taken: at least one, and none past the byte after the
/// limit.
fn next_count(taken: u64, limit: u64) -> usize
    requires { taken ≤ limit }
    ensures some { 0 < result }
    ensures fits { result ≤ BUFFER_BYTES }
    ensures within { taken + result ≤ limit + 1 }
{
    (limit - taken).min(BUFFER_BYTES as u64 - 1) as usize + 1
}

/// Reads the next bytes of a source into a buffer, and answers them: none at the end alone. Fails where the source does.
fn read_piece<'a, F: Files>(
    files: &mut F,
    source: &mut F::Source,
    buffer: &'a mut [u8],
) -> Result<&'a [u8], Failed>
    requires { 0 < length buffer.old }

    ensures fits { IfOk result (λ piece. length piece.now ≤ length buffer.old) }
    ensures next { IfOk result (λ piece.
        HandsOut (F.left files.old source.old) (F.left files.new source.new) piece.now) }
    ensures end { IfOk result (λ piece. length piece.now ≡ 0 → IsAtEnd (F.left files.old source.old)) }
    ensures reads { IfOk result (λ piece. F.reads files.new ≡ F.reads files.old ++ Some (length piece.now) ∷ []) }
    ensures no_read { OnErr result (F.reads files.new ≡ F.reads files.old ++ None ∷ []) }

    ensures names { F.told files.new ≡ F.told files.old }
    ensures opens { F.opens files.new ≡ F.opens files.old }
    ensures never_falls { F.faults files.old ≤ F.faults files.new }
    ensures failed { OnErr result (HasRisen (F.faults files.old) (F.faults files.new)) }
    ensures no_fault { OnOk result (F.faults files.new ≡ F.faults files.old) }
    ensures reliable { F.reliable files.old → F.reliable files.new }
    ensures sure { F.reliable files.old → IsOk result }
{
    let count = files.read(source, buffer)?;
    Ok(&buffer[..count])
}

/// Gives a keeper the bytes that a source has left, of which there may be at most 2^24 and at most `room`, and answers how
/// many there were.
///
/// `ReadFault` comes where a read of the source failed, `TooLong` where one byte more than the limit was taken, `NoMemory`
/// where memory ran out. Opens nothing, and reads nothing past the byte after the limit, nor after a read that gave nothing
/// or failed.
pub fn read_source<F: Files, K: PieceKeeper>(
    alloc: Global,
    files: &mut F,
    mut source: F::Source,
    room: u64,
    keeper: &mut K,
) -> Result<u64, TextFault>
    requires { K.has keeper.old [] }
    ensures answer { IfSome (F.left files.old source) (λ left.
        GivesAll (min room (2 ^ 24)) left (K.has keeper.new) result) }
    ensures kept { IfOk result (HasSoMany (K.has keeper.new)) }
    ensures within { IfOk result (λ count. count ≤ min room (2 ^ 24)) }
    ensures reads { ReadsOf (min room (2 ^ 24)) (F.reads files.old) (F.reads files.new) result }
    ensures leaves { LeavesFiles F.Files files.old files.new result }
{
    let limit = room.min(MOST_BYTES);
    let mut buffer = new_buffer(alloc)?;
    let mut taken = 0;
    while taken <= limit {
        let most = next_count(taken, limit);
        let piece = read_piece(files, &mut source, &mut buffer[..most])?;
        if piece.is_empty() {
            return Ok(taken);
        }
        keeper.keep(piece)?;
        taken += piece.len() as u64;
    }
    Err(TextFault::TooLong)
}
