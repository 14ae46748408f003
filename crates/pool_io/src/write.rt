// Whole texts into a sink.
ghost use Rattle.pool_io.specs.Writes.{Writes};

use crate::{Failed, Sink};

/// Writes all of the bytes, piece by piece. Fails where the sink does; some of the bytes, not all, may then
/// have been taken.
pub fn write_whole<K: Sink>(out: &mut K, bytes: &[u8]) -> Result<(), Failed>
    ensures { Writes K.Sink bytes.now out.old out.new result }
{
    let mut done = 0;
    while done < bytes.len() {
        done += out.write(&bytes[done..])?;
    }
    Ok(())
}
