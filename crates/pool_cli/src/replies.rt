// The replies to the scripts of all files on an output sink.
ghost use Rattle.pool_io.specs.Writes.{Writes};
ghost use Rattle.pool_cli.specs.Replies.{replies_from};

use pool_io::{Failed, Sink};
use store_player::AnswerList;
use store_script::write_replies;

/// Writes the replies to the scripts of all files, file after file. Fails where the sink does; some of the text, not all,
/// may then have been taken. Takes no memory.
pub(crate) fn write_all_replies<K: Sink>(out: &mut K, lists: &[AnswerList]) -> Result<(), Failed>
    ensures { Writes K.Sink (replies_from 1 lists.now) out.old out.new result }
{
    for (index, list) in lists.iter().enumerate() {
        write_replies(out, index + 1, list.as_slice())?;
    }
    Ok(())
}
