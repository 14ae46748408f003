// What is noted of the answers to events.
ghost use Rattle.std.specs.Prelude.{◌≡◌};
ghost use Rattle.schedule_replay.specs.Replays.{note_of};

use crate::schedule::Repeat;
use interleaving_core::Happened;

/// An answer to an event that isn't a mere step of a transfer.
#[derive(Clone, Copy, Debug, PartialEq, Eq, Hash)]
pub struct Note {
    /// The line of the event, counted from 1.
    pub line: u64,
    /// The process of the event.
    pub by: u32,
    pub what: Happened,
}

/// The note of an answer to an event of a line, if there is one.
pub(crate) fn note_of(repeat: &Repeat, what: Happened) -> Option<Note>
    ensures { result ≡ note_of repeat.now what }
{
    let (line, by) = (repeat.line, repeat.event.by);
    match what {
        Happened::Step(_) => None,
        _ => Some(Note { line, by, what }),
    }
}
