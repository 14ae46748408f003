// The events of a schedule, made one after the other.
ghost use Rattle.std.specs.Prelude.{◌≡◌, ◌∷◌, [], replicate, IfOk, OnOk};
ghost use Rattle.schedule_replay.specs.Reading.{events_in};
ghost use Rattle.schedule_replay.specs.Replays.{HasTurns, Makes, each_event};

use crate::notes::{Note, note_of};
use crate::schedule::Repeat;
use interleaving_core::CoreRun;
use pool_model::NoMemory;
use std::alloc::Global;

/// Makes the event of a line once, and notes the answer.
fn make_once(run: &mut CoreRun, notes: &mut Vec<Note>, repeat: &Repeat) -> Result<(), NoMemory>
    requires { HasTurns 1 run.old }
    ensures { OnOk result (Makes (repeat.now ∷ []) run.old run.new notes.old.items notes.new.items) }
{
    let happened = run.event(&repeat.event);
    if let Some(note) = note_of(repeat, happened) {
        notes.push(note)?;
    }
    Ok(())
}

/// Makes the event of a line as often as it says, and notes the answers.
fn make_line(run: &mut CoreRun, notes: &mut Vec<Note>, repeat: &Repeat) -> Result<(), NoMemory>
    requires { HasTurns repeat.now.count run.old }
    ensures { OnOk result (Makes (replicate repeat.now.count repeat.now) run.old run.new notes.old.items notes.new.items) }
{
    for _made in 0..repeat.count {
        make_once(run, notes, repeat)?;
    }
    Ok(())
}

/// Makes the events of lines, and answers the notes.
pub(crate) fn make_lines(
    alloc: Global,
    run: &mut CoreRun,
    lines: &[Repeat],
) -> Result<Vec<Note>, NoMemory>
    requires { HasTurns (events_in lines.now) run.old }
    ensures { IfOk result (λ notes. Makes (each_event lines.now) run.old run.new [] notes.items) }
{
    let mut notes = Vec::new(alloc);
    for repeat in lines {
        make_line(run, &mut notes, repeat)?;
    }
    Ok(notes)
}
