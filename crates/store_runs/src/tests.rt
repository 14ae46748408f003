// Scripts that are played side by side, beside each of them alone.
ghost use Rattle.std.specs.Prelude.{◌≡◌, ◌≤◌, IfOk, length};
ghost use Rattle.std.specs.List.{All};
ghost use Rattle.store_runs.specs.Playable.{IsPlayable};

use crate::{PlayedStores, play_stores, prepare_stores};
use pass_players::OpenGate;
use pool_io::{Files, MemoryFiles};
use std::alloc::Global;
use std::process::Abort;
use std::test::Fail;
use std::thread::Threads;
use store_player::AnswerList;
use store_script::{Answered, StoreScript, answers, read_script};
use word_layout::Shape;

/// Two scripts of the same keys. At most two and three keys are present at once.
static TEXTS: [&[u8]; 2] = [
    b"put 1 1 2 3 4\nput 2 5 6 7 8\ndel 1\nput 1 0 0 0 0\nget 1\nget 2\nput 2 9 9 9 9\ndel 2\nget 2\n",
    b"put 1 9 9 9 9\nput 2 0 0 0 0\nput 3 0 0 0 1\nset 1 0 7\nget 1\ndel 3\nset 3 0 7\nput 3 4 3 2 1\nget 3\n",
];

/// The script that a text is.
fn script_of(alloc: Global, text: &[u8]) -> Result<StoreScript, Fail>
    ensures { IfOk result IsPlayable }
{
    let file = (String::from_str(alloc, "f")?, Vec::from_slice(alloc, text)?);
    let mut files = MemoryFiles::new(vec![in alloc; file]?, vec![in alloc; u64::MAX]?, usize::MAX);
    let source = files.open("f")?;
    let script = read_script(alloc, &mut files, source, 1 << 24)?;
    Ok(script)
}

/// Plays scripts over a pool of their own, with gates that hold nobody back.
fn play_on_pool<R: Threads + Sync>(
    rt: &R,
    alloc: Global,
    shape: &Shape,
    scripts: &[StoreScript],
) -> Result<PlayedStores<OpenGate>, Fail>
    requires words { 4 ≤ shape.now.words }
    requires one_each { length scripts.now ≡ shape.now.processes }
    requires playable { All IsPlayable scripts.now }
{
    let mut gates = Vec::with_capacity(alloc, scripts.len())?;
    for _script in scripts {
        gates.push(OpenGate::new())?;
    }
    let prepared = prepare_stores(alloc, shape, scripts, gates.as_slice())?;
    Ok(play_stores(rt, prepared, scripts, gates))
}

/// Compares the answers to some scripts with these.
fn compare(rt: &impl Abort, lists: &[AnswerList], expected: &[Vec<Answered>]) {
    assert_eq!(rt; lists.len(), expected.len());
    for (played, expected) in lists.iter().zip(expected.iter()) {
        assert_eq!(rt; played.as_slice(), expected.as_slice());
    }
}

#[test]
fn enough_blocks_give_the_answers_of_each_script_alone(rt: HostRuntime) -> Result<(), Fail> {
    let alloc = rt.alloc();
    let scripts = [script_of(alloc, TEXTS[0])?, script_of(alloc, TEXTS[1])?];
    let alone = [
        answers(alloc, &scripts[0], &[])?,
        answers(alloc, &scripts[1], &[])?,
    ];
    // The slack is that of ten batches; the eleventh has more blocks than keys are present in both together.
    let shape = Shape::new(2, 11, 4)?;
    let played = play_on_pool(&rt, alloc, &shape, &scripts)?;
    compare(&rt, &played.outcomes, &alone);
    assert_eq!(rt; played.gates.len(), scripts.len());
    Ok(())
}
