// Scripts over a pool for one thread.
ghost use Rattle.std.specs.Prelude.{◌≡◌, ℕ, ◌^◌, ◌<◌, ◌≤◌, ◌∷◌, ◌++◌, [], None, List, length, replicate, All, IfOk};
ghost use Rattle.pool_model.specs.Plain.{Plain};
ghost use Rattle.mtrace_reader.specs.declared.steps.Step.{Step};
ghost use Rattle.mtrace_reader.specs.declared.steps.Script.{Script};
ghost use Rattle.mtrace_reader.specs.Script.{IsWellFormed};
ghost use Rattle.trace_player.specs.Playing.{IsNext, IsPlayed, IsPlayedWhole, MayCome};
ghost use Rattle.trace_player.specs.Plain.{PlayedInTurn, peaks_without_refusals, tallies_without_refusals};

use crate::tally::Tally;
use mtrace_reader::{Script, Step};
use pool_model::{NoMemory, PlainPool};
use std::alloc::Global;

/// Plays the scripts on one thread over one plain pool of so many blocks, one after the other: script `k`
/// by process `k`. Answers their tallies in the same order. Where the blocks are at least the sum of the
/// scripts' peaks, nothing is refused, and the tallies follow from the scripts alone.
///
/// Its only error is want of memory, which comes before the first call of the pool. Besides the pool it
/// takes slots for the script with the most of them, which serve each script in turn.
pub fn play_plain(alloc: Global, blocks: u32, scripts: &[Script]) -> Result<Vec<Tally>, NoMemory>
    requires few { length scripts.now < 2 ^ 32 }
    requires well_formed { All IsWellFormed scripts.now }
    ensures in_turn { IfOk result (λ tallies. PlayedInTurn blocks scripts.now tallies.items) }
    ensures enough { IfOk result
        (λ tallies. peaks_without_refusals scripts.now ≤ blocks → tallies.items ≡ tallies_without_refusals scripts.now) }
{
    let mut pool = PlainPool::open(alloc, blocks)?;
    let mut tallies = Vec::with_capacity(alloc, scripts.len())?;
    let mut slots = vec![in alloc; None; most_slots(scripts)]?;
    for (process, script) in scripts.iter().enumerate() {
        let slots = &mut slots[..script.news as usize];
        empty(slots);
        let tally = play_script(&mut pool, process as u32, script, slots);
        tallies.push(tally).unwrap();
    }
    Ok(tallies)
}

// The most slots that one of the scripts has.
fn most_slots(scripts: &[Script]) -> usize
    ensures { All (λ script. script.news ≤ result) scripts.now }
{
    let mut most = 0;
    for script in scripts {
        most = most.max(script.news as usize);
    }
    most
}

// Empties the slots.
fn empty(slots: &mut [Option<u32>])
    ensures { slots.new ≡ replicate (length slots.old) None }
{
    for slot in slots.iter_mut() {
        *slot = None;
    }
}

// Plays a script by process `by`. The slots are empty, one for each of the script.
fn play_script(pool: &mut PlainPool, by: u32, script: &Script, slots: &mut [Option<u32>]) -> Tally
    requires well_formed { IsWellFormed script.now }
    requires empty { slots.old ≡ replicate script.now.news None }
    ensures { IsPlayedWhole by script.now pool.old pool.new result }
{
    let mut tally = Tally::begin(script);
    for step in script.steps.as_slice() {
        play_step(pool, by, *step, slots, &mut tally);
    }
    tally
}

// Plays one step: a Place is an allocate, and a Leave is a free of the slot's block, if it has one.
fn play_step(
    pool: &mut PlainPool,
    by: u32,
    step: Step,
    slots: &mut [Option<u32>],
    tally: &mut Tally,
)
    requires { IsNext by step pool.old slots.old tally.old }
    ensures { (script : Script) (done : List Step) (old : Plain)
        → MayCome done step
        → IsPlayed by script done old pool.old slots.old tally.old
        → IsPlayed by script (done ++ step ∷ []) old pool.new slots.new tally.new }
{
    match step {
        Step::Place { slot } => match pool.get(by) {
            Some(block) => {
                slots[slot as usize] = Some(block);
                tally.count_given();
            }
            None => tally.count_refused(),
        },
        Step::Leave { slot } => {
            if let Some(block) = slots[slot as usize].take() {
                pool.back(by, block);
                tally.count_freed();
            }
        }
    }
}

#[cfg(test)]
mod tests {
    use super::play_plain;
    use crate::tally::Tally;
    use mtrace_reader::{Operation, OperationList, Script, Trace, script};
    use std::alloc::Global;
    use std::process::Abort;
    use std::test::Fail;

    #[derive(Drop)]
    struct Case<'a> {
        name: &'a str,
        operations: &'a [Operation],
        blocks: u32,
        tally: Tally,
    }

    fn new(address: u64) -> Operation {
        Operation::New { address, size: 8 }
    }

    fn release(address: u64) -> Operation {
        Operation::Release { address }
    }

    // In the order of a report's line.
    fn tally(numbers: [u64; 10]) -> Tally {
        Tally {
            news: numbers[0],
            frees: numbers[1],
            big: numbers[2],
            failed: numbers[3],
            stray: numbers[4],
            twice: numbers[5],
            refused: numbers[6],
            peak: numbers[7],
            left: numbers[8],
            cut: numbers[9],
        }
    }

    fn scripted(rt: &impl Abort, alloc: Global, operations: &[Operation]) -> Result<Script, Fail>
        ensures { IfOk result IsWellFormed }
    {
        assert!(rt; operations.len() < 100);
        let trace = Trace {
            operations: OperationList::new(Vec::from_slice(alloc, operations)?),
            cut: false,
            bytes: 0,
        };
        Ok(script(alloc, &trace, 64)?)
    }

    #[test]
    fn tallies_of_one_file(rt: HostRuntime) -> Result<(), Fail> {
        let cases = [
            Case {
                name: "first report",
                operations: &[new(0x4052a0), release(0x4052a0)],
                blocks: 4096,
                tally: tally([1, 1, 0, 0, 0, 0, 0, 1, 0, 0]),
            },
            Case {
                name: "empty file",
                operations: &[],
                blocks: 4096,
                tally: tally([0; 10]),
            },
            Case {
                name: "resize",
                operations: &[new(0x10), release(0x10), new(0x20)],
                blocks: 4096,
                tally: tally([2, 1, 0, 0, 0, 0, 0, 1, 1, 0]),
            },
            Case {
                name: "refused and released",
                operations: &[
                    new(0x10),
                    new(0x20),
                    new(0x30),
                    new(0x40),
                    new(0x50),
                    new(0x60),
                    new(0x70),
                    new(0x80),
                    new(0x90),
                    release(0x90),
                    release(0x10),
                    new(0xa0),
                ],
                blocks: 8,
                tally: tally([10, 1, 0, 0, 0, 0, 1, 8, 8, 0]),
            },
        ];
        for case in &cases {
            let scripts = [scripted(&rt, rt.alloc(), case.operations)?];
            let tallies = play_plain(rt.alloc(), case.blocks, &scripts)?;
            assert_eq!(rt;
                tallies.as_slice(),
                [case.tally].as_slice(),
                "{}",
                case.name
            );
        }
        Ok(())
    }

    // The same resize by two files: each holds one block at most, and keeps one.
    #[test]
    fn tallies_of_two_files(rt: HostRuntime) -> Result<(), Fail> {
        let resize = [new(0x10), release(0x10), new(0x20)];
        let scripts = [
            scripted(&rt, rt.alloc(), &resize)?,
            scripted(&rt, rt.alloc(), &resize)?,
        ];
        let served = tally([2, 1, 0, 0, 0, 0, 0, 1, 1, 0]);
        let refused = tally([2, 0, 0, 0, 0, 0, 2, 0, 0, 0]);
        let cases = [
            (4096, [served, served]),
            (2, [served, served]),
            (1, [served, refused]),
            (0, [refused, refused]),
        ];
        for (blocks, tallies) in &cases {
            assert_eq!(rt;
                play_plain(rt.alloc(), *blocks, &scripts)?.as_slice(),
                tallies.as_slice(),
                "{blocks} blocks"
            );
        }
        Ok(())
    }
}
