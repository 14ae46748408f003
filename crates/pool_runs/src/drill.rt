// The scripts of a drill.
ghost use Rattle.std.specs.Prelude.{◌≡◌, ◌≤◌, IfOk};
ghost use Rattle.std.specs.List.{All};
ghost use Rattle.pool_runs.specs.Drills.{drill_script, drill_scripts};
ghost use Rattle.pool_runs.specs.Playable.{IsPlayable};

use mtrace_reader::{MOST_CALLS, Script, make_trace, script};
use pool_model::NoMemory;
use std::alloc::Global;

/// How many bytes a block of a drill holds: a larger allocation takes no block.
const BLOCK_BYTES: u64 = 64;

/// The script of a process of a drill.
fn process_script(alloc: Global, seed: u64, calls: u32, process: u32) -> Result<Script, NoMemory>
    requires { calls ≤ MOST_CALLS }
    ensures script { IfOk result (λ script. script ≡ drill_script seed calls process) }
    ensures playable { IfOk result IsPlayable }
{
    let trace = make_trace(alloc, seed.wrapping_add(u64::from(process)), calls)?;
    let script = script(alloc, &trace, BLOCK_BYTES)?;
    Ok(script)
}

/// The scripts of a drill of so many processes. The trace of process `k` is made of the seed `seed + k`, where 0 comes
/// after the greatest seed, and has so many calls. Its only error is want of memory.
pub fn drill_scripts(
    alloc: Global,
    seed: u64,
    calls: u32,
    processes: u32,
) -> Result<Vec<Script>, NoMemory>
    requires { calls ≤ MOST_CALLS }
    ensures scripts { IfOk result (λ scripts. scripts.items ≡ drill_scripts seed calls processes) }
    ensures playable { IfOk result (λ scripts. All IsPlayable scripts.items) }
{
    let mut scripts = Vec::with_capacity(alloc, processes as usize)?;
    for process in 0..processes {
        scripts.push(process_script(alloc, seed, calls, process)?)?;
    }
    Ok(scripts)
}
