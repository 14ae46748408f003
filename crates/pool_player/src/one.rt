// One script, played by the process of one pass.
ghost use Rattle.std.specs.Prelude.{◌≡◌, ◌+◌, ◌≤◌, ◌∷◌, ◌++◌, [], None, List, length, replicate};
ghost use Rattle.word_layout.specs.Packing.{most_age};
ghost use Rattle.mtrace_reader.specs.declared.steps.Step.{Step};
ghost use Rattle.mtrace_reader.specs.declared.steps.Script.{Script};
ghost use Rattle.mtrace_reader.specs.Script.{IsWellFormed};
ghost use Rattle.trace_player.specs.Playing.{MayCome};
ghost use Rattle.block_pool.specs.Passing.{IsOf, Passed};
ghost use Rattle.pass_players.specs.Moments.{Moment};
ghost use Rattle.pool_player.specs.Playing.{IsNext, IsPlayedBy, PlaysSoFar};

use crate::allocating::allocate;
use crate::freeing::free;
use block_pool::{Answer, Block, Pass, Pool};
use mtrace_reader::{Script, Step};
use pass_players::Gate;
use trace_player::Tally;

/// Plays a script with a pass of the pool: a Place is an allocate, and a Leave a free of the slot's block, where the
/// slot wasn't refused one. Answers the tally of what it was answered. The gate is told of each call before it.
///
/// It takes no memory and waits for nobody. The slots are empty, one for each of the script; afterwards those that are
/// filled have the blocks that are left: what the pass then holds besides what it held before.
pub fn play_one<G: Gate>(
    pool: &Pool,
    pass: &mut Pass,
    script: &Script,
    slots: &mut [Option<Block>],
    gate: &mut G,
) -> Tally
    requires pool { IsOf pool.now pass.old }
    requires well_formed { IsWellFormed script.now }
    requires empty { slots.old ≡ replicate script.now.news None }
    requires age { pass.old.age + length script.now.steps ≤ most_age pool.now.sizes }
    ensures { IsPlayedBy script.now (G.told gate.old) (G.told gate.new) pass.old pass.new slots.new result }
{
    let mut tally = Tally::begin(script);
    for step in script.steps.as_slice() {
        play_step(pool, pass, *step, slots, &mut tally, gate);
    }
    tally
}

/// Plays one step.
fn play_step<G: Gate>(
    pool: &Pool,
    pass: &mut Pass,
    step: Step,
    slots: &mut [Option<Block>],
    tally: &mut Tally,
    gate: &mut G,
)
    requires { IsNext step pool.now pass.old (G.told gate.old) slots.old tally.old }
    ensures { (script : Script) (done : List Step) (first : List Moment) (start : Passed)
        → MayCome done step
        → PlaysSoFar script done first (G.told gate.old) start pass.old slots.old tally.old
        → PlaysSoFar script (done ++ step ∷ []) first (G.told gate.new) start pass.new slots.new tally.new }
{
    match step {
        Step::Place { slot } => match allocate(pool, pass, gate) {
            Answer::Got(block) => {
                slots[slot as usize] = Some(block);
                tally.count_given();
            }
            Answer::Dry => tally.count_refused(),
        },
        Step::Leave { slot } => {
            if let Some(block) = slots[slot as usize].take() {
                free(pool, pass, block, gate);
                tally.count_freed();
            }
        }
    }
}
