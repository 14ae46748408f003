// Who plays a store script.
ghost use Rattle.std.specs.Prelude.{◌≡◌, IfOk, replicate};
ghost use Rattle.store_script.specs.declared.answered.Answered.TheVariants.{Absent};
ghost use Rattle.store_player.specs.Player.{HasSlots, IsServed, Suits, most_calls_of};

use crate::one::play_store;
use block_pool::{Pass, Pool};
use line_text::Listed;
use object_store::Object;
use pass_players::{Gate, Player, empty_slots};
use pool_model::NoMemory;
use std::alloc::Global;
use store_script::{Answered, Quad, StoreScript};

/// The answers to a script, in the order of its commands.
pub type AnswerList = Listed<Answered>;

/// Plays a store script: it has a slot for each key of the script, and a place for each answer. It leaves the answers.
#[derive(Drop)]
pub struct StorePlayer {
    slots: Vec<Option<Object<Quad>>>,
    answers: Vec<Answered>,
}

/// A place for each of so many answers.
fn blank_answers(alloc: Global, count: usize) -> Result<Vec<Answered>, NoMemory>
    ensures { IfOk result (λ answers. answers.items ≡ replicate count Absent) }
{
    let mut answers = Vec::with_capacity(alloc, count)?;
    for _place in 0..count {
        answers.push(Answered::Absent)?;
    }
    Ok(answers)
}

impl Player for StorePlayer {
    type Script = StoreScript;

    type Outcome = AnswerList;

    ghost suits = { Suits };

    ghost most_calls = { most_calls_of };

    ghost is_ready = { HasSlots };

    ghost outcome = { λ player. player.answers.items };

    ghost fits = { IsServed };

    fn new(alloc: Global, script: &StoreScript) -> Result<StorePlayer, NoMemory> {
        Ok(StorePlayer {
            slots: empty_slots(alloc, script.slots as usize)?,
            answers: blank_answers(alloc, script.commands.as_slice().len())?,
        })
    }

    fn play<G: Gate>(&mut self, pool: &Pool, pass: &mut Pass, script: &StoreScript, gate: &mut G) {
        play_store(
            pool,
            pass,
            script,
            self.slots.as_mut_slice(),
            self.answers.as_mut_slice(),
            gate,
        );
    }

    fn into_outcome(self) -> AnswerList {
        AnswerList::new(self.answers)
    }
}
