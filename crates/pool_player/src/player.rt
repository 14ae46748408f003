// Who plays the script of a trace.
ghost use Rattle.pool_player.specs.Player.{HasSlots, IsTraced, Suits, most_calls_of};

use crate::one::play_one;
use block_pool::{Block, Pass, Pool};
use mtrace_reader::Script;
use pass_players::{Gate, Player, empty_slots};
use pool_model::NoMemory;
use std::alloc::Global;
use trace_player::Tally;

/// Plays the script of a trace: it has a slot for each block that the script gets, and leaves the tally of what it played.
#[derive(Drop)]
pub struct TracePlayer {
    slots: Vec<Option<Block>>,
    tally: Tally,
}

impl Player for TracePlayer {
    type Script = Script;

    type Outcome = Tally;

    ghost suits = { Suits };

    ghost most_calls = { most_calls_of };

    ghost is_ready = { HasSlots };

    ghost outcome = { λ player. player.tally };

    ghost fits = { IsTraced };

    fn new(alloc: Global, script: &Script) -> Result<TracePlayer, NoMemory> {
        Ok(TracePlayer {
            slots: empty_slots(alloc, script.news as usize)?,
            tally: Tally::default(),
        })
    }

    fn play<G: Gate>(&mut self, pool: &Pool, pass: &mut Pass, script: &Script, gate: &mut G) {
        self.tally = play_one(pool, pass, script, self.slots.as_mut_slice(), gate);
    }

    fn into_outcome(self) -> Tally {
        self.tally
    }
}
