// Players that are ready, with all memory that playing needs.
ghost use Rattle.std.specs.Prelude.{◌≡◌, IfOk, length};
ghost use Rattle.std.specs.List.{All};
ghost use Rattle.block_pool.specs.Closing.{AreInOrder};
ghost use Rattle.pass_players.specs.Prepared.{IsFresh, IsPrepared, passes_in, pool_in};
ghost use Rattle.pass_players.specs.Settled.{IsPlayable};
ghost use Rattle.pass_players.specs.Together.{MayPlayTogether};

use crate::players::{GatedPlayer, PassPlayer, gather};
use crate::{Gate, Player};
use block_pool::{Pass, Pool};
use pool_model::NoMemory;
use std::alloc::Global;
use word_layout::Shape;

/// A player for each pass of a pool, ready for its script, and the room in which they play: whoever has it needs no more memory.
#[derive(Drop)]
pub struct Prepared<P, O, G> {
    pub(crate) pool: Pool,
    pub(crate) players: Vec<PassPlayer<P>>,
    pub(crate) room: Room<P, O, G>,
}

/// Empty vectors with room for what playing moves.
#[derive(Drop)]
pub(crate) struct Room<P, O, G> {
    pub(crate) gated: Vec<GatedPlayer<P, G>>,
    pub(crate) passes: Vec<Pass>,
    pub(crate) outcomes: Vec<O>,
    pub(crate) gates: Vec<G>,
}

impl<P: Player, O: Drop, G: Gate> Room<P, O, G> {
    ghost use Rattle.pass_players.specs.Prepared.{HasRoom};

    /// Room for so many players, and for so many gates.
    fn new(alloc: Global, players: usize, gates: usize) -> Result<Room<P, O, G>, NoMemory>
        ensures { IfOk result (HasRoom players gates) }
    {
        Ok(Room {
            gated: Vec::with_capacity(alloc, players)?,
            passes: Vec::with_capacity(alloc, players)?,
            outcomes: Vec::with_capacity(alloc, players)?,
            gates: Vec::with_capacity(alloc, gates)?,
        })
    }
}

/// Makes a player for each pass of the pool, ready for the script of the same place, and the room in which they play and give back as
/// many gates as these. No gate is told of anything.
///
/// Its only error is want of memory; the pool and the passes are dropped then.
pub fn prepare<P: Player, G: Gate>(
    alloc: Global,
    pool: Pool,
    passes: Vec<Pass>,
    scripts: &[P::Script],
    gates: &[G],
) -> Result<Prepared<P, P::Outcome, G>, NoMemory>
where
    P::Outcome: Drop,
    requires passes { AreInOrder pool passes.items }
    requires may { MayPlayTogether P.suits P.most_calls pool passes.items scripts.now }
    ensures prepared { IfOk result (IsPrepared P.suits P.most_calls P.is_ready scripts.now (length gates.now)) }
    ensures pool { IfOk result (λ prepared. pool_in prepared ≡ pool) }
    ensures passes { IfOk result (λ prepared. passes_in prepared ≡ passes.items) }
{
    let players = gather::<P>(alloc, passes, scripts)?;
    let room = Room::new(alloc, scripts.len(), gates.len())?;
    Ok(Prepared {
        pool,
        players,
        room,
    })
}

/// Opens a pool of this shape, and makes ready for each script the process of its place, with the room in which they play and give back
/// as many gates as these. No gate is told of anything.
///
/// Its only error is want of memory.
pub fn prepare_pool<P: Player, G: Gate>(
    alloc: Global,
    shape: &Shape,
    scripts: &[P::Script],
    gates: &[G],
) -> Result<Prepared<P, P::Outcome, G>, NoMemory>
where
    P::Outcome: Drop,
    requires one_each { length scripts.now ≡ shape.now.processes }
    requires playable { All (IsPlayable P.suits P.most_calls shape.now) scripts.now }
    ensures prepared { IfOk result (IsPrepared P.suits P.most_calls P.is_ready scripts.now (length gates.now)) }
    ensures fresh { IfOk result (IsFresh shape.now) }
{
    let (pool, passes) = Pool::open(alloc, shape)?;
    prepare::<P, G>(alloc, pool, passes, scripts, gates)
}
