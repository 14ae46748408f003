// Scripts that are played side by side, over a pool that is then closed.
ghost use Rattle.std.specs.Prelude.{◌≡◌, ◌≤◌, length, map};
ghost use Rattle.word_layout.specs.Sizes.{Sizes};
ghost use Rattle.pass_players.specs.Prepared.{IsFresh, IsPrepared, passes_in, pool_in};
ghost use Rattle.pass_players.specs.Settled.{IsSettledBy, PlayedAll};

use crate::players::{part, play_each, put_back, seat};
use crate::preparing::Room;
use crate::{Gate, Player, Prepared};
use block_pool::Settled;
use std::thread::Threads;

/// What a pool leaves whose processes played a script each.
#[derive(Drop)]
pub struct Played<O, G> {
    /// The outcome of each script.
    pub outcomes: Vec<O>,
    /// The pool as it was closed.
    pub settled: Settled,
    /// The gates, in their order.
    pub gates: Vec<G>,
}

/// Plays each script by the process of its place, in a thread of its own where one can be had, and closes the pool. It takes no memory
/// and can't fail.
///
/// The one history that closing gives has, of process `k`, what its pass had entered before, and then calls that fit script `k` and
/// its outcome. Process `k` tells gate `k` of each call before it; further gates are told of nothing.
pub fn play<R: Threads + Sync, P: Player + Send, G: Gate + Send>(
    rt: &R,
    prepared: Prepared<P, P::Outcome, G>,
    scripts: &[P::Script],
    gates: Vec<G>,
) -> Played<P::Outcome, G>
where
    P::Script: Sync,
    P::Outcome: Drop,
    requires prepared { IsPrepared P.suits P.most_calls P.is_ready scripts.now (length gates.items) prepared }
    requires gates { length scripts.now ≤ length gates.items }
    ensures played { PlayedAll P.fits (map G.told gates.items) (map G.told result.gates.items) (pool_in prepared) (passes_in prepared)
        scripts.now result.outcomes.items result.settled }
    ensures settled { (sizes : Sizes) → IsFresh sizes prepared
        → IsSettledBy P.fits (map G.told gates.items) (map G.told result.gates.items) sizes scripts.now result.outcomes.items
        result.settled }
{
    let Prepared {
        pool,
        players,
        room,
    } = prepared;
    let Room {
        mut gated,
        mut passes,
        mut outcomes,
        gates: mut played,
    } = room;
    let mut rest = gates.into_iter();
    seat(players, &mut rest, &mut gated);
    play_each(rt, &pool, gated.as_mut_slice(), scripts);
    part(gated, &mut passes, &mut outcomes, &mut played);
    put_back(rest, &mut played);
    Played {
        outcomes,
        settled: pool.finish(passes),
        gates: played,
    }
}
