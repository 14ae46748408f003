// Players with their passes and their gates, in threads.
ghost use Rattle.std.specs.Prelude.{◌≡◌, ◌+◌, ◌<◌, ◌≤◌, ◌++◌, [], IfOk, length, map, vec_capacity};
ghost use Rattle.std.specs.Vec.Iter.{into_iter_items};
ghost use Rattle.pass_players.specs.Gathered.{AreGathered, CanPlay, CanPlayAt, HasPlayedAt, HavePlayed};

use crate::{Gate, Player};
use block_pool::{Pass, Pool};
use pool_model::NoMemory;
use std::alloc::Global;
use std::thread;
use std::thread::Threads;
use std::vec::IntoIter;

/// A player with the pass that it plays with.
#[derive(Drop)]
pub(crate) struct PassPlayer<P> {
    pub(crate) pass: Pass,
    pub(crate) player: P,
}

/// A player with its pass, and with the gate that it tells.
#[derive(Drop)]
pub(crate) struct GatedPlayer<P, G> {
    pub(crate) one: PassPlayer<P>,
    pub(crate) gate: G,
}

impl<P: Player, G: Gate> GatedPlayer<P, G> {
    /// Plays the script of a place with the pass.
    fn play(&mut self, pool: &Pool, scripts: &[P::Script], place: usize)
        requires place { place < length scripts.now }
        requires can { CanPlayAt P.suits P.most_calls P.is_ready pool.now scripts.now place self.old.one }
        ensures { HasPlayedAt P.fits P.outcome G.told scripts.now place self.old self.new }
    {
        let one = &mut self.one;
        one.player
            .play(pool, &mut one.pass, &scripts[place], &mut self.gate);
    }
}

/// A player for each pass, which is ready for the script of the same place. All memory of the players is taken here.
pub(crate) fn gather<P: Player>(
    alloc: Global,
    passes: Vec<Pass>,
    scripts: &[P::Script],
) -> Result<Vec<PassPlayer<P>>, NoMemory>
    requires { length passes.items ≡ length scripts.now }
    ensures { IfOk result (λ players. AreGathered P.is_ready passes.items scripts.now players.items) }
{
    let mut players = Vec::with_capacity(alloc, scripts.len())?;
    for pass in passes {
        let player = P::new(alloc, &scripts[players.len()])?;
        players.push(PassPlayer { pass, player })?;
    }
    Ok(players)
}

/// Each player plays the script of its place, in a thread of its own where one can be had.
pub(crate) fn play_each<R: Threads + Sync, P: Player + Send, G: Gate + Send>(
    rt: &R,
    pool: &Pool,
    players: &mut [GatedPlayer<P, G>],
    scripts: &[P::Script],
)
where
    P::Script: Sync,
    requires many { length players.old ≡ length scripts.now }
    requires can { CanPlay P.suits P.most_calls P.is_ready pool.now scripts.now players.old }
    ensures { HavePlayed P.fits P.outcome G.told scripts.now players.old players.new }
{
    let threads = players.len().max(1);
    let play = |place: usize, one: &mut GatedPlayer<P, G>| one.play(pool, scripts, place);
    thread::for_each_mut(rt, players, threads, &play);
}

/// Gives each player a gate, the first of those that are left. There is room for all of them.
pub(crate) fn seat<P: Player, G: Gate>(
    players: Vec<PassPlayer<P>>,
    gates: &mut IntoIter<G>,
    gated: &mut Vec<GatedPlayer<P, G>>,
)
    requires empty { gated.old.items ≡ [] }
    requires room { length players.items ≤ vec_capacity gated.old }
    requires enough { length players.items ≤ length (into_iter_items gates.old) }
    ensures players { map (λ gated. gated.one) gated.new.items ≡ players.items }
    ensures gates { map (λ gated. gated.gate) gated.new.items ++ into_iter_items gates.new ≡ into_iter_items gates.old }
{
    for one in players {
        let gate = gates.next().unwrap();
        gated.push(GatedPlayer { one, gate }).unwrap();
    }
}

/// Puts the passes, the outcomes and the gates of players into three empty vectors that have room for them.
pub(crate) fn part<P: Player, G: Gate>(
    players: Vec<GatedPlayer<P, G>>,
    passes: &mut Vec<Pass>,
    outcomes: &mut Vec<P::Outcome>,
    gates: &mut Vec<G>,
)
where
    P::Outcome: Drop,
    requires passes_empty { passes.old.items ≡ [] }
    requires outcomes_empty { outcomes.old.items ≡ [] }
    requires gates_empty { gates.old.items ≡ [] }
    requires passes_room { length players.items ≤ vec_capacity passes.old }
    requires outcomes_room { length players.items ≤ vec_capacity outcomes.old }
    requires gates_room { length players.items ≤ vec_capacity gates.old }
    ensures passes { passes.new.items ≡ map (λ gated. gated.one.pass) players.items }
    ensures outcomes { outcomes.new.items ≡ map (λ gated. P.outcome gated.one.player) players.items }
    ensures gates { gates.new.items ≡ map (λ gated. gated.gate) players.items }
    ensures room { vec_capacity gates.old ≤ vec_capacity gates.new }
{
    for GatedPlayer { one, gate } in players {
        passes.push(one.pass).unwrap();
        outcomes.push(one.player.into_outcome()).unwrap();
        gates.push(gate).unwrap();
    }
}

/// Puts the gates that no player has behind the others, for which there is room.
pub(crate) fn put_back<G: Gate>(rest: IntoIter<G>, gates: &mut Vec<G>)
    requires { length gates.old.items + length (into_iter_items rest) ≤ vec_capacity gates.old }
    ensures { gates.new.items ≡ gates.old.items ++ into_iter_items rest }
{
    for gate in rest {
        gates.push(gate).unwrap();
    }
}
