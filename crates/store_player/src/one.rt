// One store script, played by the process of one pass.
ghost use Rattle.std.specs.Prelude.{◌≡◌, ◌+◌, ◌<◌, ◌≤◌, None, length, replicate};
ghost use Rattle.store_script.specs.declared.answered.Answered.{Answered};
ghost use Rattle.store_script.specs.declared.command.Command.{Command};
ghost use Rattle.store_script.specs.declared.command.Command.TheVariants as command;
ghost use Rattle.store_script.specs.Script.{IsWellFormed};
ghost use Rattle.store_script.specs.Replies.{changed};
ghost use Rattle.word_layout.specs.Packing.{most_age};
ghost use Rattle.block_pool.specs.Passing.{IsOf};
ghost use Rattle.object_store.specs.Calls.{KeepsOthers};
ghost use Rattle.object_store.specs.Objects.{HoldsWords};
ghost use Rattle.store_player.specs.Playing.{GoesOn, GoesOnUntold, IsNext, IsStorePlayed, quad_words};

use crate::putting::put;
use crate::taking::take;
use block_pool::{Pass, Pool};
use object_store::{Object, Put, Store};
use pass_players::Gate;
use step_counter::{Quiet, Steps};
use store_script::{Answered, Command, Quad, StoreScript};

/// Plays a store script with a pass of the pool: the record of a present key stands in a block, and the slot of the key has
/// its object. The answers are those to the script, where its puts are refused that found no block. The gate is told of
/// each call of the pool that gets or frees a block, before it.
///
/// It takes no memory and waits for nobody. The slots are empty, one for each key, and the answers are as many as the
/// commands. Afterwards the filled slots are those of the present keys, each with an object of the key's four numbers,
/// which the pass knows as the first words of its block. A command that makes a call of the pool takes a step for each word that
/// it reads or writes, one of its call and at most a quantum of others; any other command takes those of its words alone.
pub fn play_store<G: Gate>(
    pool: &Pool,
    pass: &mut Pass,
    script: &StoreScript,
    slots: &mut [Option<Object<Quad>>],
    answers: &mut [Answered],
    gate: &mut G,
)
    requires pool { IsOf pool.now pass.old }
    requires words { 4 ≤ pool.now.sizes.words }
    requires well_formed { IsWellFormed script.now }
    requires empty { slots.old ≡ replicate script.now.slots None }
    requires answers { length answers.old ≡ length script.now.commands }
    requires age { pass.old.age + length script.now.commands ≤ most_age pool.now.sizes }
    ensures { IsStorePlayed script.now (G.told gate.old) (G.told gate.new) pass.old pass.new slots.new answers.new }
{
    for (place, command) in script.commands.as_slice().iter().enumerate() {
        answers[place] = play_command(pool, pass, *command, slots, gate);
    }
}

/// Plays one command.
fn play_command<G: Gate>(
    pool: &Pool,
    pass: &mut Pass,
    command: Command,
    slots: &mut [Option<Object<Quad>>],
    gate: &mut G,
) -> Answered
    requires { IsNext command pool.now pass.old slots.old }
    ensures { GoesOn command result pass.old pass.new slots.old slots.new (G.told gate.old) (G.told gate.new) }
{
    match command {
        Command::Put { key, slot, value } => play_put(pool, pass, key, slot, value, slots, gate),
        Command::Get { key, slot } => play_get(pool, pass, key, slot, slots),
        Command::Set {
            key,
            slot,
            index,
            value,
        } => play_set(pool, pass, key, slot, index, value, slots),
        Command::Del { key, slot } => play_del(pool, pass, key, slot, slots, gate),
    }
}

/// Puts numbers for a key, where it has none.
fn play_put<G: Gate>(
    pool: &Pool,
    pass: &mut Pass,
    key: u64,
    slot: u32,
    value: Quad,
    slots: &mut [Option<Object<Quad>>],
    gate: &mut G,
) -> Answered
    requires { IsNext (command.Put key slot value) pool.now pass.old slots.old }
    ensures { GoesOn (command.Put key slot value) result pass.old pass.new slots.old slots.new (G.told gate.old) (G.told gate.new) }
{
    let _ = key;
    let place = slot as usize;
    if slots[place].is_some() {
        return Answered::There;
    }
    match put(pool, pass, value, gate) {
        Put::Stored(object) => {
            slots[place] = Some(object);
            Answered::Done
        }
        Put::Full(_) => Answered::Full,
    }
}

/// Tells the numbers of a key. It makes none of the calls that a gate is told of.
fn play_get(
    pool: &Pool,
    pass: &mut Pass,
    key: u64,
    slot: u32,
    slots: &[Option<Object<Quad>>],
) -> Answered
    requires { IsNext (command.Get key slot) pool.now pass.old slots.now }
    ensures { GoesOnUntold (command.Get key slot) result pass.old pass.new slots.now slots.now }
{
    match &slots[slot as usize] {
        None => Answered::Absent,
        Some(object) => {
            let value = Store::new(pool).get(pass, object, &mut Steps::new(Quiet::new()));
            Answered::Value { key, value }
        }
    }
}

/// Changes one of the numbers of a key. It makes none of the calls that a gate is told of.
fn play_set(
    pool: &Pool,
    pass: &mut Pass,
    key: u64,
    slot: u32,
    index: u32,
    number: u64,
    slots: &mut [Option<Object<Quad>>],
) -> Answered
    requires { IsNext (command.Set key slot index number) pool.now pass.old slots.old }
    ensures { GoesOnUntold (command.Set key slot index number) result pass.old pass.new slots.old slots.new }
{
    let _ = key;
    let place = slot as usize;
    match slots[place].take() {
        None => Answered::Absent,
        Some(mut object) => {
            change(pool, pass, &mut object, index, number);
            slots[place] = Some(object);
            Answered::Done
        }
    }
}

/// Forgets a key and its numbers.
fn play_del<G: Gate>(
    pool: &Pool,
    pass: &mut Pass,
    key: u64,
    slot: u32,
    slots: &mut [Option<Object<Quad>>],
    gate: &mut G,
) -> Answered
    requires { IsNext (command.Del key slot) pool.now pass.old slots.old }
    ensures { GoesOn (command.Del key slot) result pass.old pass.new slots.old slots.new (G.told gate.old) (G.told gate.new) }
{
    let _ = key;
    match slots[slot as usize].take() {
        None => Answered::Absent,
        Some(object) => {
            let _ = take(pool, pass, object, gate);
            Answered::Done
        }
    }
}

/// Gives an object other numbers: the same but for that of an index.
fn change(pool: &Pool, pass: &mut Pass, object: &mut Object<Quad>, index: u32, number: u64)
    requires pool { IsOf pool.now pass.old }
    requires words { 4 ≤ pool.now.sizes.words }
    requires index { index < 4 }
    requires object { HoldsWords 4 (quad_words object.old.value) object.old.block pass.old }
    ensures object { object.new ≡ record object.old { value = changed object.old.value index number } }
    ensures kept { HoldsWords 4 (quad_words (changed object.old.value index number)) object.old.block pass.new }
    ensures others { KeepsOthers object.old.block pass.old pass.new }
    ensures pass { pass.new ≡ record pass.old { moves = pass.old.moves + 8; known = pass.new.known } }
{
    let store = Store::new(pool);
    let mut steps = Steps::new(Quiet::new());
    let before = store.get(pass, object, &mut steps);
    store.set(pass, object, &before.changed(index, number), &mut steps);
}
