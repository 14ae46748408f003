// Transfers outside any call, step by step: what their tests share.
ghost use Rattle.std.specs.Prelude.{◌≡◌, ℕ, ◌+◌, ◌*◌, ◌<◌, ◌≤◌, [], ◌∷◌, length, IfOk, IsTrue, ◌↔◌};
ghost use Rattle.word_layout.specs.Sizes.{blocks};
ghost use Rattle.word_layout.specs.Names.{table_words};
ghost use Rattle.word_layout.specs.Packing.{most_age};
ghost use Rattle.word_table.specs.Seats.{SameSeat};
ghost use Rattle.transfer_machine.specs.Machine.{CanAct};
ghost use Rattle.pool_table.specs.declared.about.About.TheVariants.{Alone};
ghost use Rattle.pool_table.specs.Views.{seat_of_process};
ghost use Rattle.pool_table.specs.Steps.{Among};
ghost use Rattle.batch_stack.specs.declared.progress.Progress.TheVariants.{Gave, Going};
ghost use Rattle.batch_stack.specs.Alone.{Goes, IsAt, OnlyMoved, Played, Rests, spares_in, spares_about};
ghost use Rattle.batch_stack.specs.Running.{IsInTry};

use super::Transfer;
use crate::progress::Progress;
use pool_model::NoMemory;
use pool_table::{PoolSeat, PoolTable, next_seat, open_table};
use std::alloc::Global;
use std::process::Abort;
use step_counter::{Kept, Steps};
use transfer_machine::{Action, NextStep, TryStep};
use word_layout::Shape;

mod announcements;
mod gives;
mod making;
mod records;
mod stale;
mod takes;
mod threads;
mod writing;

/// A process that makes transfers outside any call: its seat, and these.
#[derive(Drop)]
struct Player {
    seat: PoolSeat,
    transfer: Transfer,
}

/// A step that was made.
#[derive(Drop)]
struct Made {
    word: u64,
    progress: Progress,
}

/// A process at the opening, over its seat. It is at rest, with one spare.
#[tactic(auto, using(crate::proofs::Alone::opening_rests, crate::proofs::Alone::opening_spares))]
fn open(
    alloc: Global,
    shape: &Shape,
    process: u32,
    seat: PoolSeat,
    seats: u32,
) -> Result<Player, NoMemory>
    requires process { process < shape.now.processes }
    requires opening { seat.view ≡ seat_of_process shape.now process seats }
    requires among { Among seat.view }
    ensures seat { IfOk result (λ player. player.seat ≡ seat) }
    ensures sizes { IfOk result (λ player. player.transfer.sizes ≡ shape.now) }
    ensures rests { IfOk result (λ player. Rests player.seat player.transfer) }
    ensures spare { IfOk result (λ player. spares_in player.seat.view ≡ (2 * process + 1) * shape.now.length ∷ []) }
{
    let _ = seats;
    let transfer = Transfer::open(alloc, shape, process)?;
    Ok(Player { seat, transfer })
}

/// A table with its two processes.
fn open_two(alloc: Global, shape: &Shape) -> Result<(PoolTable, Player, Player), NoMemory>
    requires two { shape.now.processes ≡ 2 }
    ensures first_at { IfOk result (λ opened. IsAt opened.0 opened.1.seat opened.1.transfer.sizes) }
    ensures second_at { IfOk result (λ opened. IsAt opened.0 opened.2.seat opened.2.transfer.sizes) }
    ensures first_sizes { IfOk result (λ opened. opened.1.transfer.sizes ≡ shape.now) }
    ensures second_sizes { IfOk result (λ opened. opened.2.transfer.sizes ≡ shape.now) }
    ensures first_rests { IfOk result (λ opened. Rests opened.1.seat opened.1.transfer) }
    ensures second_rests { IfOk result (λ opened. Rests opened.2.seat opened.2.transfer) }
    ensures first_spare { IfOk result (λ opened. spares_in opened.1.seat.view ≡ (2 * 0 + 1) * shape.now.length ∷ []) }
    ensures second_spare { IfOk result (λ opened. spares_in opened.2.seat.view ≡ (2 * 1 + 1) * shape.now.length ∷ []) }
{
    let (table, mut seat) = open_table(alloc, shape)?;
    let other = next_seat(&table, &mut seat, &mut Steps::new(Kept::new()));
    let first = open(alloc, shape, 0, seat, 2)?;
    let second = open(alloc, shape, 1, other, 0)?;
    Ok((table, first, second))
}

/// The spare of process 0 at the opening.
fn first_spare(shape: &Shape) -> u32
    ensures { result ≡ (2 * 0 + 1) * shape.now.length }
{
    shape.length()
}

/// Whether a process may announce one more transfer.
fn is_young(transfer: &Transfer) -> bool
    ensures { IsTrue result ↔ transfer.now.part.age < most_age transfer.now.sizes }
{
    transfer.view.age < transfer.shape.most_age()
}

/// Whether there is a block with this number.
fn is_block(transfer: &Transfer, number: u32) -> bool
    ensures { IsTrue result ↔ number < blocks transfer.now.sizes }
{
    number < transfer.shape.blocks()
}

/// Begins a take of a process with at most one spare.
#[tactic(auto, using(crate::proofs::Alone::take_spares))]
fn begin_take(rt: &impl Abort, player: &mut Player)
    requires rests { Rests player.old.seat player.old.transfer }
    requires few { length (spares_in player.old.seat.view) ≤ 1 }
    ensures seat { player.new.seat ≡ player.old.seat }
    ensures sizes { player.new.transfer.sizes ≡ player.old.transfer.sizes }
    ensures goes { Goes player.new.seat player.new.transfer }
    ensures spares { spares_about (Alone player.new.transfer.part.wish) player.new.seat.view ≡ spares_in player.old.seat.view }
{
    if !is_young(&player.transfer) {
        panic!(rt; "no age is left");
    }
    player.transfer.begin_take();
}

/// Begins a give of the one spare of a process.
#[tactic(auto, using(crate::proofs::Alone::give_spares))]
fn begin_give(rt: &impl Abort, player: &mut Player, head: u32)
    requires rests { Rests player.old.seat player.old.transfer }
    requires spare { spares_in player.old.seat.view ≡ head ∷ [] }
    ensures seat { player.new.seat ≡ player.old.seat }
    ensures sizes { player.new.transfer.sizes ≡ player.old.transfer.sizes }
    ensures goes { Goes player.new.seat player.new.transfer }
    ensures spares { spares_about (Alone player.new.transfer.part.wish) player.new.seat.view ≡ [] }
{
    if !is_young(&player.transfer) {
        panic!(rt; "no age is left");
    }
    if !is_block(&player.transfer, head) {
        panic!(rt; "there is no such block");
    }
    player.transfer.begin_give(head);
}

/// The word at this place. Its load turns no view.
#[tactic(auto, using(pool_table::proofs::Joins::look_keeps))]
fn look(table: &PoolTable, seat: &mut PoolSeat, place: u32) -> u64
    requires seat { seat.old.table ≡ table.now }
    requires place { place < table.now.words }
    ensures seat { SameSeat seat.old seat.new }
    ensures view { seat.new.view ≡ seat.old.view }
{
    table.load(seat, place, &mut Steps::new(Kept::new()))
}

/// The place of the next step's word, and whether it stores one there.
fn next_word(transfer: &Transfer) -> (u32, bool)
    requires { CanAct transfer.now.sizes transfer.now.part }
    ensures { result.0 < table_words transfer.now.sizes }
{
    let shape = &transfer.shape;
    match transfer.view.action(shape) {
        Action::Load { name } | Action::Exchange { name, .. } => (shape.place(name), false),
        Action::Store { name, .. } => (shape.place(name), true),
    }
}

/// Makes the next step of a transfer.
#[tactic(auto, using(crate::proofs::Alone::alone_can, crate::proofs::Alone::alone_agrees, crate::proofs::Alone::step_advances))]
fn advance(player: &mut Player, table: &PoolTable) -> Progress
    requires at { IsAt table.now player.old.seat player.old.transfer.sizes }
    requires goes { Goes player.old.seat player.old.transfer }
    ensures moved { OnlyMoved player.old.seat player.old.transfer player.new.seat player.new.transfer }
    ensures played { Played player.old.seat player.old.transfer player.new.seat player.new.transfer result }
{
    player.transfer.step(table, &mut player.seat, None, &mut Steps::new(Kept::new()))
}

/// The same with its word: the one that stood there, and of a store the one that it left.
fn step(player: &mut Player, table: &PoolTable) -> Made
    requires at { IsAt table.now player.old.seat player.old.transfer.sizes }
    requires goes { Goes player.old.seat player.old.transfer }
    ensures moved { OnlyMoved player.old.seat player.old.transfer player.new.seat player.new.transfer }
    ensures played { Played player.old.seat player.old.transfer player.new.seat player.new.transfer result.progress }
{
    let (place, stores) = next_word(&player.transfer);
    let met = look(table, &mut player.seat, place);
    let progress = advance(player, table);
    let left = look(table, &mut player.seat, place);
    Made {
        word: if stores { left } else { met },
        progress,
    }
}

/// Whether this is a transfer's next step, in one of its tries.
fn tries_next(transfer: &Transfer, step: TryStep) -> bool
    ensures { IsTrue result → IsInTry transfer.now.part step }
{
    match transfer.view.next {
        NextStep::Try { step: next, .. } => next == step,
        NextStep::Rest | NextStep::Announce | NextStep::LoadFinalState | NextStep::LoadReply =>
            false,
    }
}

/// Whether a transfer has another step.
fn is_going(progress: Progress) -> bool
    ensures { IsTrue result ↔ progress ≡ Going }
{
    match progress {
        Progress::Going => true,
        Progress::Took(_) | Progress::Empty | Progress::Gave => false,
    }
}

/// Whether a give ended.
fn has_given(progress: Progress) -> bool
    ensures { IsTrue result ↔ progress ≡ Gave }
{
    match progress {
        Progress::Gave => true,
        Progress::Going | Progress::Took(_) | Progress::Empty => false,
    }
}

/// Makes at most so many steps, and answers how many it made and how far the transfer is.
fn run(player: &mut Player, table: &PoolTable, most: u32) -> (u32, Progress)
    requires at { IsAt table.now player.old.seat player.old.transfer.sizes }
    requires goes { Goes player.old.seat player.old.transfer }
    ensures moved { OnlyMoved player.old.seat player.old.transfer player.new.seat player.new.transfer }
    ensures played { Played player.old.seat player.old.transfer player.new.seat player.new.transfer result.1 }
{
    for made in 0..most {
        let progress = advance(player, table);
        if !is_going(progress) {
            return (made + 1, progress);
        }
    }
    (most, Progress::Going)
}

/// Makes steps on these words, and answers how far the transfer is. It ends at none but the last.
fn make(rt: &impl Abort, player: &mut Player, table: &PoolTable, words: &[u64]) -> Progress
    requires at { IsAt table.now player.old.seat player.old.transfer.sizes }
    requires goes { Goes player.old.seat player.old.transfer }
    ensures moved { OnlyMoved player.old.seat player.old.transfer player.new.seat player.new.transfer }
    ensures played { Played player.old.seat player.old.transfer player.new.seat player.new.transfer result }
{
    for index in 0..words.len() {
        let made = step(player, table);
        assert_eq!(rt; made.word, words[index], "{index}");
        if !is_going(made.progress) {
            assert_eq!(rt; index + 1, words.len());
            return made.progress;
        }
    }
    Progress::Going
}

/// Makes steps on these words, of which none is the last one.
fn make_part(rt: &impl Abort, player: &mut Player, table: &PoolTable, words: &[u64])
    requires at { IsAt table.now player.old.seat player.old.transfer.sizes }
    requires goes { Goes player.old.seat player.old.transfer }
    ensures moved { OnlyMoved player.old.seat player.old.transfer player.new.seat player.new.transfer }
    ensures goes { Goes player.new.seat player.new.transfer }
{
    let progress = make(rt, player, table, words);
    if !is_going(progress) {
        panic!(rt; "the transfer ended");
    }
}
