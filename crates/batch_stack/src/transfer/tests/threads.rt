// Two processes on threads of their own, and what the stack holds in the end.
ghost use Rattle.std.specs.Prelude.{◌≡◌, ◌+◌, ◌*◌, [], ◌∷◌};
ghost use Rattle.word_layout.specs.Names.{InRange};
ghost use Rattle.word_table.specs.Seats.{SameSeat};
ghost use Rattle.batch_stack.specs.Alone.{IsAt, OnlyMoved, Rests, spares_in};

use super::making::{give, take};
use super::{Player, first_spare, look, open_two};
use pool_table::{PoolSeat, PoolTable};
use std::alloc::AllocError;
use std::process::Abort;
use std::test::Fail;
use std::thread;
use word_layout::{Shape, Tagged, WordName};

/// The spare of process 1 at the opening.
fn second_spare(rt: &impl Abort, shape: &Shape) -> u32
    ensures { result ≡ (2 * 1 + 1) * shape.now.length }
{
    let length = shape.length();
    length.checked_mul(3).expect(rt, "a head is a block")
}

/// So many gives, each with a take after it: the batch that the process has in the end.
fn play(rt: &impl Abort, player: &mut Player, table: &PoolTable, spare: u32, rounds: u32) -> u32
    requires at { IsAt table.now player.old.seat player.old.transfer.sizes }
    requires rests { Rests player.old.seat player.old.transfer }
    requires spare { spares_in player.old.seat.view ≡ spare ∷ [] }
    ensures moved { OnlyMoved player.old.seat player.old.transfer player.new.seat player.new.transfer }
{
    let mut head = spare;
    for _ in 0..rounds {
        give(rt, player, table, head, &[]);
        head = take(rt, player, table, &[]);
    }
    head
}

/// The value of the word with this name.
fn value(shape: &Shape, table: &PoolTable, seat: &mut PoolSeat, name: WordName) -> u32
    requires name { InRange shape.now name }
    requires at { IsAt table.now seat.old shape.now }
    ensures seat { SameSeat seat.old seat.new }
{
    Tagged::value(look(table, seat, shape.place(name)))
}

/// Appends the heads that the shared stack holds, from the bottom.
fn push_content(
    shape: &Shape,
    table: &PoolTable,
    seat: &mut PoolSeat,
    heads: &mut Vec<u32>,
) -> Result<(), AllocError>
    requires at { IsAt table.now seat.old shape.now }
{
    prove!(shape.processes() <= 32);
    let row = value(shape, table, seat, WordName::State);
    if row > 2 * shape.processes() {
        return Ok(());
    }
    let base = value(shape, table, seat, WordName::RecordWord { row, index: 0 });
    let overlay = value(shape, table, seat, WordName::RecordWord { row, index: 1 });
    for slot in 0..base.min(shape.batches()) {
        heads.push(value(shape, table, seat, WordName::Slot { slot }))?;
    }
    for above in 0..overlay.min(shape.processes()) {
        let name = WordName::RecordWord {
            row,
            index: 2 + above,
        };
        heads.push(value(shape, table, seat, name))?;
    }
    Ok(())
}

#[test]
fn two_processes_exchange_batches_on_threads(rt: HostRuntime) -> Result<(), Fail> {
    let shape = Shape::new(2, 8, 0)?;
    let (table, mut first, mut second) = open_two(rt.alloc(), &shape)?;
    let (own, other) = (first_spare(&shape), second_spare(&rt, &shape));
    let (handle, shared) = (&rt, &table);
    let playing = move || {
        let head = play(handle, &mut first, shared, own, 5_000);
        (first.seat, head)
    };
    let ((mut seat, mine), theirs) = thread::join(&rt, playing, || {
        play(&rt, &mut second, &table, other, 5_000)
    });
    let mut heads = vec![in rt.alloc(); mine, theirs]?;
    push_content(&shape, &table, &mut seat, &mut heads)?;
    heads.sort()?;
    let all = [6, 18, 24, 30, 36, 42];
    assert_eq!(rt; heads.as_slice(), all.as_slice());
    Ok(())
}
