// Whole transfers, of a process with one spare or none.
ghost use Rattle.std.specs.Prelude.{◌≡◌, [], ◌∷◌};
ghost use Rattle.batch_stack.specs.Alone.{Goes, IsAt, OnlyMoved, Played, Rests, spares_in};

use super::{Player, begin_give, begin_take, has_given, make, run};
use crate::progress::Progress;
use pool_table::PoolTable;
use std::process::Abort;

/// Makes all steps of a transfer, on these words unless none are given.
fn finish(rt: &impl Abort, player: &mut Player, table: &PoolTable, words: &[u64]) -> Progress
    requires at { IsAt table.now player.old.seat player.old.transfer.sizes }
    requires goes { Goes player.old.seat player.old.transfer }
    ensures moved { OnlyMoved player.old.seat player.old.transfer player.new.seat player.new.transfer }
    ensures played { Played player.old.seat player.old.transfer player.new.seat player.new.transfer result }
{
    if words.is_empty() {
        let most = player.transfer.shape.transfer_bound();
        run(player, table, most).1
    } else {
        make(rt, player, table, words)
    }
}

/// A whole give of the one spare, on these words unless none are given.
pub(super) fn give(
    rt: &impl Abort,
    player: &mut Player,
    table: &PoolTable,
    head: u32,
    words: &[u64],
)
    requires at { IsAt table.now player.old.seat player.old.transfer.sizes }
    requires rests { Rests player.old.seat player.old.transfer }
    requires spare { spares_in player.old.seat.view ≡ head ∷ [] }
    ensures moved { OnlyMoved player.old.seat player.old.transfer player.new.seat player.new.transfer }
    ensures rests { Rests player.new.seat player.new.transfer }
    ensures spares { spares_in player.new.seat.view ≡ [] }
{
    begin_give(rt, player, head);
    let progress = finish(rt, player, table, words);
    if !has_given(progress) {
        panic!(rt; "the give ends otherwise");
    }
}

/// A whole take of a process with no spare, on these words unless none are given: the batch that it got.
pub(super) fn take(rt: &impl Abort, player: &mut Player, table: &PoolTable, words: &[u64]) -> u32
    requires at { IsAt table.now player.old.seat player.old.transfer.sizes }
    requires rests { Rests player.old.seat player.old.transfer }
    requires spares { spares_in player.old.seat.view ≡ [] }
    ensures moved { OnlyMoved player.old.seat player.old.transfer player.new.seat player.new.transfer }
    ensures rests { Rests player.new.seat player.new.transfer }
    ensures spare { spares_in player.new.seat.view ≡ result ∷ [] }
{
    begin_take(rt, player);
    let progress = finish(rt, player, table, words);
    match progress {
        Progress::Took(head) => head,
        Progress::Going | Progress::Empty | Progress::Gave => panic!(rt; "a take gets nothing"),
    }
}
