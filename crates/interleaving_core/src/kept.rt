// How many blocks a process keeps, read off its view and the words.
ghost use Rattle.std.specs.Prelude.{◌≡◌, ◌<◌, ◌≤◌, ◌^◌};
ghost use Rattle.word_layout.specs.Packing.{reply_of};
ghost use Rattle.interleaving_core.specs.Content.{SaysContent};
ghost use Rattle.interleaving_core.specs.Kept.{reply_value_at, given_batches, taken_batches, announced_batches, in_transit, kept_by, pends_at};

use crate::content::{row_of, value_at, whole_at};
use pool_machine::ProcessView;
use transfer_machine::{NextStep, TransferView, is_pending};
use word_layout::{Announced, Reply, Shape, Tagged, Wish, WordName};

/// How many blocks a process keeps: its current list, its spares, and its batch in transit.
pub fn kept_by(words: &[u64], view: &ProcessView, shape: &Shape, process: u32) -> u32
    requires says { SaysContent shape.now words.now }
    requires low { process < shape.now.processes }
    requires few { kept_by shape.now words.now process view.now < 2 ^ 32 }
    ensures { result ≡ kept_by shape.now words.now process view.now }
{
    let batches = view.pool.heads.len() as u32 + in_transit(words, &view.transfer, shape, process);
    view.pool.plan.current() + shape.length() * batches
}

/// How many batches a process keeps in transit.
fn in_transit(words: &[u64], view: &TransferView, shape: &Shape, process: u32) -> u32
    requires says { SaysContent shape.now words.now }
    requires low { process < shape.now.processes }
    ensures value { result ≡ in_transit shape.now words.now process view.now }
    ensures few { result ≤ 1 }
{
    match view.next {
        NextStep::Rest => 0,
        NextStep::Announce => given_batches(view.wish),
        _ => announced_batches(words, view.wish, shape, process),
    }
}

/// How many batches an announced transfer keeps.
fn announced_batches(words: &[u64], wish: Wish, shape: &Shape, process: u32) -> u32
    requires says { SaysContent shape.now words.now }
    requires low { process < shape.now.processes }
    ensures value { result ≡ announced_batches (pends_at shape.now words.now process) wish (reply_of (reply_value_at shape.now words.now process)) }
    ensures few { result ≤ 1 }
{
    let value = reply_value_at(words, shape, process);
    let word = whole_at(words, shape, WordName::Announcement { process });
    if is_pending(Tagged::tag(word) % 2 == 1, value) {
        given_batches(wish)
    } else {
        let (_, reply) = Reply::read(value);
        taken_batches(wish, reply)
    }
}

/// The reply to a process in the current record.
fn reply_value_at(words: &[u64], shape: &Shape, process: u32) -> u32
    requires says { SaysContent shape.now words.now }
    requires low { process < shape.now.processes }
    ensures { result ≡ reply_value_at shape.now words.now process }
{
    prove!(shape.processes() <= 32);
    let row = row_of(words, shape);
    value_at(
        words,
        shape,
        WordName::RecordWord {
            row,
            index: shape.processes() + 2 + process,
        },
    )
}

/// How many batches a transfer keeps that isn't applied.
fn given_batches(wish: Wish) -> u32
    ensures value { result ≡ given_batches wish }
    ensures few { result ≤ 1 }
{
    match wish {
        Wish::Take => 0,
        Wish::Give(_) => 1,
    }
}

/// How many batches an applied transfer keeps, with this reply.
fn taken_batches(wish: Wish, reply: Reply) -> u32
    ensures value { result ≡ taken_batches wish reply }
    ensures few { result ≤ 1 }
{
    match (wish, reply) {
        (Wish::Take, Reply::Took(_)) => 1,
        _ => 0,
    }
}
