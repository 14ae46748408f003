// Steps of a process on words of its own.
ghost use Rattle.std.specs.Prelude.{◌≡◌, length, IfOk};
ghost use Rattle.word_layout.specs.Names.{table_words};
ghost use Rattle.interleaving_core.specs.Invariant.{IsAmong};

use crate::{Kind, NextStep, ProcessView, Way, begin_transfer, core_step, opening_words};
use pool_model::NoMemory;
use std::alloc::Global;
use std::process::Abort;
use std::test::Fail;
use word_layout::{Reply, Shape, Wish};

/// The words of the opening, and what process 0 knows once it has begun a take there.
fn take_begun(alloc: Global, shape: &Shape) -> Result<(Vec<u64>, ProcessView), NoMemory>
    ensures whole { IfOk result (λ begun. length begun.0.items ≡ table_words shape.now) }
    ensures invariant { IfOk result (λ begun. IsAmong shape.now begun.0.items begun.1) }
{
    prove!(shape.processes() >= 1);
    let words = opening_words(alloc, shape)?;
    let mut view = ProcessView::open(shape, 0);
    begin_transfer(&mut view, Wish::Take);
    Ok((words, view))
}

/// One more step of a transfer that was begun alone.
fn step(rt: &impl Abort, words: &mut [u64], view: &mut ProcessView, shape: &Shape) -> Kind
    requires whole { length words.old ≡ table_words shape.now }
    requires invariant { IsAmong shape.now words.old view.old }
    ensures whole { length words.new ≡ table_words shape.now }
    ensures invariant { IsAmong shape.now words.new view.new }
{
    prove!(shape.processes() >= 1);
    assert!(rt; view.calls.way == Way::Alone && view.transfer.next != NextStep::Rest);
    core_step(words, view, shape)
}

/// Makes steps of these kinds, one after the other.
fn make_steps(
    rt: &impl Abort,
    words: &mut [u64],
    view: &mut ProcessView,
    shape: &Shape,
    kinds: &[Kind],
)
    requires whole { length words.old ≡ table_words shape.now }
    requires invariant { IsAmong shape.now words.old view.old }
{
    for kind in kinds {
        assert_eq!(rt; step(rt, words, view, shape), *kind);
    }
}

/// A take that was begun alone goes on by steps of the core, and gets the last batch of the opening.
#[test]
fn begun_take(rt: HostRuntime) -> Result<(), Fail> {
    let shape = Shape::new(1, 10, 0)?;
    let (mut words, mut view) = take_begun(rt.alloc(), &shape)?;
    let kinds = [
        Kind::K1,
        Kind::K2,
        Kind::K3,
        Kind::K3,
        Kind::K3,
        Kind::K3,
        Kind::K6,
        Kind::K7,
        Kind::K8,
        Kind::K8,
        Kind::K8,
        Kind::K8,
        Kind::K9,
        Kind::K10,
        Kind::K11,
    ];
    make_steps(&rt, &mut words, &mut view, &shape, &kinds);
    assert_eq!(rt;
        (view.transfer.next, view.transfer.answer),
        (NextStep::Rest, Reply::Took(36))
    );
    Ok(())
}
