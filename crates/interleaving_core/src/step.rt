// One step of one process, with the invariant of all.
ghost use Rattle.std.specs.Prelude.{◌≡◌, true, false, List, ◌++◌, length};
ghost use Rattle.word_layout.specs.Names.{table_words};
ghost use Rattle.pool_machine.specs.declared.call.CallStage.TheVariants.{Own};
ghost use Rattle.pool_machine.specs.Ready.{CanOwn};
ghost use Rattle.batch_invariant.specs.Batches.{ProcessViews};
ghost use Rattle.transfer_machine.specs.Words.{acted, met_word};
ghost use Rattle.pool_model.specs.declared.entry.Entry.{Entry};
ghost use Rattle.interleaving_core.specs.Runs.{entries_of};
ghost use Rattle.interleaving_core.specs.Invariant.{IsAmong, MeetsInvariant, with_view};
ghost use Rattle.interleaving_core.specs.Steps.{is_alone, is_busy, next_action, next_met, next_answer, next_kind};

use pool_machine::{CallStage, Happened, ProcessView, Way, own_kind, step_call, step_words};
use transfer_machine::Kind;
use word_layout::Shape;

/// Makes the next step of a process on the words, and answers its kind: a step of a transfer, or the own step of
/// a call. It looks at one word and changes no other, and takes no memory. Whatever the other processes know,
/// words and views that meet the invariant become such words and views.
pub fn core_step(words: &mut [u64], view: &mut ProcessView, shape: &Shape) -> Kind
    requires whole { length words.old ≡ table_words shape.now }
    requires busy { is_busy view.old ≡ true }
    requires invariant { IsAmong shape.now words.old view.old }
    ensures kind { result ≡ next_kind view.old }
    ensures words { words.new ≡ acted shape.now words.old (next_action shape.now view.old) }
    ensures view { view.new ≡ next_met shape.now view.old (met_word shape.now words.old (next_action shape.now view.old)) }
    ensures invariant { (others : ProcessViews) (past : List Entry) → MeetsInvariant shape.now words.old (with_view view.old others) past → MeetsInvariant shape.now words.new (with_view view.new others) (past ++ entries_of (next_answer view.old (met_word shape.now words.old (next_action shape.now view.old)))) }
{
    prove!(shape.processes() >= 1);
    let kind = kind_of(view, shape);
    make_step(words, view, shape);
    kind
}

/// Makes the next step of a process on the words, and answers what happened.
pub fn make_step(words: &mut [u64], view: &mut ProcessView, shape: &Shape) -> Happened
    requires whole { length words.old ≡ table_words shape.now }
    requires busy { is_busy view.old ≡ true }
    requires invariant { IsAmong shape.now words.old view.old }
    ensures happened { result ≡ next_answer view.old (met_word shape.now words.old (next_action shape.now view.old)) }
    ensures words { words.new ≡ acted shape.now words.old (next_action shape.now view.old) }
    ensures view { view.new ≡ next_met shape.now view.old (met_word shape.now words.old (next_action shape.now view.old)) }
{
    prove!(shape.processes() >= 1);
    if is_alone(view.calls.way) {
        Happened::Step(step_words(words, view, shape))
    } else {
        step_call(words, view, shape)
    }
}

/// Whether a process makes transfers alone, outside any call.
fn is_alone(way: Way) -> bool
    ensures { result ≡ is_alone way }
{
    match way {
        Way::Alone => true,
        Way::Fresh | Way::Calls => false,
    }
}

/// The kind of the next step of a process.
fn kind_of(view: &ProcessView, shape: &Shape) -> Kind
    requires { is_alone view.now.calls.way ≡ false → view.now.calls.stage ≡ Own → CanOwn shape.now view.now }
    ensures { result ≡ next_kind view.now }
{
    if view.calls.way != Way::Alone && view.calls.stage == CallStage::Own {
        own_kind(view, shape)
    } else {
        view.transfer.next.kind()
    }
}
