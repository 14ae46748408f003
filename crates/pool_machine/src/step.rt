// One step of a call, or of a transfer alone.
ghost use Rattle.std.specs.Prelude.{◌≡◌, ◌≢◌, if◌then◌else◌};
ghost use Rattle.word_layout.specs.Names.{InRange};
ghost use Rattle.transfer_machine.specs.declared.stage.NextStep.TheVariants.{Rest};
ghost use Rattle.transfer_machine.specs.Machine.{action_of};
ghost use Rattle.transfer_machine.specs.Stages.{kind_of};
ghost use Rattle.transfer_machine.specs.Words.{acted, met_word, name_of, CanStep};
ghost use Rattle.pool_machine.specs.Steps.{call_action, call_met, call_answer, happened, is_paced, move_counted};
ghost use Rattle.pool_machine.specs.declared.call.CallStage.TheVariants.{Choosing, Moving, Own};
ghost use Rattle.pool_machine.specs.Ready.{CanActCall, CanMeetCall, CanMove, CanMeetMoving, CanStepCall};
ghost use Rattle.pool_machine.specs.Pools.{view_met, CanCount, CanMeetPool};

use crate::answer::OwnAnswer;
use crate::call::{Call, CallStage};
use crate::event::Happened;
use crate::own::{own_action, own_answer, own_kind, own_meet};
use crate::view::ProcessView;
use transfer_machine::{Action, Kind, NextStep, act};
use word_layout::{Shape, WordName};

/// What a process does next in its call, and to which word. Between two calls it would load the state.
pub fn call_action(view: &ProcessView, shape: &Shape) -> Action
    requires { CanActCall shape.now view.now }
    ensures action { result ≡ call_action shape.now view.now }
    ensures within { InRange shape.now (name_of result) }
{
    match view.calls.stage {
        CallStage::Between | CallStage::Choosing => Action::Load {
            name: WordName::State,
        },
        CallStage::Moving => view.transfer.action(shape),
        CallStage::Own => own_action(view, view.calls.call, shape),
    }
}

/// What the view becomes once its next step met this word.
pub fn call_meet(view: &mut ProcessView, shape: &Shape, word: u64)
    requires act { CanActCall shape.now view.old }
    requires meet { CanMeetCall shape.now view.old word }
    ensures { view.new ≡ call_met shape.now view.old word }
{
    match view.calls.stage {
        CallStage::Between | CallStage::Choosing => {}
        CallStage::Moving => move_on(view, shape, word),
        CallStage::Own => {
            let call = view.calls.call;
            own_meet(view, call, shape, word);
        }
    }
}

/// Counts a step of the pending transfer. The own step follows where the transfer has ended or the call has
/// made its quantum.
fn move_on(view: &mut ProcessView, shape: &Shape, word: u64)
    requires act { CanMove shape.now view.old }
    requires meet { CanMeetMoving shape.now view.old word }
    ensures { view.new ≡ move_counted shape.now (view_met shape.now view.old word) }
{
    let quantum = shape.quantum();
    prove!(quantum <= 16);
    view.meet(shape, word);
    let ended = view.transfer.next == NextStep::Rest;
    if is_paced(view.calls.call) {
        view.calls.steps += 1;
        view.calls.stage = if ended || view.calls.steps == quantum {
            CallStage::Own
        } else {
            CallStage::Moving
        };
    } else {
        view.calls.stage = after_search_move(view.calls.chosen, ended);
    }
}

/// Where a search stands after a step of its transfer.
fn after_search_move(chosen: bool, ended: bool) -> CallStage
    ensures { result ≡ (if ended then (if chosen then Own else Choosing) else Moving) }
{
    if !ended {
        CallStage::Moving
    } else if chosen {
        CallStage::Own
    } else {
        CallStage::Choosing
    }
}

/// Whether a call makes at most a quantum of steps of a transfer.
pub fn is_paced(call: Option<Call>) -> bool
    ensures { result ≡ is_paced call }
{
    match call {
        None | Some(Call::Allocate | Call::Free { .. } | Call::Read { .. } | Call::Write { .. }) =>
            true,
        Some(Call::Search) => false,
    }
}

/// What happened in the next step, where it met this word.
pub fn call_answer(view: &ProcessView, shape: &Shape, word: u64) -> Happened
    requires { CanActCall shape.now view.now }
    ensures { result ≡ call_answer view.now word }
{
    match view.calls.stage {
        CallStage::Between | CallStage::Choosing => Happened::Ignored,
        CallStage::Moving => Happened::Step(view.transfer.next.kind()),
        CallStage::Own => {
            let answer = own_answer(view, view.calls.call, shape, word);
            happened(own_kind(view, shape), answer)
        }
    }
}

/// What happened where the own step of this kind answered so.
fn happened(kind: Kind, answer: OwnAnswer) -> Happened
    ensures { result ≡ happened kind answer }
{
    match answer {
        OwnAnswer::Recorded(entry) => Happened::Ended { kind, entry },
        OwnAnswer::Loaded(word) => Happened::Loaded(word),
        OwnAnswer::Stored => Happened::Stored,
    }
}

/// Makes the next step of a call on the words, and answers what happened. It looks at one word, and changes
/// no other.
pub fn step_call(words: &mut [u64], view: &mut ProcessView, shape: &Shape) -> Happened
    requires { CanStepCall shape.now words.old view.old }
    ensures happened { result ≡ call_answer view.old (met_word shape.now words.old (call_action shape.now view.old)) }
    ensures words { words.new ≡ acted shape.now words.old (call_action shape.now view.old) }
    ensures view { view.new ≡ call_met shape.now view.old (met_word shape.now words.old (call_action shape.now view.old)) }
{
    let action = call_action(view, shape);
    let word = act(words, action, shape);
    let happened = call_answer(view, shape, word);
    call_meet(view, shape, word);
    happened
}

/// Makes the next step of a process's transfer on the words, outside any call, and answers its kind. The
/// process's private pool counts the step, and gets the batch where it is the last step of a take.
pub fn step_words(words: &mut [u64], view: &mut ProcessView, shape: &Shape) -> Kind
    requires busy { view.old.transfer.next ≢ Rest }
    requires can { CanStep shape.now words.old view.old.transfer }
    requires count { CanCount view.old.pool }
    requires end { CanMeetPool (met_word shape.now words.old (action_of shape.now view.old.transfer)) view.old.pool view.old.transfer.next }
    ensures kind { result ≡ kind_of view.old.transfer.next }
    ensures words { words.new ≡ acted shape.now words.old (action_of shape.now view.old.transfer) }
    ensures view { view.new ≡ view_met shape.now view.old (met_word shape.now words.old (action_of shape.now view.old.transfer)) }
{
    let kind = view.transfer.next.kind();
    let action = view.transfer.action(shape);
    let word = act(words, action, shape);
    view.meet(shape, word);
    kind
}
