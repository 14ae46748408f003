// How far a transfer is.
ghost use Rattle.std.specs.Prelude.{◌≡◌};
ghost use Rattle.batch_stack.specs.Running.{ended_as, progress_at};

use transfer_machine::NextStep;
use word_layout::Reply;

/// How far a transfer is after a step.
#[derive(Clone, Copy, Debug, PartialEq, Eq, Hash)]
pub enum Progress {
    /// It has a next step.
    Going,
    /// A take ended: it got the batch with this head.
    Took(u32),
    /// A take ended: no batch was left where it was applied.
    Empty,
    /// A give ended.
    Gave,
}

/// How far a transfer is after its step at that stage, with this last answer: the load of the reply ends it.
pub(crate) fn progress_at(next: NextStep, answer: Reply) -> Progress
    ensures { result ≡ progress_at next answer }
{
    match next {
        NextStep::LoadReply => ended_as(answer),
        NextStep::Rest | NextStep::Announce | NextStep::Try { .. } | NextStep::LoadFinalState =>
            Progress::Going,
    }
}

/// How a transfer ended that was answered so.
fn ended_as(reply: Reply) -> Progress
    ensures { result ≡ ended_as reply }
{
    match reply {
        Reply::Nothing => Progress::Empty,
        Reply::Took(head) => Progress::Took(head),
        Reply::Gave => Progress::Gave,
    }
}
