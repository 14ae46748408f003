// What a process keeps for its transfers.
ghost use Rattle.std.specs.Prelude.{◌≡◌, ◌+◌, ◌<◌, ◌^◌, ◌↔◌, IsTrue};
ghost use Rattle.word_layout.specs.Names.{InRange};
ghost use Rattle.word_layout.specs.Packing.{tag_limit, FitsWish};
ghost use Rattle.transfer_machine.specs.Machine.{action_of, met_of, CanAct, CanMeet, begun, own_announcement};
ghost use Rattle.transfer_machine.specs.Stages.{stage_of};
ghost use Rattle.transfer_machine.specs.Words.{name_of};
ghost use Rattle.transfer_machine.specs.Opening.{opening_transfer};

use crate::action::Action;
use crate::loaded::Loaded;
use crate::stage::{NextStep, Stage, TryStep};
use crate::try_draft::TryDraft;
use word_layout::{Announced, Reply, Shape, Tagged, Wish, WordName};

/// What a process keeps for its transfers.
#[derive(Clone, Copy, Debug)]
pub struct TransferView {
    /// The number of the process.
    pub number: u32,
    /// How many transfers were announced.
    pub age: u64,
    /// The record that the next try writes: one of the process's own two.
    pub next_record: u32,
    /// The tag of the last state that the process installed, 0 before the first.
    pub installed: u64,
    /// The tag that the pending transfer loaded in its first try; 0 before that, and where none is pending.
    pub first_loaded: u64,
    /// What the pending transfer is to do; that of the last one where none is pending.
    pub wish: Wish,
    /// The next step.
    pub next: NextStep,
    /// What was loaded in the present try, or in the end.
    pub loaded: Loaded,
    /// The draft of the present try.
    pub draft: TryDraft,
    /// How the last ended transfer was answered.
    pub answer: Reply,
}

impl TransferView {
    /// The view of a process at the opening.
    pub fn open(process: u32) -> TransferView
        requires { process < 2 ^ 31 }
        ensures { result ≡ opening_transfer process }
    {
        TransferView {
            number: process,
            age: 0,
            next_record: 2 * process,
            installed: 0,
            first_loaded: 0,
            wish: Wish::Take,
            next: NextStep::Rest,
            loaded: Loaded::nothing(),
            draft: TryDraft::nothing(),
            answer: Reply::Nothing,
        }
    }

    /// Where the transfer stands.
    pub fn stage(&self) -> Stage
        ensures { result ≡ stage_of self.now }
    {
        Stage {
            turn: self.next.turn(),
            kind: self.next.kind(),
            index: self.next.index(),
        }
    }

    /// Begins a transfer. Its first step is the announcement.
    pub fn begin(&mut self, wish: Wish)
        ensures { self.new ≡ begun wish self.old }
    {
        self.next = NextStep::Announce;
        self.wish = wish;
    }

    /// Whether the numbers that the next step names are in their ranges, and what it writes fits a word.
    pub fn can_act(&self, shape: &Shape) -> bool
        ensures { IsTrue result ↔ CanAct shape.now self.now }
    {
        match self.next {
            NextStep::Rest | NextStep::LoadFinalState => true,
            NextStep::Announce => {
                self.number < shape.processes()
                    && self.age < Tagged::TAG_LIMIT - 1
                    && self.wish.fits()
            }
            NextStep::Try { step, .. } => self.can_act_in_try(step, shape),
            NextStep::LoadReply => {
                self.loaded.row() <= 2 * shape.processes() && self.number < shape.processes()
            }
        }
    }

    /// Whether what the next step makes of the view stays in range where it meets this word.
    pub fn can_meet(&self, shape: &Shape, word: u64) -> bool
        requires { CanAct shape.now self.now }
        ensures { IsTrue result ↔ CanMeet shape.now self.now word }
    {
        match self.next {
            NextStep::Try { step, .. } => self.can_meet_in_try(step, shape, word),
            NextStep::Rest | NextStep::Announce | NextStep::LoadFinalState | NextStep::LoadReply =>
                true,
        }
    }

    /// What the view does next, and to which word. A view at rest would load the state.
    pub fn action(&self, shape: &Shape) -> Action
        requires { CanAct shape.now self.now }
        ensures action { result ≡ action_of shape.now self.now }
        ensures within { InRange shape.now (name_of result) }
    {
        self.action_at(self.next, shape)
    }

    /// The same by the next step, so that a caller can have code for each.
    #[inline(always)]
    pub fn action_at(&self, next: NextStep, shape: &Shape) -> Action
        requires next { next ≡ self.now.next }
        requires act { CanAct shape.now self.now }
        ensures action { result ≡ action_of shape.now self.now }
        ensures within { InRange shape.now (name_of result) }
    {
        match next {
            NextStep::Rest | NextStep::LoadFinalState => Action::Load {
                name: WordName::State,
            },
            NextStep::Announce => Action::Store {
                name: WordName::Announcement {
                    process: self.number,
                },
                word: self.announcement(),
            },
            NextStep::Try { step, .. } => self.try_action(step, shape),
            NextStep::LoadReply => Action::Load {
                name: WordName::RecordWord {
                    row: self.loaded.row(),
                    index: shape.processes() + 2 + self.number,
                },
            },
        }
    }

    /// The word that announces the wish.
    fn announcement(&self) -> u64
        requires age { self.now.age + 1 < tag_limit }
        requires wish { FitsWish self.now.wish }
        ensures { result ≡ own_announcement self.now }
    {
        Announced {
            number: self.age + 1,
            wish: self.wish,
        }
        .pack()
    }

    /// What the view becomes once its next step met this word.
    pub fn meet(&mut self, shape: &Shape, word: u64)
        requires act { CanAct shape.now self.old }
        requires meet { CanMeet shape.now self.old word }
        ensures { self.new ≡ met_of shape.now self.old word }
    {
        self.meet_at(self.next, shape, word);
    }

    /// The same by the next step, so that a caller can have code for each.
    #[inline(always)]
    pub fn meet_at(&mut self, next: NextStep, shape: &Shape, word: u64)
        requires next { next ≡ self.old.next }
        requires act { CanAct shape.now self.old }
        requires meet { CanMeet shape.now self.old word }
        ensures { self.new ≡ met_of shape.now self.old word }
    {
        match next {
            NextStep::Rest => {}
            NextStep::Announce => {
                self.next = NextStep::Try {
                    second: false,
                    step: TryStep::LoadState,
                };
                self.age += 1;
            }
            NextStep::Try { second, step } => self.meet_in_try(second, step, shape, word),
            NextStep::LoadFinalState => {
                self.next = NextStep::LoadReply;
                self.loaded.state = word;
            }
            NextStep::LoadReply => {
                self.next = NextStep::Rest;
                self.first_loaded = 0;
                self.answer = Reply::read(Tagged::value(word)).1;
            }
        }
    }
}
