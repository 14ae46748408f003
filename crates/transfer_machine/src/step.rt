// A step on the words of the table.
ghost use Rattle.std.specs.Prelude.{◌≡◌, ◌≢◌, ◌↔◌, IsTrue, length};
ghost use Rattle.word_layout.specs.Names.{table_words, InRange};
ghost use Rattle.transfer_machine.specs.declared.stage.NextStep.TheVariants.{Rest};
ghost use Rattle.transfer_machine.specs.Machine.{action_of, met_of};
ghost use Rattle.transfer_machine.specs.Stages.{kind_of};
ghost use Rattle.transfer_machine.specs.Words.{acted, met_word, name_of, CanStep};

use crate::action::Action;
use crate::kind::Kind;
use crate::transfer::TransferView;
use word_layout::Shape;

/// Whether a view can make its next step on these words.
#[tactic(auto, unfolding(word_layout::specs::Names::word_at))]
pub fn can_step(words: &[u64], view: &TransferView, shape: &Shape) -> bool
    ensures { IsTrue result ↔ CanStep shape.now words.now view.now }
{
    if words.len() != shape.table_words() as usize || !view.can_act(shape) {
        return false;
    }
    let place = shape.place(view.action(shape).name());
    view.can_meet(shape, words[place as usize])
}

/// Makes the next step of a transfer on the words, and answers its kind. It looks at one word, and changes
/// no other.
pub fn step_transfer(words: &mut [u64], view: &mut TransferView, shape: &Shape) -> Kind
    requires busy { view.old.next ≢ Rest }
    requires can { CanStep shape.now words.old view.old }
    ensures kind { result ≡ kind_of view.old.next }
    ensures words { words.new ≡ acted shape.now words.old (action_of shape.now view.old) }
    ensures view { view.new ≡ met_of shape.now view.old (met_word shape.now words.old (action_of shape.now view.old)) }
{
    let kind = view.next.kind();
    let action = view.action(shape);
    let word = act(words, action, shape);
    view.meet(shape, word);
    kind
}

/// Does what an action says to its word, and answers the word that was there.
#[tactic(auto, unfolding(word_layout::specs::Names::word_at, word_layout::specs::Names::set_word))]
pub fn act(words: &mut [u64], action: Action, shape: &Shape) -> u64
    requires whole { length words.old ≡ table_words shape.now }
    requires within { InRange shape.now (name_of action) }
    ensures met { result ≡ met_word shape.now words.old action }
    ensures words { words.new ≡ acted shape.now words.old action }
{
    match action {
        Action::Load { name } => words[shape.place(name) as usize],
        Action::Store { name, word } => {
            let place = shape.place(name) as usize;
            let met = words[place];
            words[place] = word;
            met
        }
        Action::Exchange { name, old, new } => {
            let place = shape.place(name) as usize;
            let met = words[place];
            if met == old {
                words[place] = new;
            }
            met
        }
    }
}
