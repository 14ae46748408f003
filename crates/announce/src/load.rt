// The load of an announcement.
ghost use Rattle.std.specs.Prelude.{◌≡◌};
ghost use Rattle.word_layout.specs.declared.name.WordName.TheVariants.{Announcement};
ghost use Rattle.transfer_machine.specs.declared.action.Action.TheVariants.{Load};

use transfer_machine::Action;
use word_layout::WordName;

/// The load of this process's announcement, for whoever makes a try.
#[inline(always)]
pub fn load_of_announcement(process: u32) -> Action
    ensures { result ≡ Load (Announcement process) }
{
    let name = WordName::Announcement { process };
    Action::Load { name }
}
