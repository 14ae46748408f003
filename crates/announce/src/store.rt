// The store of the own announcement.
ghost use Rattle.std.specs.Prelude.{◌≡◌, ◌<◌};
ghost use Rattle.word_layout.specs.Packing.{FitsWish, tag_limit};
ghost use Rattle.word_layout.specs.declared.announced.Wish.TheVariants.{Take, Give};
ghost use Rattle.word_layout.specs.declared.name.WordName.TheVariants.{Announcement};
ghost use Rattle.transfer_machine.specs.declared.action.Action.TheVariants.{Store};
ghost use Rattle.pool_table.specs.Steps.{MayStep, OneStep};
ghost use Rattle.pool_table.specs.Transfers.{about_of};
ghost use Rattle.announce.specs.Stored.{Announces, HasAnnounced, announcement};

use pool_machine::Call;
use pool_table::{About, PoolSeat, PoolTable, about_of};
use step_counter::{Ledger, Steps};
use transfer_machine::Action;
use word_layout::{Announced, Wish, WordName};

/// Announces a take: one store, which begins it where none is begun, and raises the age of the process to `number`.
pub fn announce_take<L: Ledger>(
    table: &PoolTable,
    seat: &mut PoolSeat,
    process: u32,
    number: u64,
    call: Option<Call>,
    steps: &mut Steps<L>,
)
    requires may { MayStep seat.old.view.sizes (about_of call Take) table.now seat.old steps.old }
    requires announces { Announces (about_of call Take) seat.old.view process number Take }
    ensures one { OneStep seat.old seat.new steps.old steps.new }
    ensures announced { HasAnnounced (about_of call Take) seat.old.view number Take seat.new.view }
{
    let about = about_of(call, Wish::Take);
    announce(&about, process, number, Wish::Take, table, seat, steps);
}

/// Announces a give of the batch with this head, in the same way.
pub fn announce_give<L: Ledger>(
    table: &PoolTable,
    seat: &mut PoolSeat,
    process: u32,
    number: u64,
    head: u32,
    call: Option<Call>,
    steps: &mut Steps<L>,
)
    requires may { MayStep seat.old.view.sizes (about_of call (Give head)) table.now seat.old steps.old }
    requires announces { Announces (about_of call (Give head)) seat.old.view process number (Give head) }
    ensures one { OneStep seat.old seat.new steps.old steps.new }
    ensures announced { HasAnnounced (about_of call (Give head)) seat.old.view number (Give head) seat.new.view }
{
    let about = about_of(call, Wish::Give(head));
    announce(
        &about,
        process,
        number,
        Wish::Give(head),
        table,
        seat,
        steps,
    );
}

/// Announces the wish of the seat's process, which is to be its transfer of this number: one atomic step.
fn announce<L: Ledger>(
    about: &About,
    process: u32,
    number: u64,
    wish: Wish,
    table: &PoolTable,
    seat: &mut PoolSeat,
    steps: &mut Steps<L>,
)
    requires may { MayStep seat.old.view.sizes about.now table.now seat.old steps.old }
    requires announces { Announces about.now seat.old.view process number wish }
    ensures one { OneStep seat.old seat.new steps.old steps.new }
    ensures announced { HasAnnounced about.now seat.old.view number wish seat.new.view }
{
    let word = announcement(number, wish);
    // The announcements come right after the state.
    table.store_with(seat, 1 + process, word, about, steps);
}

/// The store that announces this wish of a process, as its transfer of this number, for whoever has the shape.
#[inline(always)]
pub fn store_of_announcement(process: u32, number: u64, wish: Wish) -> Action
    requires number { number < tag_limit }
    requires wish { FitsWish wish }
    ensures { result ≡ Store (Announcement process) (announcement number wish) }
{
    Action::Store {
        name: WordName::Announcement { process },
        word: announcement(number, wish),
    }
}

/// The word of that announcement.
#[inline(always)]
fn announcement(number: u64, wish: Wish) -> u64
    requires number { number < tag_limit }
    requires wish { FitsWish wish }
    ensures { result ≡ announcement number wish }
{
    Announced { number, wish }.pack()
}
