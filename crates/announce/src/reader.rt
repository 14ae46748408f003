// The reading of all announcements.
ghost use Rattle.std.specs.Prelude.{◌≡◌};
ghost use Rattle.word_layout.specs.declared.announced.Wish.TheVariants.{Take};
ghost use Rattle.pool_table.specs.Steps.{MayStep, OneStep};
ghost use Rattle.pool_table.specs.Transfers.{about_of};
ghost use Rattle.announce.specs.Reading.{CanHear, HasHeard, begun};

use crate::load::load_of_announcement;
use pool_machine::Call;
use pool_table::{PoolSeat, PoolTable, about_of, act};
use std::marker::Model;
use step_counter::{Ledger, Steps};
use word_layout::{Announced, Shape, Wish};

/// The announcements of processes 0 to `p - 1`, in order.
///
/// Clauses see the shape's numbers, and of how many processes it loaded the announcement since it was begun.
#[derive(Drop)]
pub struct AnnounceReader {
    shape: Shape,
    process: u32,
}

impl Model for AnnounceReader {
    ghost use Rattle.announce.specs.Reading.{Reading};

    ghost Value = { Reading };

    ghost view = { λ reader. record { sizes = reader.shape; process = reader.process } };
}

impl AnnounceReader {
    /// A reader of the announcements of this shape's processes, at the first.
    pub fn open(shape: &Shape) -> AnnounceReader
        ensures { result ≡ record { sizes = shape.now; process = 0 } }
    {
        AnnounceReader {
            shape: *shape,
            process: 0,
        }
    }

    /// Begins anew, at the first.
    pub fn begin(&mut self)
        ensures { self.new ≡ begun self.old }
    {
        self.process = 0;
    }

    /// Loads the announcement of the next process, in this call or for a transfer alone: one atomic step of one word.
    ///
    /// The condition is that the seat's process makes this load next; so there is a next process.
    pub fn step<L: Ledger>(
        &mut self,
        table: &PoolTable,
        seat: &mut PoolSeat,
        call: Option<Call>,
        steps: &mut Steps<L>,
    ) -> Announced
        requires may { MayStep self.old.sizes (about_of call Take) table.now seat.old steps.old }
        requires hears { CanHear (about_of call Take) seat.old.view self.old }
        ensures one { OneStep seat.old seat.new steps.old steps.new }
        ensures heard { HasHeard (about_of call Take) seat.old.view self.old seat.new.view self.new result }
    {
        // In the middle of a transfer its wish isn't looked at.
        let about = about_of(call, Wish::Take);
        let process = self.process;
        let action = load_of_announcement(process);
        let word = act(&about, action, &self.shape, table, seat, steps);
        self.process = process + 1;
        Announced::read(word)
    }
}
