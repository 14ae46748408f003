// Two processes: the seat of each is made, each makes a step, and the first takes in the second.
ghost use Rattle.std.specs.Prelude.{◌≡◌, ◌+◌, ◌<◌, ◌^◌, true};
ghost use Rattle.word_layout.specs.Names.{table_words};
ghost use Rattle.word_table.specs.Seats.{SameSeat};
ghost use Rattle.pool_table.specs.Minds.{opening_mind};
ghost use Rattle.pool_table.specs.Steps.{Among, Stepped};

use crate::{About, PoolSeat, PoolTable, act, join_seats, next_seat, open_table};
use pool_model::NoMemory;
use step_counter::{Kept, Steps};
use transfer_machine::Action;
use word_layout::{Announced, Shape, Wish, WordName};

/// The first step of a process that takes a batch outside any call: it announces that.
fn announce(
    shape: &Shape,
    process: u32,
    table: &PoolTable,
    seat: &mut PoolSeat,
    steps: &mut Steps<Kept>,
) -> u64
    requires process { process < shape.now.processes }
    requires seat { seat.old.table ≡ table.now }
    requires words { table.now.words ≡ table_words shape.now }
    requires steps { steps.old + 1 < 2 ^ 64 }
    requires of_process { seat.old.view.of_process ≡ true }
    requires shape { seat.old.view.sizes ≡ shape.now }
    requires mind { seat.old.view.mind ≡ opening_mind shape.now process }
    requires among { Among seat.old.view }
    ensures seat { SameSeat seat.old seat.new }
    ensures steps { steps.new ≡ steps.old + 1 }
    ensures step { Stepped (About.Alone Wish.Take) seat.old.view result seat.new.view }
{
    // The first transfer needs an age that there is.
    let _age = shape.most_age();
    let announced = Announced {
        number: 1,
        wish: Wish::Take,
    };
    let action = Action::Store {
        name: WordName::Announcement { process },
        word: announced.pack(),
    };
    act(
        &About::Alone { wish: Wish::Take },
        action,
        shape,
        table,
        seat,
        steps,
    )
}

#[test]
fn two_processes_step_and_join(rt: HostRuntime) -> Result<(), NoMemory> {
    let Ok(shape) = Shape::new(2, 4, 0) else {
        panic!(rt; "2 processes and 4 batches are refused");
    };
    let mut steps = Steps::new(Kept::new());
    let (table, mut first) = open_table(rt.alloc(), &shape)?;
    let mut second = next_seat(&table, &mut first, &mut steps);
    let words = [
        announce(&shape, 0, &table, &mut first, &mut steps),
        announce(&shape, 1, &table, &mut second, &mut steps),
    ];
    join_seats(&table, &mut first, second, &mut steps);
    assert_eq!(rt; words, [16777216, 16777216]);
    assert_eq!(rt; steps.count(), 5);
    Ok(())
}
