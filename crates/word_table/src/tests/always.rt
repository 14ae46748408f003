// A rule that holds always, under which a seat knows nothing.
ghost use Rattle.std.specs.Prelude.{ℕ, ◌+◌, ◌<◌, ◌^◌};

use crate::{LearnAbout, SeatRule, WordRule, WordSeat, WordTable};
use std::test::Fail;
use std::{mem, thread};
use step_counter::{Kept, Ledger, Quiet, Steps};

struct Always;

impl WordRule for Always {
    type View = ();

    type Key = ();

    ghost holds = { λ _ _. Unit {0} };

    ghost first = { λ _. tt };

    ghost learn = { λ _ _ view. view };
}

impl SeatRule for Always {
    ghost left = { λ view. view };

    ghost right = { λ view. view };

    ghost both = { λ view _. view };

    ghost spent = { tt };
}

impl LearnAbout<(), u8> for Always {
    ghost learn_about = { λ _ _ _ view. view };
}

// On the words 5 and 7: a load, an exchange that hits, and the same again, which misses.
fn loaded_and_exchanged<L: Ledger>(
    rt: &HostRuntime,
    steps: &mut Steps<L>,
) -> Result<(u64, Result<u64, u64>, Result<u64, u64>), Fail>
    requires { steps.old + 3 < 2 ^ 64 }
{
    let words = vec![in rt.alloc(); 5u64, 7]?;
    let (table, mut seat) = WordTable::<Always>::open(rt.alloc(), words, &())?;
    let loaded = table.load(&mut seat, 1, steps);
    let hit = table.compare_exchange(&mut seat, 0, 5, 9, steps);
    let missed = table.compare_exchange(&mut seat, 0, 5, 9, steps);
    Ok((loaded, hit, missed))
}

#[test]
fn two_words_are_loaded_and_exchanged(rt: HostRuntime) -> Result<(), Fail> {
    let expected = (7, Ok(5), Err(9));
    let mut kept = Steps::new(Kept::new());
    assert_eq!(rt; loaded_and_exchanged(&rt, &mut kept)?, expected);
    assert_eq!(rt; kept.count(), 3);
    let mut quiet = Steps::new(Quiet::new());
    assert_eq!(rt; loaded_and_exchanged(&rt, &mut quiet)?, expected);
    assert_eq!(rt;
        (mem::size_of_val(&quiet), mem::size_of::<WordSeat<Always>>()),
        (0, 0)
    );
    Ok(())
}

#[test]
fn a_step_about_a_value_is_one_step(rt: HostRuntime) -> Result<(), Fail> {
    let words = vec![in rt.alloc(); 5u64]?;
    let (table, mut seat) = WordTable::<Always>::open(rt.alloc(), words, &())?;
    let mut steps = Steps::new(Kept::new());
    table.store_with(&mut seat, 0, 6, &1u8, &mut steps);
    let hit = table.compare_exchange_with(&mut seat, 0, 6, 7, &2u8, &mut steps);
    let loaded = table.load_with(&mut seat, 0, &3u8, &mut steps);
    assert_eq!(rt; (hit, loaded, steps.count()), (Ok(6), 7, 3));
    Ok(())
}

#[test]
fn seats_are_split_sent_and_joined(rt: HostRuntime) -> Result<(), Fail> {
    let words = vec![in rt.alloc(); 5u64, 7]?;
    let (table, mut seat) = WordTable::<Always>::open(rt.alloc(), words, &())?;
    let mut steps = Steps::new(Kept::new());
    let mut other = table.split(&mut seat, &mut steps);
    let shared = &table;
    let theirs = move || {
        let mut steps = Steps::new(Quiet::new());
        shared.store(&mut other, 1, 8, &mut steps);
        other
    };
    let (other, ()) = thread::join(&rt, theirs, || ());
    table.join(&mut seat, other, &mut steps);
    assert_eq!(rt;
        (table.load(&mut seat, 1, &mut steps), steps.count()),
        (8, 4)
    );
    Ok(())
}
