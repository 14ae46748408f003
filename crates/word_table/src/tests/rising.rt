// The worked rule: a word that never falls.
use crate::rising::{look, open, raise};
use std::test::Fail;
use step_counter::{Kept, Steps};

#[test]
fn a_word_rises_where_it_is_what_was_seen(rt: HostRuntime) -> Result<(), Fail> {
    let (table, mut seat) = open(rt.alloc(), 5)?;
    let mut steps = Steps::new(Kept::new());
    let hit = raise(&table, &mut seat, 5, 9, &mut steps);
    let missed = raise(&table, &mut seat, 5, 6, &mut steps);
    let seen = look(&table, &mut seat, &mut steps);
    assert_eq!(rt; (hit, missed, seen, steps.count()), (Ok(5), Err(9), 9, 3));
    Ok(())
}
