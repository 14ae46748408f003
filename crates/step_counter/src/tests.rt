//! Both ledgers count, and the quiet one has no bytes.

use crate::{Kept, Quiet, Steps};
use std::mem;
use std::test::Fail;

#[test]
fn kept_steps_are_counted_one_by_one(rt: HostRuntime) {
    let mut steps = Steps::new(Kept::default());
    for ticks in [0u64, 1, 2, 3] {
        assert_eq!(rt; steps.count(), ticks);
        steps.tick();
    }
}

#[test]
fn quiet_steps_have_no_bytes(rt: HostRuntime) {
    let mut steps = Steps::new(Quiet::default());
    steps.tick();
    steps.tick();
    assert_eq!(rt; (mem::size_of::<Quiet>(), mem::size_of_val(&steps)), (0, 0));
}

#[test]
fn a_quiet_ledger_has_a_name(rt: HostRuntime) -> Result<(), Fail> {
    assert_eq!(rt;
        format!(in rt.alloc(); "{:?}", Quiet::new())?.as_str(),
        "Quiet"
    );
    Ok(())
}
