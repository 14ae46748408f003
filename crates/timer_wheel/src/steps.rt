// Reads and links of the records at a wheel's places.
ghost use Rattle.std.specs.Prelude.{◌≡◌, ◌+◌, ◌≤◌, ◌<◌, ◌^◌, ℕ, length};
ghost use Rattle.block_pool.specs.Passing.{IsOf};
ghost use Rattle.timer_wheel.specs.Places.{AreApart, relinked, value_at};
ghost use Rattle.timer_wheel.specs.Serving.{AreHeld, Serves, steps_of};

use crate::record::TimerRecord;
use block_pool::Pass;
use object_store::{Object, Store};
use step_counter::{Ledger, Steps};

/// The record at a place, if there is one. Four steps where there is.
pub(crate) fn read<L: Ledger>(
    store: &Store<'_, TimerRecord>,
    pass: &mut Pass,
    places: &[Option<Object<TimerRecord>>],
    place: usize,
    steps: &mut Steps<L>,
) -> Option<TimerRecord>
    requires pass { IsOf store.now pass.old }
    requires held { AreHeld places.now pass.old }
    requires room { steps.old + 4 < 2 ^ 64 }
    ensures value { result ≡ value_at places.now place }
    ensures pass { pass.new ≡ record pass.old { moves = pass.old.moves + steps_of result } }
    ensures steps { steps.new ≡ steps.old + steps_of result }
{
    if place >= places.len() {
        return None;
    }
    match &places[place] {
        None => None,
        Some(object) => Some(store.get(pass, object, steps)),
    }
}

/// What led on from the timer to which `before` leads does so to `next` now. At most eight steps.
pub(crate) fn relink<L: Ledger>(
    store: &Store<'_, TimerRecord>,
    pass: &mut Pass,
    places: &mut [Option<Object<TimerRecord>>],
    before: u64,
    next: u64,
    steps: &mut Steps<L>,
)
    requires pass { IsOf store.now pass.old }
    requires held { AreHeld places.old pass.old }
    requires apart { AreApart places.old }
    requires before { before ≤ length places.old }
    requires room { steps.old + 8 < 2 ^ 64 }
    ensures places { places.new ≡ relinked before next places.old }
    ensures pass { pass.new ≡ record pass.old { moves = pass.new.moves; known = pass.new.known } }
    ensures serves { (running : ℕ) → Serves 8 0 steps.old steps.new places.old places.new running running pass.old pass.new }
{
    if before == 0 {
        return;
    }
    let place = (before - 1) as usize;
    match places[place].take() {
        None => {}
        Some(mut object) => {
            let timer = store.get(pass, &object, steps);
            store.set(pass, &mut object, &TimerRecord { next, ..timer }, steps);
            places[place] = Some(object);
        }
    }
}
