// The wheel, and its calls.
ghost use Rattle.std.specs.Prelude.{◌≡◌, ◌↔◌, ◌+◌, ◌*◌, ◌≤◌, ◌<◌, ◌^◌, ◌++◌, IfOk, IsSome, None, [], drop, length, map};
ghost use Rattle.word_layout.specs.Packing.{most_age};
ghost use Rattle.block_pool.specs.Calls.{SamePass};
ghost use Rattle.block_pool.specs.Passing.{HasAge, IsOf};
ghost use Rattle.object_store.specs.Calls.{CountedWithin};
ghost use Rattle.timer_wheel.specs.declared.key.Started.TheVariants.{Crowded};
ghost use Rattle.timer_wheel.specs.Timers.{opened, payload_of, rung, ticked, without};
ghost use Rattle.timer_wheel.specs.Ringing.{HandedOut};
ghost use Rattle.timer_wheel.specs.Starting.{HasKey, PutSo, after_start};
ghost use Rattle.timer_wheel.specs.Views.{HoldsAll, HoldsAsMany, KeepsElse};

use crate::key::{Key, Started};
use crate::record::TimerRecord;
use crate::table::Table;
use block_pool::Pass;
use object_store::Store;
use pool_model::NoMemory;
use std::alloc::Global;
use std::marker::Model;
use step_counter::{Ledger, Steps};

/// The timers of one process, each in a block of its own. It has a moment, which each tick raises by one, and hands out the
/// payloads of the timers that are due then.
///
/// Clauses see its timers as a list in the order of their starts, and the objects in which they stand. All calls of a wheel
/// are made with the pass that started its timers: it holds their blocks and knows their words, which each call leaves so.
#[derive(Drop)]
pub struct Wheel {
    table: Table,
    moment: u64,
    started: u64,
}

impl Model for Wheel {
    ghost use Rattle.std.specs.Prelude.{length, map};
    ghost use Rattle.timer_wheel.specs.Places.{objects_in, running_of, timer_of};
    ghost use Rattle.timer_wheel.specs.Tables.{AreBelow, IsSmall, IsTable, IsWheel};
    ghost use Rattle.timer_wheel.specs.Views.{WheelView};

    ghost Value = { WheelView };

    ghost view = { λ wheel. record {
      timers = record {
        room = length wheel.table.places.items;
        now = wheel.moment;
        started = wheel.started;
        running = map timer_of (running_of wheel.table.changes);
      };
      objects = objects_in wheel.table.places.items;
    } };

    ghost invariant = { λ wheel. IsWheel wheel.table.places.items wheel.table.free.items wheel.table.lists.items
        wheel.table.backs.items (running_of wheel.table.changes) wheel.table.running wheel.started };
}

impl Wheel {
    /// A wheel with so many lists, 1 to 4096, and room for so many running timers, 1 to 1048576. Its moment is 0, and nothing
    /// runs. It takes all its memory here, and its only error is want of that.
    pub fn open(alloc: Global, lists: u32, room: u32) -> Result<Wheel, NoMemory>
        requires some_list { 1 ≤ lists }
        requires few_lists { lists ≤ 4096 }
        requires some_room { 1 ≤ room }
        requires small_room { room ≤ 1048576 }
        ensures timers { IfOk result (λ wheel. wheel.timers ≡ opened room) }
        ensures objects { IfOk result (λ wheel. wheel.objects ≡ []) }
    {
        Ok(Wheel {
            table: Table::open(alloc, lists, room)?,
            moment: 0,
            started: 0,
        })
    }

    /// How many timers run.
    pub fn running(&self) -> u32
        ensures { result ≡ length self.now.timers.running }
    {
        self.table.running as u32
    }

    /// The moment: how many ticks there were.
    pub fn now(&self) -> u64
        ensures { result ≡ self.now.timers.now }
    {
        self.moment
    }

    /// Starts a timer that is due after so many ticks, at least one. It takes no memory and waits for nobody.
    ///
    /// `Crowded` comes exactly where as many timers run as the wheel has room for, and then nothing is done. Else it makes
    /// one put, and `Full` comes exactly where that was `Full`. In both no timer runs more or less. Where it is `Running`,
    /// the timer has the next number, from 0. It makes at most a quantum of steps and thirteen.
    pub fn start<L: Ledger>(
        &mut self,
        store: &Store<'_, TimerRecord>,
        pass: &mut Pass,
        delay: u64,
        payload: u64,
        steps: &mut Steps<L>,
    ) -> Started
        requires pass { IsOf store.now pass.old }
        requires young { HasAge pass.old }
        requires holds { HoldsAll self.old.objects pass.old }
        requires later { 1 ≤ delay }
        requires moment { self.old.timers.now + delay < 2 ^ 64 }
        requires few { self.old.timers.started + 1 < 2 ^ 64 }
        requires room { steps.old + pass.old.sizes.quantum + 13 < 2 ^ 64 }
        ensures timers { self.new.timers ≡ after_start result delay payload self.old.timers }
        ensures crowded { (result ≡ Crowded) ↔ (length self.old.timers.running ≡ self.old.timers.room) }
        ensures key { HasKey self.old.timers.started result }
        ensures put { PutSo result pass.old pass.new }
        ensures pass { SamePass pass.old pass.new }
        ensures holds { HoldsAll self.new.objects pass.new }
        ensures blocks { HoldsAsMany self.old.timers self.new.timers pass.old pass.new }
        ensures others { KeepsElse self.old.objects self.new.objects pass.old pass.new }
        ensures steps { CountedWithin 0 (pass.old.sizes.quantum + 13) steps.old steps.new pass.old pass.new }
        ensures age { pass.new.age ≤ pass.old.age + 1 }
    {
        let timer = TimerRecord {
            due: self.moment + delay,
            number: self.started,
            payload,
            next: 0,
        };
        match self.table.start(store, pass, timer, steps) {
            Started::Running(key) => {
                self.started += 1;
                Started::Running(key)
            }
            Started::Crowded => Started::Crowded,
            Started::Full => Started::Full,
        }
    }

    /// Stops the running timer with a key: it answers the payload that it would hand out. `None` comes exactly where no
    /// running timer has the key's number, and then nothing changes; the key's place changes no answer. It takes no memory,
    /// waits for nobody, and makes at most eight steps for each running timer, a quantum and thirteen.
    pub fn stop<L: Ledger>(
        &mut self,
        store: &Store<'_, TimerRecord>,
        pass: &mut Pass,
        key: Key,
        steps: &mut Steps<L>,
    ) -> Option<u64>
        requires pass { IsOf store.now pass.old }
        requires young { HasAge pass.old }
        requires holds { HoldsAll self.old.objects pass.old }
        requires room { steps.old + 8 * length self.old.timers.running + pass.old.sizes.quantum + 13 < 2 ^ 64 }
        ensures payload { result ≡ payload_of key.number self.old.timers }
        ensures timers { self.new.timers ≡ without key.number self.old.timers }
        ensures nothing { result ≡ None → self.new ≡ self.old }
        ensures no_call { result ≡ None → pass.new ≡ record pass.old { moves = pass.new.moves } }
        ensures pass { SamePass pass.old pass.new }
        ensures holds { HoldsAll self.new.objects pass.new }
        ensures blocks { HoldsAsMany self.old.timers self.new.timers pass.old pass.new }
        ensures others { KeepsElse self.old.objects self.new.objects pass.old pass.new }
        ensures steps { CountedWithin 0 (8 * length self.old.timers.running + pass.old.sizes.quantum + 13)
            steps.old steps.new pass.old pass.new }
        ensures age { pass.new.age ≤ pass.old.age + 1 }
    {
        match self.table.find(store, pass, key, steps) {
            None => None,
            Some(spot) => {
                self.table.remove(store, pass, spot, steps);
                Some(spot.timer.payload)
            }
        }
    }

    /// Raises the moment by one. The payloads of the timers that are due then are the first items of the output, in the order
    /// of their starts; the other items stay. It answers how many they are, and they run no more. It takes no memory, waits
    /// for nobody, and makes at most a quantum of steps and seventeen for each running timer.
    pub fn tick<L: Ledger>(
        &mut self,
        store: &Store<'_, TimerRecord>,
        pass: &mut Pass,
        out: &mut [u64],
        steps: &mut Steps<L>,
    ) -> u32
        requires pass { IsOf store.now pass.old }
        requires young { pass.old.age + length self.old.timers.running ≤ most_age pass.old.sizes }
        requires holds { HoldsAll self.old.objects pass.old }
        requires out { length self.old.timers.running ≤ length out.old }
        requires moment { self.old.timers.now + 1 < 2 ^ 64 }
        requires room { steps.old + length self.old.timers.running * (pass.old.sizes.quantum + 17) < 2 ^ 64 }
        ensures timers { self.new.timers ≡ ticked self.old.timers }
        ensures rung { HandedOut (rung self.old.timers) out.old out.new result }
        ensures pass { SamePass pass.old pass.new }
        ensures holds { HoldsAll self.new.objects pass.new }
        ensures blocks { HoldsAsMany self.old.timers self.new.timers pass.old pass.new }
        ensures others { KeepsElse self.old.objects self.new.objects pass.old pass.new }
        ensures steps { CountedWithin 0 (length self.old.timers.running * (pass.old.sizes.quantum + 17))
            steps.old steps.new pass.old pass.new }
        ensures age { pass.new.age ≤ pass.old.age + length self.old.timers.running }
    {
        self.moment += 1;
        self.table.ring(store, pass, self.moment, out, steps)
    }
}
