// The timers of a wheel at their places, and the lists in which they stand.
ghost use Rattle.std.specs.Prelude.{◌≡◌, ◌↔◌, ◌+◌, ◌*◌, ◌%◌, ◌≤◌, ◌<◌, ◌^◌, ◌++◌, ◌∷◌, ℕ, None, IfOk, IfSome, IsSome, [], length};
ghost use Rattle.std.specs.Prelude.{filter, replicate, slice_index, slice_set};
ghost use Rattle.word_layout.specs.Packing.{most_age};
ghost use Rattle.block_pool.specs.Passing.{HasAge, IsOf};
ghost use Rattle.object_store.specs.Calls.{CountedWithin};
ghost use Rattle.timer_wheel.specs.declared.key.Started.TheVariants as started;
ghost use Rattle.timer_wheel.specs.declared.changes.Change.TheVariants.{Ended};
ghost use Rattle.timer_wheel.specs.Backs.{AreBacks, backed};
ghost use Rattle.timer_wheel.specs.Places.{AreApart, ends_at, ends_cut, ends_joined, in_list, relinked, running_of, value_at};
ghost use Rattle.timer_wheel.specs.Ringing.{HandedOut, not_due_at, rung_at};
ghost use Rattle.timer_wheel.specs.Serving.{AreHeld, Serves};
ghost use Rattle.timer_wheel.specs.Spots.{BeganSo, FoundAmong, FoundIn, GoesOn, HasNumber, IsSpot};
ghost use Rattle.timer_wheel.specs.Starting.{PutSo};
ghost use Rattle.timer_wheel.specs.Tables.{AreBelow, IsSmall, IsTable};

use crate::chain::{Chain, Spot};
use crate::changes::{Change, Changes, Placed};
use crate::key::{Key, Started};
use crate::record::TimerRecord;
use crate::steps::{read, relink};
use block_pool::Pass;
use object_store::{Object, Put, Store};
use pool_model::NoMemory;
use std::alloc::Global;
use step_counter::{Ledger, Steps};

/// The places of a wheel and its lists.
#[derive(Drop)]
pub(crate) struct Table {
    /// What stands at each place.
    pub(crate) places: Vec<Option<Object<TimerRecord>>>,
    /// The free places, from the number of running timers on.
    pub(crate) free: Vec<u32>,
    pub(crate) running: usize,
    /// In list k stand the timers whose due leaves k when it is divided by the number of lists, in the order of starts.
    pub(crate) lists: Vec<Chain>,
    /// The link from the timer at each place to the one before it in its list.
    pub(crate) backs: Vec<u64>,
    pub(crate) changes: Changes,
}

impl Table {
    /// A table with so many empty lists, at whose places nothing stands.
    pub(crate) fn open(alloc: Global, lists: u32, room: u32) -> Result<Table, NoMemory>
        requires lists { 1 ≤ lists }
        ensures table { IfOk result (λ table. IsTable table.places.items table.free.items table.lists.items [] table.running) }
        ensures places { IfOk result (λ table. table.places.items ≡ replicate room None) }
        ensures lists { IfOk result (λ table. length table.lists.items ≡ lists) }
        ensures backs { IfOk result (λ table. AreBacks table.backs.items room lists []) }
        ensures changes { IfOk result (λ table. table.changes ≡ []) }
    {
        Ok(Table {
            places: empty_places(alloc, room as usize)?,
            free: all_places(alloc, room)?,
            running: 0,
            lists: empty_lists(alloc, lists)?,
            backs: no_backs(alloc, room as usize)?,
            changes: Changes::new(),
        })
    }

    /// The list in which a timer stands that is due then.
    pub(crate) fn list_of(&self, due: u64) -> usize
        requires some { 1 ≤ length self.now.lists.items }
        ensures { result ≡ due % length self.now.lists.items }
    {
        (due % self.lists.len() as u64) as usize
    }

    /// Starts a timer, at the end of its list. At most a quantum of steps and thirteen.
    pub(crate) fn start<L: Ledger>(
        &mut self,
        store: &Store<'_, TimerRecord>,
        pass: &mut Pass,
        timer: TimerRecord,
        steps: &mut Steps<L>,
    ) -> Started
        requires pass { IsOf store.now pass.old }
        requires young { HasAge pass.old }
        requires held { AreHeld self.old.places.items pass.old }
        requires table { IsTable self.old.places.items self.old.free.items self.old.lists.items
            (running_of self.old.changes) self.old.running }
        requires backs { AreBacks self.old.backs.items (length self.old.places.items) (length self.old.lists.items)
            (running_of self.old.changes) }
        requires small { IsSmall self.old.places.items self.old.lists.items }
        requires below { AreBelow timer.number (running_of self.old.changes) }
        requires last { timer.next ≡ 0 }
        requires room { steps.old + pass.old.sizes.quantum + 13 < 2 ^ 64 }
        ensures table { IsTable self.new.places.items self.new.free.items self.new.lists.items
            (running_of self.new.changes) self.new.running }
        ensures backs { AreBacks self.new.backs.items (length self.new.places.items) (length self.new.lists.items)
            (running_of self.new.changes) }
        ensures room { length self.new.places.items ≡ length self.old.places.items }
        ensures lists { length self.new.lists.items ≡ length self.old.lists.items }
        ensures crowded { (result ≡ started.Crowded) ↔ (self.old.running ≡ length self.old.places.items) }
        ensures began { BeganSo result timer self.old.changes self.new.changes }
        ensures put { PutSo result pass.old pass.new }
        ensures serves { Serves (pass.old.sizes.quantum + 13) 1 steps.old steps.new self.old.places.items self.new.places.items
            self.old.running self.new.running pass.old pass.new }
    {
        if self.running == self.places.len() {
            return Started::Crowded;
        }
        match store.put(pass, timer, steps) {
            Put::Full(_) => Started::Full,
            Put::Stored(object) => {
                let place = self.free[self.running];
                self.places[place as usize] = Some(object);
                let list = self.list_of(timer.due);
                self.append(store, pass, list, place as u64 + 1, steps);
                self.running += 1;
                self.changes.note(Change::Began(Placed {
                    number: timer.number,
                    due: timer.due,
                    payload: timer.payload,
                    place,
                }));
                Started::Running(Key {
                    number: timer.number,
                    place,
                })
            }
        }
    }

    /// Puts the timer to which a link leads at the end of a list. At most eight steps.
    fn append<L: Ledger>(
        &mut self,
        store: &Store<'_, TimerRecord>,
        pass: &mut Pass,
        list: usize,
        link: u64,
        steps: &mut Steps<L>,
    )
        requires pass { IsOf store.now pass.old }
        requires held { AreHeld self.old.places.items pass.old }
        requires apart { AreApart self.old.places.items }
        requires list { list < length self.old.lists.items }
        requires last { (ends_at self.old.lists.items list).last ≤ length self.old.places.items }
        requires link { link ≤ length self.old.backs.items }
        requires room { steps.old + 8 < 2 ^ 64 }
        ensures places { self.new.places.items ≡ relinked (ends_at self.old.lists.items list).last link self.old.places.items }
        ensures lists { self.new.lists.items ≡ slice_set self.old.lists.items list
            (ends_joined link (ends_at self.old.lists.items list)) }
        ensures backs { self.new.backs.items ≡ backed link (ends_at self.old.lists.items list).last self.old.backs.items }
        ensures others { self.new ≡ record self.old { places = self.new.places; lists = self.new.lists; backs = self.new.backs } }
        ensures pass { pass.new ≡ record pass.old { moves = pass.new.moves; known = pass.new.known } }
        ensures serves { (running : ℕ) → Serves 8 0 steps.old steps.new self.old.places.items self.new.places.items
            running running pass.old pass.new }
    {
        let Chain { first, last } = self.lists[list];
        relink(store, pass, self.places.as_mut_slice(), last, link, steps);
        lead_back(self.backs.as_mut_slice(), link, last);
        self.lists[list] = Chain {
            first: if last == 0 { link } else { first },
            last: link,
        };
    }

    /// Takes the timer that stands between two links out of its list. At most eight steps.
    fn cut<L: Ledger>(
        &mut self,
        store: &Store<'_, TimerRecord>,
        pass: &mut Pass,
        list: usize,
        before: u64,
        next: u64,
        steps: &mut Steps<L>,
    )
        requires pass { IsOf store.now pass.old }
        requires held { AreHeld self.old.places.items pass.old }
        requires apart { AreApart self.old.places.items }
        requires list { list < length self.old.lists.items }
        requires before { before ≤ length self.old.places.items }
        requires next { next ≤ length self.old.backs.items }
        requires room { steps.old + 8 < 2 ^ 64 }
        ensures places { self.new.places.items ≡ relinked before next self.old.places.items }
        ensures lists { self.new.lists.items ≡ slice_set self.old.lists.items list
            (ends_cut before next (ends_at self.old.lists.items list)) }
        ensures backs { self.new.backs.items ≡ backed next before self.old.backs.items }
        ensures others { self.new ≡ record self.old { places = self.new.places; lists = self.new.lists; backs = self.new.backs } }
        ensures pass { pass.new ≡ record pass.old { moves = pass.new.moves; known = pass.new.known } }
        ensures serves { (running : ℕ) → Serves 8 0 steps.old steps.new self.old.places.items self.new.places.items
            running running pass.old pass.new }
    {
        relink(store, pass, self.places.as_mut_slice(), before, next, steps);
        lead_back(self.backs.as_mut_slice(), next, before);
        let Chain { first, last } = self.lists[list];
        self.lists[list] = Chain {
            first: if before == 0 { next } else { first },
            last: if next == 0 { before } else { last },
        };
    }

    /// Finds the running timer with a number in a list, by a walk along it. At most four steps for each timer of the list.
    pub(crate) fn find_in<L: Ledger>(
        &self,
        store: &Store<'_, TimerRecord>,
        pass: &mut Pass,
        list: usize,
        number: u64,
        steps: &mut Steps<L>,
    ) -> Option<Spot>
        requires pass { IsOf store.now pass.old }
        requires held { AreHeld self.now.places.items pass.old }
        requires table { IsTable self.now.places.items self.now.free.items self.now.lists.items
            (running_of self.now.changes) self.now.running }
        requires list { list < length self.now.lists.items }
        requires room { steps.old + 4 * length (in_list (length self.now.lists.items) list (running_of self.now.changes)) < 2 ^ 64 }
        ensures found { FoundIn number self.now.places.items (length self.now.lists.items) list
            (running_of self.now.changes) result }
        ensures pass { pass.new ≡ record pass.old { moves = pass.new.moves } }
        ensures steps { CountedWithin 0 (4 * length (in_list (length self.now.lists.items) list (running_of self.now.changes)))
            steps.old steps.new pass.old pass.new }
    {
        let mut before = 0;
        let mut at = self.lists[list].first;
        'walk: while at != 0 {
            let place = (at - 1) as usize;
            let timer = read(store, pass, self.places.as_slice(), place, steps)?;
            if timer.number == number {
                return Some(Spot {
                    list,
                    before,
                    place,
                    timer,
                });
            }
            before = at;
            at = timer.next;
        }
        None
    }

    /// The spot of the timer at a key's place, if that one has the key's number. At most four steps: the link back tells the
    /// timer before it.
    fn hint<L: Ledger>(
        &self,
        store: &Store<'_, TimerRecord>,
        pass: &mut Pass,
        key: Key,
        steps: &mut Steps<L>,
    ) -> Option<Spot>
        requires pass { IsOf store.now pass.old }
        requires held { AreHeld self.now.places.items pass.old }
        requires table { IsTable self.now.places.items self.now.free.items self.now.lists.items
            (running_of self.now.changes) self.now.running }
        requires backs { AreBacks self.now.backs.items (length self.now.places.items) (length self.now.lists.items)
            (running_of self.now.changes) }
        requires room { steps.old + 4 < 2 ^ 64 }
        ensures there { HasNumber key.number (value_at self.now.places.items key.place) ↔ IsSome result }
        ensures spot { IfSome result (λ spot. IsSpot self.now.places.items (length self.now.lists.items)
            (running_of self.now.changes) spot) }
        ensures number { IfSome result (λ spot. spot.timer.number ≡ key.number) }
        ensures pass { pass.new ≡ record pass.old { moves = pass.new.moves } }
        ensures steps { CountedWithin 0 4 steps.old steps.new pass.old pass.new }
    {
        let place = key.place as usize;
        let timer = read(store, pass, self.places.as_slice(), place, steps)?;
        if timer.number != key.number {
            return None;
        }
        Some(Spot {
            list: self.list_of(timer.due),
            before: self.backs[place],
            place,
            timer,
        })
    }

    /// Finds the running timer with a number, in whatever list. At most four steps for each running timer.
    fn find_among<L: Ledger>(
        &self,
        store: &Store<'_, TimerRecord>,
        pass: &mut Pass,
        number: u64,
        steps: &mut Steps<L>,
    ) -> Option<Spot>
        requires pass { IsOf store.now pass.old }
        requires held { AreHeld self.now.places.items pass.old }
        requires table { IsTable self.now.places.items self.now.free.items self.now.lists.items
            (running_of self.now.changes) self.now.running }
        requires room { steps.old + 4 * self.now.running < 2 ^ 64 }
        ensures found { FoundAmong number self.now.places.items (length self.now.lists.items)
            (running_of self.now.changes) result }
        ensures pass { pass.new ≡ record pass.old { moves = pass.new.moves } }
        ensures steps { CountedWithin 0 (4 * self.now.running) steps.old steps.new pass.old pass.new }
    {
        for list in 0..self.lists.len() {
            if let Some(spot) = self.find_in(store, pass, list, number, steps) {
                return Some(spot);
            }
        }
        None
    }

    /// Finds the running timer with a key: at the key's place where that one has its number, in four steps and without a
    /// walk, and else in all lists, in at most four steps for each running timer, and four.
    pub(crate) fn find<L: Ledger>(
        &self,
        store: &Store<'_, TimerRecord>,
        pass: &mut Pass,
        key: Key,
        steps: &mut Steps<L>,
    ) -> Option<Spot>
        requires pass { IsOf store.now pass.old }
        requires held { AreHeld self.now.places.items pass.old }
        requires table { IsTable self.now.places.items self.now.free.items self.now.lists.items
            (running_of self.now.changes) self.now.running }
        requires backs { AreBacks self.now.backs.items (length self.now.places.items) (length self.now.lists.items)
            (running_of self.now.changes) }
        requires room { steps.old + 4 * self.now.running + 4 < 2 ^ 64 }
        ensures found { FoundAmong key.number self.now.places.items (length self.now.lists.items)
            (running_of self.now.changes) result }
        ensures pass { pass.new ≡ record pass.old { moves = pass.new.moves } }
        ensures steps { CountedWithin 0 (4 * self.now.running + 4) steps.old steps.new pass.old pass.new }
        ensures at_once { HasNumber key.number (value_at self.now.places.items key.place)
            → CountedWithin 0 4 steps.old steps.new pass.old pass.new }
    {
        match self.hint(store, pass, key, steps) {
            Some(spot) => Some(spot),
            None => self.find_among(store, pass, key.number, steps),
        }
    }

    /// Takes a timer out of its list and out of the store. At most a quantum of steps and thirteen.
    pub(crate) fn remove<L: Ledger>(
        &mut self,
        store: &Store<'_, TimerRecord>,
        pass: &mut Pass,
        spot: Spot,
        steps: &mut Steps<L>,
    )
        requires pass { IsOf store.now pass.old }
        requires young { HasAge pass.old }
        requires held { AreHeld self.old.places.items pass.old }
        requires table { IsTable self.old.places.items self.old.free.items self.old.lists.items
            (running_of self.old.changes) self.old.running }
        requires backs { AreBacks self.old.backs.items (length self.old.places.items) (length self.old.lists.items)
            (running_of self.old.changes) }
        requires small { IsSmall self.old.places.items self.old.lists.items }
        requires spot { IsSpot self.old.places.items (length self.old.lists.items) (running_of self.old.changes) spot }
        requires room { steps.old + pass.old.sizes.quantum + 13 < 2 ^ 64 }
        ensures table { IsTable self.new.places.items self.new.free.items self.new.lists.items
            (running_of self.new.changes) self.new.running }
        ensures backs { AreBacks self.new.backs.items (length self.new.places.items) (length self.new.lists.items)
            (running_of self.new.changes) }
        ensures room { length self.new.places.items ≡ length self.old.places.items }
        ensures lists { length self.new.lists.items ≡ length self.old.lists.items }
        ensures fewer { self.new.running + 1 ≡ self.old.running }
        ensures ended { self.new.changes ≡ self.old.changes ++ Ended spot.timer.number ∷ [] }
        ensures goes_on { GoesOn spot self.new.places.items (length self.old.lists.items)
            (running_of self.old.changes) (running_of self.new.changes) }
        ensures serves { Serves (pass.old.sizes.quantum + 13) 1 steps.old steps.new self.old.places.items self.new.places.items
            self.old.running self.new.running pass.old pass.new }
    {
        let Spot {
            list,
            before,
            place,
            timer,
        } = spot;
        self.cut(store, pass, list, before, timer.next, steps);
        if let Some(object) = self.places[place].take() {
            let _ = store.take(pass, object, steps);
        }
        self.running -= 1;
        self.free[self.running] = place as u32;
        self.changes.note(Change::Ended(timer.number));
    }

    /// Hands out the timers that are due at a moment, in the order of their starts, and removes them. It answers how many
    /// they are.
    pub(crate) fn ring<L: Ledger>(
        &mut self,
        store: &Store<'_, TimerRecord>,
        pass: &mut Pass,
        moment: u64,
        out: &mut [u64],
        steps: &mut Steps<L>,
    ) -> u32
        requires pass { IsOf store.now pass.old }
        requires young { pass.old.age + self.old.running ≤ most_age pass.old.sizes }
        requires held { AreHeld self.old.places.items pass.old }
        requires table { IsTable self.old.places.items self.old.free.items self.old.lists.items
            (running_of self.old.changes) self.old.running }
        requires backs { AreBacks self.old.backs.items (length self.old.places.items) (length self.old.lists.items)
            (running_of self.old.changes) }
        requires small { IsSmall self.old.places.items self.old.lists.items }
        requires out { self.old.running ≤ length out.old }
        requires room { steps.old + self.old.running * (pass.old.sizes.quantum + 17) < 2 ^ 64 }
        ensures table { IsTable self.new.places.items self.new.free.items self.new.lists.items
            (running_of self.new.changes) self.new.running }
        ensures backs { AreBacks self.new.backs.items (length self.new.places.items) (length self.new.lists.items)
            (running_of self.new.changes) }
        ensures room { length self.new.places.items ≡ length self.old.places.items }
        ensures lists { length self.new.lists.items ≡ length self.old.lists.items }
        ensures left { running_of self.new.changes ≡ filter (not_due_at moment) (running_of self.old.changes) }
        ensures rung { HandedOut (rung_at moment (running_of self.old.changes)) out.old out.new result }
        ensures serves { Serves (self.old.running * (pass.old.sizes.quantum + 17)) self.old.running steps.old steps.new
            self.old.places.items self.new.places.items self.old.running self.new.running pass.old pass.new }
    {
        let list = self.list_of(moment);
        let mut count = 0;
        let mut before = 0;
        let mut at = self.lists[list].first;
        'walk: while at != 0 {
            let place = (at - 1) as usize;
            let Some(timer) = read(store, pass, self.places.as_slice(), place, steps) else {
                return count;
            };
            if timer.due == moment {
                out[count as usize] = timer.payload;
                count += 1;
                let spot = Spot {
                    list,
                    before,
                    place,
                    timer,
                };
                self.remove(store, pass, spot, steps);
                at = timer.next;
                continue;
            }
            before = at;
            at = timer.next;
        }
        count
    }
}

/// So many places, at which nothing stands.
fn empty_places(alloc: Global, room: usize) -> Result<Vec<Option<Object<TimerRecord>>>, NoMemory>
    ensures { IfOk result (λ places. places.items ≡ replicate room None) }
{
    let mut places = Vec::with_capacity(alloc, room)?;
    for _place in 0..room {
        places.push(None)?;
    }
    Ok(places)
}

/// The numbers of so many places.
fn all_places(alloc: Global, room: u32) -> Result<Vec<u32>, NoMemory>
    ensures many { IfOk result (λ free. length free.items ≡ room) }
    ensures each { IfOk result (λ free. (i : ℕ) → i < room → slice_index free.items i ≡ i) }
{
    let mut free = Vec::with_capacity(alloc, room as usize)?;
    for place in 0..room {
        free.push(place)?;
    }
    Ok(free)
}

/// So many empty lists.
fn empty_lists(alloc: Global, lists: u32) -> Result<Vec<Chain>, NoMemory>
    ensures { IfOk result (λ made. made.items ≡ replicate lists (record { first = 0; last = 0 })) }
{
    let mut made = Vec::with_capacity(alloc, lists as usize)?;
    for _list in 0..lists {
        made.push(Chain { first: 0, last: 0 })?;
    }
    Ok(made)
}

/// So many places, at which no timer has one before it.
fn no_backs(alloc: Global, room: usize) -> Result<Vec<u64>, NoMemory>
    ensures { IfOk result (λ backs. length backs.items ≡ room) }
{
    let mut backs = Vec::with_capacity(alloc, room)?;
    for _place in 0..room {
        backs.push(0)?;
    }
    Ok(backs)
}

/// The timer to which a link leads has another one before it now. 0 leads to none.
fn lead_back(backs: &mut [u64], link: u64, before: u64)
    requires link { link ≤ length backs.old }
    ensures { backs.new ≡ backed link before backs.old }
{
    if link != 0 {
        backs[(link - 1) as usize] = before;
    }
}
