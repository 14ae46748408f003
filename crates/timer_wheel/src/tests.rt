// Tables of calls on a wheel, each call with its answer. Each table is played with several numbers of lists, which change no
// answer.
ghost use Rattle.std.specs.Prelude.{◌≡◌, ◌+◌, ◌≤◌, ◌<◌, ◌^◌, length};
ghost use Rattle.block_pool.specs.Calls.{SamePass};
ghost use Rattle.block_pool.specs.Passing.{IsOf};
ghost use Rattle.timer_wheel.specs.Views.{HoldsAll};

use crate::{Key, Started, TimerRecord, Wheel};
use block_pool::{Pass, Pool};
use object_store::Store;
use std::alloc::Global;
use std::process::Abort;
use std::test::Fail;
use step_counter::{Kept, Steps};
use word_layout::Shape;

/// A call on a wheel.
#[derive(Clone, Copy, Debug, PartialEq, Eq)]
enum Call {
    /// A start with a delay and a payload.
    Start(u64, u64),
    /// A stop with the key that the start with this number gave, and else with a key of this number at place 0.
    Stop(u64),
    /// A stop with a key of a number and a place.
    StopAt(u64, u32),
    Tick,
}

/// How a call is answered.
#[derive(Clone, Copy, Debug, PartialEq, Eq)]
enum Answer {
    /// The timer runs, with this number.
    Number(u64),
    Crowded,
    Full,
    Stopped(Option<u64>),
    /// So many payloads were handed out.
    Rung(usize),
}

/// A call, its answer, and what it hands out.
type Row = (Call, Answer, &'static [u64]);

fn starts(delay: u64, payload: u64, number: u64) -> Row {
    (Call::Start(delay, payload), Answer::Number(number), &[])
}

fn stops(number: u64, payload: u64) -> Row {
    (Call::Stop(number), Answer::Stopped(Some(payload)), &[])
}

fn stops_none(number: u64) -> Row {
    (Call::Stop(number), Answer::Stopped(None), &[])
}

fn stops_at(number: u64, place: u32, payload: Option<u64>) -> Row {
    (Call::StopAt(number, place), Answer::Stopped(payload), &[])
}

fn is_refused(delay: u64, payload: u64, answer: Answer) -> Row {
    (Call::Start(delay, payload), answer, &[])
}

fn rings(payloads: &'static [u64]) -> Row {
    (Call::Tick, Answer::Rung(payloads.len()), payloads)
}

/// Starts a timer, and notes its key by its number.
fn start(
    rt: &impl Abort,
    pool: &Pool,
    pass: &mut Pass,
    wheel: &mut Wheel,
    keys: &mut [Option<Key>],
    delay: u64,
    payload: u64,
) -> Answer
    requires pass { IsOf pool.now pass.old }
    requires words { 4 ≤ pool.now.sizes.words }
    requires holds { HoldsAll wheel.old.objects pass.old }
    requires few { wheel.old.timers.started + 1 < 2 ^ 64 }
    ensures pass { SamePass pass.old pass.new }
    ensures holds { HoldsAll wheel.new.objects pass.new }
    ensures started { wheel.new.timers.started ≤ wheel.old.timers.started + 1 }
    ensures keys { length keys.new ≡ length keys.old }
{
    assert!(rt; pass.has_age());
    assert!(rt; delay >= 1 && delay <= u64::MAX - wheel.now());
    let _quantum = pool.shape().quantum();
    let mut steps = Steps::new(Kept::new());
    match wheel.start(&Store::new(pool), pass, delay, payload, &mut steps) {
        Started::Crowded => Answer::Crowded,
        Started::Full => Answer::Full,
        Started::Running(key) => {
            if key.number < keys.len() as u64 {
                keys[key.number as usize] = Some(key);
            }
            Answer::Number(key.number)
        }
    }
}

/// Stops the timer with a key.
fn stop(rt: &impl Abort, pool: &Pool, pass: &mut Pass, wheel: &mut Wheel, key: Key) -> Answer
    requires pass { IsOf pool.now pass.old }
    requires words { 4 ≤ pool.now.sizes.words }
    requires holds { HoldsAll wheel.old.objects pass.old }
    ensures pass { SamePass pass.old pass.new }
    ensures holds { HoldsAll wheel.new.objects pass.new }
    ensures started { wheel.new.timers.started ≡ wheel.old.timers.started }
{
    assert!(rt; pass.has_age());
    let _quantum = pool.shape().quantum();
    let _running = wheel.running();
    let mut steps = Steps::new(Kept::new());
    Answer::Stopped(wheel.stop(&Store::new(pool), pass, key, &mut steps))
}

/// Makes a tick. What it hands out are the first items of the output.
fn tick(rt: &impl Abort, pool: &Pool, pass: &mut Pass, wheel: &mut Wheel, out: &mut [u64]) -> Answer
    requires pass { IsOf pool.now pass.old }
    requires words { 4 ≤ pool.now.sizes.words }
    requires holds { HoldsAll wheel.old.objects pass.old }
    ensures pass { SamePass pass.old pass.new }
    ensures holds { HoldsAll wheel.new.objects pass.new }
    ensures started { wheel.new.timers.started ≡ wheel.old.timers.started }
    ensures out { length out.new ≡ length out.old }
{
    let running = wheel.running();
    assert!(rt; running < 100 && running as usize <= out.len());
    assert!(rt; wheel.now() < u64::MAX);
    assert!(rt; pass.age() < 1_000_000);
    let _age = pool.shape().most_age();
    let _quantum = pool.shape().quantum();
    let mut steps = Steps::new(Kept::new());
    Answer::Rung(wheel.tick(&Store::new(pool), pass, out, &mut steps) as usize)
}

/// The key with a number that was noted, and else one with the number at place 0.
fn key_of(keys: &[Option<Key>], number: u64) -> Key {
    if number < keys.len() as u64 {
        if let Some(key) = keys[number as usize] {
            return key;
        }
    }
    Key { number, place: 0 }
}

/// Makes a call.
fn make(
    rt: &impl Abort,
    pool: &Pool,
    pass: &mut Pass,
    wheel: &mut Wheel,
    keys: &mut [Option<Key>],
    call: Call,
    out: &mut [u64],
) -> Answer
    requires pass { IsOf pool.now pass.old }
    requires words { 4 ≤ pool.now.sizes.words }
    requires holds { HoldsAll wheel.old.objects pass.old }
    requires few { wheel.old.timers.started + 1 < 2 ^ 64 }
    ensures pass { SamePass pass.old pass.new }
    ensures holds { HoldsAll wheel.new.objects pass.new }
    ensures started { wheel.new.timers.started ≤ wheel.old.timers.started + 1 }
    ensures out { length out.new ≡ length out.old }
    ensures keys { length keys.new ≡ length keys.old }
{
    match call {
        Call::Start(delay, payload) => start(rt, pool, pass, wheel, keys, delay, payload),
        Call::Stop(number) => stop(rt, pool, pass, wheel, key_of(keys, number)),
        Call::StopAt(number, place) => stop(rt, pool, pass, wheel, Key { number, place }),
        Call::Tick => tick(rt, pool, pass, wheel, out),
    }
}

/// Plays a table on a wheel with so many lists. It compares each answer, and all that is handed out.
fn play_rows(
    rt: &impl Abort,
    pool: &Pool,
    pass: &mut Pass,
    wheel: &mut Wheel,
    rows: &[Row],
    lists: u32,
)
    requires pass { IsOf pool.now pass.old }
    requires words { 4 ≤ pool.now.sizes.words }
    requires holds { HoldsAll wheel.old.objects pass.old }
    requires few { wheel.old.timers.started + length rows.now < 2 ^ 64 }
{
    let mut keys = [None; 64];
    let mut out = [9_999; 64];
    for (call, answer, handed) in rows {
        let made = make(rt, pool, pass, wheel, &mut keys, *call, &mut out);
        assert_eq!(rt; made, *answer, "{call:?} with {lists} lists");
        assert!(rt; out.starts_with(handed), "{call:?} with {lists} lists");
    }
}

/// Plays a table on a wheel of its own, with so many lists and so much room, in a pool of one process with so many batches.
/// It compares how many timers run in the end, and at which moment.
fn play(
    rt: &impl Abort,
    alloc: Global,
    (batches, lists, room): (u32, u32, u32),
    rows: &[Row],
    ending: (u32, u64),
) -> Result<(), Fail> {
    assert!(rt; lists >= 1 && lists <= 4_096 && room >= 1 && room <= 1_000 && rows.len() < 1_000);
    let shape = Shape::new(1, batches, 4)?;
    let (pool, mut passes) = Pool::open(alloc, &shape)?;
    let mut wheel = Wheel::open(alloc, lists, room)?;
    assert!(rt; rows.len() < 1_000);
    play_rows(rt, &pool, &mut passes[0], &mut wheel, rows, lists);
    assert_eq!(rt;
        (wheel.running(), wheel.now()),
        ending,
        "with {lists} lists"
    );
    Ok(())
}

/// Plays a table with several numbers of lists: with one, and with so few that they wrap.
fn play_each(
    rt: &impl Abort,
    alloc: Global,
    batches: u32,
    room: u32,
    rows: &[Row],
    ending: (u32, u64),
) -> Result<(), Fail> {
    for lists in [1, 2, 3, 4, 4_096] {
        play(rt, alloc, (batches, lists, room), rows, ending)?;
    }
    Ok(())
}

#[test]
fn those_of_one_moment_in_the_order_of_starts(rt: HostRuntime) -> Result<(), Fail> {
    let rows = [
        starts(1, 10, 0),
        starts(5, 20, 1),
        starts(1, 30, 2),
        rings(&[10, 30]),
        rings(&[]),
        rings(&[]),
        rings(&[]),
        rings(&[20]),
    ];
    play_each(&rt, rt.alloc(), 4, 8, &rows, (0, 5))
}

#[test]
fn a_crowded_wheel(rt: HostRuntime) -> Result<(), Fail> {
    let rows = [
        starts(3, 1, 0),
        starts(3, 2, 1),
        is_refused(3, 3, Answer::Crowded),
        stops(0, 1),
        stops_none(0),
        starts(3, 4, 2),
        is_refused(1, 5, Answer::Crowded),
        rings(&[]),
        rings(&[]),
        rings(&[2, 4]),
        starts(1, 6, 3),
    ];
    play_each(&rt, rt.alloc(), 4, 2, &rows, (1, 3))
}

// The pool has eight blocks. A ninth timer is refused until one was stopped, and gets the next number then.
#[test]
fn a_full_pool(rt: HostRuntime) -> Result<(), Fail> {
    let rows = [
        starts(1, 100, 0),
        starts(2, 101, 1),
        starts(3, 102, 2),
        starts(4, 103, 3),
        starts(5, 104, 4),
        starts(6, 105, 5),
        starts(7, 106, 6),
        starts(8, 107, 7),
        is_refused(1, 108, Answer::Full),
        stops(3, 103),
        starts(1, 109, 8),
        is_refused(1, 110, Answer::Full),
        rings(&[100, 109]),
        rings(&[101]),
        rings(&[102]),
        rings(&[]),
        rings(&[104]),
    ];
    play_each(&rt, rt.alloc(), 2, 16, &rows, (3, 5))?;
    // A wheel without room for more is crowded, however full the pool is.
    let rows = [
        starts(1, 100, 0),
        starts(2, 101, 1),
        starts(3, 102, 2),
        starts(4, 103, 3),
        starts(5, 104, 4),
        starts(6, 105, 5),
        starts(7, 106, 6),
        starts(8, 107, 7),
        is_refused(1, 108, Answer::Crowded),
    ];
    play_each(&rt, rt.alloc(), 2, 8, &rows, (8, 0))
}

#[test]
fn timers_are_started_while_the_lists_wrap(rt: HostRuntime) -> Result<(), Fail> {
    let rows = [
        starts(2, 1, 0),
        rings(&[]),
        starts(2, 2, 1),
        rings(&[1]),
        starts(3, 3, 2),
        starts(1, 4, 3),
        rings(&[2, 4]),
        starts(4, 5, 4),
        rings(&[]),
        rings(&[3]),
        starts(1, 6, 5),
        rings(&[6]),
        rings(&[5]),
    ];
    play_each(&rt, rt.alloc(), 4, 6, &rows, (0, 7))
}

// With four lists the delays 1, 5, 9 and 13 share a list.
#[test]
fn delays_beyond_a_turn_of_the_lists(rt: HostRuntime) -> Result<(), Fail> {
    let rows = [
        starts(9, 90, 0),
        starts(1, 10, 1),
        starts(5, 50, 2),
        starts(13, 130, 3),
        starts(1, 11, 4),
        starts(9, 91, 5),
        starts(u64::MAX, u64::MAX, 6),
        rings(&[10, 11]),
        rings(&[]),
        rings(&[]),
        rings(&[]),
        rings(&[50]),
        rings(&[]),
        rings(&[]),
        rings(&[]),
        rings(&[90, 91]),
        rings(&[]),
        rings(&[]),
        rings(&[]),
        rings(&[130]),
        stops(6, u64::MAX),
    ];
    play_each(&rt, rt.alloc(), 4, 8, &rows, (0, 13))
}

// A timer that is started after a stop or a tick gets the place and the block of the one that ended.
#[test]
fn a_stale_key_stops_no_other_timer(rt: HostRuntime) -> Result<(), Fail> {
    let rows = [
        starts(2, 7, 0),
        stops(0, 7),
        starts(2, 8, 1),
        stops_none(0),
        rings(&[]),
        rings(&[8]),
        stops_none(1),
        starts(1, 9, 2),
        stops_none(1),
        stops_none(0),
        rings(&[9]),
    ];
    play_each(&rt, rt.alloc(), 2, 8, &rows, (0, 3))
}

#[test]
fn keys_that_were_never_given(rt: HostRuntime) -> Result<(), Fail> {
    let rows = [
        stops_at(0, 0, None),
        starts(1, 1, 0),
        starts(2, 2, 1),
        starts(3, 3, 2),
        starts(3, 4, 3),
        stops_at(9, 0, None),
        stops_at(u64::MAX, u32::MAX, None),
        // A place that isn't the timer's, of another one and of none, changes no answer.
        stops_at(1, 0, Some(2)),
        stops_at(2, u32::MAX, Some(3)),
        rings(&[1]),
        rings(&[]),
        rings(&[4]),
    ];
    play_each(&rt, rt.alloc(), 4, 8, &rows, (0, 3))
}

#[test]
fn the_others_of_a_list_stay_in_order(rt: HostRuntime) -> Result<(), Fail> {
    let rows = [
        starts(3, 1, 0),
        starts(3, 2, 1),
        starts(3, 3, 2),
        starts(3, 4, 3),
        starts(3, 5, 4),
        starts(3, 6, 5),
        // One in the middle, the one behind it, the last and the first.
        stops(2, 3),
        stops(3, 4),
        stops(5, 6),
        stops(0, 1),
        starts(3, 7, 6),
        rings(&[]),
        rings(&[]),
        rings(&[2, 5, 7]),
    ];
    play_each(&rt, rt.alloc(), 4, 6, &rows, (0, 3))
}
