use super::{next_number, word};
use crate::{CoreRun, Happened, Kind};
use std::process::Abort;
use std::test::Fail;
use word_layout::{Announced, Reply, Shape, Tagged, Wish, WordName};

/// Steps of one process and one kind, on words that follow one another: the process, the kind, the first
/// place, the tag, and the value of each word after its step.
type Row = (u32, Kind, u32, u64, &'static [u32]);

/// How the last ended transfer of a process was answered.
fn answer(rt: &impl Abort, run: &CoreRun, process: u32) -> Reply {
    assert!(rt; process < run.shape().processes());
    run.view(process).transfer.answer
}

/// Makes the steps of a row. A transfer is begun where its announcement is the next step.
fn make_row(rt: &impl Abort, run: &mut CoreRun, row: &Row) {
    let (by, kind, place, tag, values) = *row;
    assert!(rt; tag < 100 && place < 100);
    for (offset, value) in values.iter().enumerate() {
        assert!(rt; *value < 1 << 24 && offset < 100);
        let expected = Tagged::pack(tag, *value);
        let made = run.move_one(by, Announced::read(expected).wish);
        let after = word(rt, run, place + offset as u32);
        assert_eq!(rt;
            (made, after),
            (Happened::Step(kind), expected),
            "{by} {place} {offset}"
        );
    }
}

/// Makes the steps of a run of two processes, and says how their transfers were answered.
fn answers(rt: &impl Abort, run: &mut CoreRun, rows: &[Row]) -> (Reply, Reply) {
    for row in rows {
        make_row(rt, run, row);
    }
    (answer(rt, run, 0), answer(rt, run, 1))
}

#[test]
fn opening_words(rt: HostRuntime) -> Result<(), Fail> {
    let shape = Shape::new(1, 10, 0)?;
    let run = CoreRun::open(rt.alloc(), &shape)?;
    let rows: [(u32, u64); 6] = [(0, 16777218), (14, 8), (21, 36), (24, 2), (26, 4), (27, 0)];
    for (place, expected) in rows {
        assert_eq!(rt; word(&rt, &run, place), expected, "{place}");
    }
    Ok(())
}

#[test]
fn helping(rt: HostRuntime) -> Result<(), Fail> {
    let shape = Shape::new(2, 6, 0)?;
    let mut run = CoreRun::open(rt.alloc(), &shape)?;
    let rows: [Row; 19] = [
        (0, Kind::K1, 1, 1, &[0]),
        (1, Kind::K1, 2, 1, &[0]),
        (1, Kind::K2, 0, 1, &[4]),
        (1, Kind::K3, 27, 1, &[2, 0, 0, 0, 0, 0]),
        (1, Kind::K6, 1, 1, &[0]),
        (1, Kind::K7, 34, 0, &[30]),
        (1, Kind::K6, 2, 1, &[0]),
        (1, Kind::K7, 33, 0, &[24]),
        (1, Kind::K8, 15, 2, &[0, 0, 0, 0, 8388639, 8388633]),
        (1, Kind::K9, 0, 2, &[2]),
        (1, Kind::K10, 0, 2, &[2]),
        (1, Kind::K11, 20, 2, &[8388633]),
        (0, Kind::K2, 0, 2, &[2]),
        (0, Kind::K3, 15, 2, &[0, 0, 0, 0, 8388639, 8388633]),
        (0, Kind::K6, 1, 1, &[0, 0]),
        (0, Kind::K8, 3, 3, &[0, 0, 0, 0, 8388639, 8388633]),
        (0, Kind::K9, 0, 3, &[0]),
        (0, Kind::K10, 0, 3, &[0]),
        (0, Kind::K11, 7, 3, &[8388639]),
    ];
    assert_eq!(rt;
        answers(&rt, &mut run, &rows),
        (Reply::Took(30), Reply::Took(24))
    );
    Ok(())
}

#[test]
fn stale_helper(rt: HostRuntime) -> Result<(), Fail> {
    let shape = Shape::new(2, 4, 0)?;
    let mut run = CoreRun::open(rt.alloc(), &shape)?;
    let rows: [Row; 48] = [
        // A whole give of the head 6.
        (0, Kind::K1, 1, 1, &[7]),
        (0, Kind::K2, 0, 1, &[4]),
        (0, Kind::K3, 27, 1, &[0, 0, 0, 0, 0, 0]),
        (0, Kind::K6, 1, 1, &[7]),
        (0, Kind::K6, 2, 0, &[0]),
        (0, Kind::K8, 3, 2, &[0, 1, 6, 0, 12582913, 0]),
        (0, Kind::K9, 0, 2, &[0]),
        (0, Kind::K10, 0, 2, &[0]),
        (0, Kind::K11, 7, 2, &[12582913]),
        // The other process begins a take, and stops at the covered slot.
        (1, Kind::K1, 2, 1, &[0]),
        (1, Kind::K2, 0, 2, &[0]),
        (1, Kind::K3, 3, 2, &[0, 1, 6, 0, 12582913, 0]),
        (1, Kind::K4, 33, 0, &[0]),
        // A whole take: the batch comes from the overlay, and the other's take finds nothing.
        (0, Kind::K1, 1, 2, &[0]),
        (0, Kind::K2, 0, 2, &[0]),
        (0, Kind::K3, 3, 2, &[0, 1, 6, 0, 12582913, 0]),
        (0, Kind::K4, 33, 0, &[0]),
        (0, Kind::K5, 33, 2, &[6]),
        (0, Kind::K6, 1, 2, &[0]),
        (0, Kind::K6, 2, 1, &[0]),
        (0, Kind::K8, 9, 3, &[0, 0, 0, 0, 7, 8388608]),
        (0, Kind::K9, 0, 3, &[1]),
        (0, Kind::K10, 0, 3, &[1]),
        (0, Kind::K11, 13, 3, &[7]),
        // A whole give of the head 6 again.
        (0, Kind::K1, 1, 3, &[7]),
        (0, Kind::K2, 0, 3, &[1]),
        (0, Kind::K3, 9, 3, &[0, 0, 0, 0, 7, 8388608]),
        (0, Kind::K6, 1, 3, &[7]),
        (0, Kind::K6, 2, 1, &[0]),
        (0, Kind::K8, 3, 4, &[0, 1, 6, 0, 12582913, 8388608]),
        (0, Kind::K9, 0, 4, &[0]),
        (0, Kind::K10, 0, 4, &[0]),
        (0, Kind::K11, 7, 4, &[12582913]),
        // The stale helper's exchanges fail.
        (1, Kind::K5, 33, 2, &[6]),
        (1, Kind::K6, 1, 3, &[7]),
        (1, Kind::K6, 2, 1, &[0]),
        (1, Kind::K8, 15, 3, &[0, 0, 0, 0, 12582913, 8388615]),
        (1, Kind::K9, 0, 4, &[0]),
        // Its second try installs a state, and its take was answered by an earlier one.
        (1, Kind::K2, 0, 4, &[0]),
        (1, Kind::K3, 3, 4, &[0, 1, 6, 0, 12582913, 8388608]),
        (1, Kind::K4, 33, 2, &[6]),
        (1, Kind::K5, 33, 4, &[6]),
        (1, Kind::K6, 1, 3, &[7]),
        (1, Kind::K6, 2, 1, &[0]),
        (1, Kind::K8, 15, 5, &[1, 0, 0, 0, 12582913, 8388608]),
        (1, Kind::K9, 0, 5, &[2]),
        (1, Kind::K10, 0, 5, &[2]),
        (1, Kind::K11, 20, 5, &[8388608]),
    ];
    assert_eq!(rt;
        answers(&rt, &mut run, &rows),
        (Reply::Gave, Reply::Nothing)
    );
    Ok(())
}

/// A wish that a process may begin with: mostly a take while it has few spares, else a give of the newest.
fn wish_of(rt: &impl Abort, run: &CoreRun, process: u32) -> Wish {
    assert!(rt; process < run.shape().processes());
    let heads = &run.view(process).pool.heads;
    let spares = heads.len();
    if spares == 0 {
        return Wish::Take;
    }
    Wish::Give(heads.get(spares - 1))
}

/// The value of the reply of a process in the current record.
fn reply_of(rt: &impl Abort, run: &CoreRun, process: u32) -> u32 {
    let shape = run.shape();
    let row = Tagged::value(word(rt, run, 0));
    assert!(rt; row <= 2 * shape.processes() && process < shape.processes());
    let place = shape.place(WordName::RecordWord {
        row,
        index: shape.processes() + 2 + process,
    });
    Tagged::value(word(rt, run, place))
}

/// Applies a process's transfer to a plain stack, and says how it is answered.
fn apply(rt: &impl Abort, content: &mut Vec<u32>, wish: Wish) -> Result<Reply, Fail> {
    match wish {
        Wish::Take => Ok(content.pop().map_or(Reply::Nothing, Reply::Took)),
        Wish::Give(head) => {
            content.push(head)?;
            Ok(Reply::Gave)
        }
    }
}

/// Moves three processes at random, and keeps a plain stack beside the words: at each new state the transfers
/// whose reply turned are applied to it, in the order of the processes.
#[test]
fn random_moves(rt: HostRuntime) -> Result<(), Fail> {
    let shape = Shape::new(3, 8, 0)?;
    let mut run = CoreRun::open(rt.alloc(), &shape)?;
    let mut content = run.stack(rt.alloc())?;
    let mut replies = [0, 0, 0];
    let mut states: u32 = 0;
    let mut seed = 1;
    for count in 0..10000 {
        let state = word(&rt, &run, 0);
        let by = next_number(&mut seed) % 3;
        let wish = match next_number(&mut seed) % 2 {
            0 => Wish::Take,
            _ => wish_of(&rt, &run, by),
        };
        run.move_one(by, wish);
        if word(&rt, &run, 0) == state {
            continue;
        }
        states = states.saturating_add(1);
        for process in 0..3 {
            let reply = reply_of(&rt, &run, process);
            if reply >> 23 != replies[process as usize] >> 23 {
                let announced = Announced::read(word(&rt, &run, 1 + process));
                let answer = apply(&rt, &mut content, announced.wish)?;
                assert_eq!(rt; Reply::read(reply).1, answer, "{count} {process}");
            }
            replies[process as usize] = reply;
        }
        let stack = run.stack(rt.alloc())?;
        assert_eq!(rt; stack, content, "{count}");
    }
    assert!(rt; states > 100);
    Ok(())
}
