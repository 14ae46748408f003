use crate::{Announced, Reply, Shape, ShapeFault, Tagged, Wish, WordName};
use std::test::Fail;

/// The blocks of a shape, or the number of a fault.
fn blocks_or_fault(made: Result<Shape, ShapeFault>) -> Result<u32, u32> {
    match made {
        Ok(shape) => Ok(shape.blocks()),
        Err(fault) => Err(fault.number()),
    }
}

#[test]
fn shapes_and_refusals(rt: HostRuntime) {
    let cases = [
        (0, 2, 0, 8, Err(1)),
        (33, 100, 0, 8, Err(2)),
        (2, 3, 0, 8, Err(3)),
        (1, 1, 0, 3, Err(3)),
        (1, 2, 0, 3, Err(6)),
        (1, 1048577, 0, 3, Err(6)),
        (1, 1048577, 9, 8, Err(4)),
        (1, 2, 9, 8, Err(5)),
        (1, 1048576, 8, 8, Ok(4194304)),
        (1, 10, 0, 16, Ok(20)),
        (1, 2, 0, 1, Ok(62)),
    ];
    for (processes, batches, words, quantum, expected) in cases {
        let made = Shape::with_quantum(processes, batches, words, quantum);
        assert_eq!(rt;
            blocks_or_fault(made),
            expected,
            "{processes} {batches} {words} {quantum}"
        );
    }
}

#[test]
fn lengths_of_quanta(rt: HostRuntime) -> Result<(), Fail> {
    let cases = [(1, 47), (2, 24), (4, 12), (8, 6), (16, 3)];
    for (quantum, length) in cases {
        let shape = Shape::with_quantum(2, 4, 0, quantum)?;
        assert_eq!(rt; (shape.length(), shape.quantum()), (length, quantum));
    }
    Ok(())
}

#[test]
fn places_of_four_shapes(rt: HostRuntime) -> Result<(), Fail> {
    let cases = [
        (1, 2, 14, 16, 24),
        (1, 10, 14, 24, 64),
        (2, 4, 33, 37, 61),
        (2, 6, 33, 39, 75),
    ];
    for (processes, batches, slots, nexts, all) in cases {
        let shape = Shape::new(processes, batches, 0)?;
        assert!(rt; shape.blocks() > 0);
        let found = (
            shape.slot_place(0),
            shape.next_place(0),
            shape.table_words(),
        );
        assert_eq!(rt; found, (slots, nexts, all), "{processes} {batches}");
    }
    Ok(())
}

#[test]
fn numbers_and_places_of_a_shape(rt: HostRuntime) -> Result<(), Fail> {
    let shape = Shape::new(2, 4, 3)?;
    assert_eq!(rt;
        [
            shape.processes(),
            shape.batches(),
            shape.words(),
            shape.record_words()
        ],
        [2, 4, 3, 6]
    );
    assert_eq!(rt;
        [shape.slack(), shape.transfer_bound(), shape.blocks()],
        [60, 47, 24]
    );
    assert!(rt; shape.blocks() == 24);
    assert_eq!(rt;
        [
            shape.state_place(),
            shape.announce_place(1),
            shape.record_place(4, 5)
        ],
        [0, 2, 32]
    );
    assert_eq!(rt;
        [
            shape.slot_place(3),
            shape.next_place(23),
            shape.data_place(1, 2)
        ],
        [36, 60, 66]
    );
    assert_eq!(rt; shape.place(WordName::Next { block: 23 }), 60);
    Ok(())
}

#[test]
fn slacks_and_windows(rt: HostRuntime) -> Result<(), Fail> {
    let cases = [
        (1, 8, 20, 8),
        (2, 8, 60, 12),
        (4, 8, 200, 20),
        (8, 8, 720, 36),
        (2, 1, 470, 94),
        (32, 16, 5280, 66),
    ];
    for (processes, quantum, slack, window) in cases {
        let shape = Shape::with_quantum(processes, 2 * processes, 0, quantum)?;
        assert_eq!(rt;
            (shape.slack(), shape.window()),
            (slack, window),
            "{processes} {quantum}"
        );
    }
    Ok(())
}

/// The opening's state has tag 1, so with `age` transfers of each process the last state has 1 + processes * age,
/// and a record may have the number above. All are below 2^40.
#[test]
fn most_transfers_of_a_process(rt: HostRuntime) -> Result<(), Fail> {
    let cases = [
        (1, 1099511627773),
        (2, 549755813886),
        (3, 366503875924),
        (32, 34359738367),
    ];
    for (processes, age) in cases {
        let shape = Shape::new(processes, 2 * processes, 0)?;
        assert_eq!(rt; shape.most_age(), age, "{processes}");
    }
    Ok(())
}

#[test]
fn packed_words(rt: HostRuntime) {
    assert_eq!(rt; Tagged::pack(1, 2), 16777218);
    assert_eq!(rt; (Tagged::tag(16777218), Tagged::value(16777218)), (1, 2));
    let announced = Announced {
        number: 3,
        wish: Wish::Give(6),
    };
    assert_eq!(rt; announced.pack(), 50331655);
    assert_eq!(rt; Announced::read(50331655), announced);
    let cases = [
        (Reply::Took(36), true, 8388645),
        (Reply::Took(36), false, 37),
        (Reply::Gave, false, 4194305),
        (Reply::Nothing, true, 8388608),
    ];
    for (reply, odd, value) in cases {
        assert_eq!(rt; Reply::read(value), (odd, reply));
    }
    assert_eq!(rt;
        (Reply::Took(36).pack(true), Reply::Gave.pack(false)),
        (8388645, 4194305)
    );
}

#[test]
fn heads_that_fit(rt: HostRuntime) {
    for (head, fits) in [(0, true), (4194303, true), (4194304, false)] {
        assert_eq!(rt;
            (Wish::Give(head).fits(), Reply::Took(head).fits()),
            (fits, fits),
            "{head}"
        );
    }
    assert!(rt; Wish::Take.fits() && Reply::Nothing.fits() && Reply::Gave.fits());
}
