// Members of whole pools: what opening and each call answer.
use crate::{Freeing, Getting, OpenFault, WordFault, open};
use std::process::Abort;
use std::test::Fail;
use word_layout::ShapeFault;

/// The block that was got; none where the pass's own pool had none.
fn got(rt: &impl Abort, answer: Getting) -> Option<u32> {
    match answer {
        Getting::Got(block) => Some(block),
        Getting::Dry => None,
        Getting::Spent => panic!(rt; "the pass is spent"),
    }
}

/// Whether the block went back; not where it wasn't held.
fn went_back(rt: &impl Abort, answer: Freeing) -> bool {
    match answer {
        Freeing::Freed => true,
        Freeing::NotHeld => false,
        Freeing::Spent => panic!(rt; "the pass is spent"),
    }
}

/// What a data word has, or why it has nothing.
fn told<T>(answer: Result<T, WordFault>) -> Result<T, &'static str> {
    answer.map_err(|fault| match fault {
        WordFault::NotHeld => "not held",
        WordFault::NoWord => "no word",
    })
}

#[test]
fn pools_that_open(rt: HostRuntime) {
    // Processes, batches, words and quantum.
    let cases = [
        (1, 2, 0, 8, Ok(1)),
        (3, 6, 2, 1, Ok(3)),
        (32, 64, 8, 16, Ok(32)),
        (0, 2, 0, 8, Err(ShapeFault::NoProcess)),
        (33, 66, 0, 8, Err(ShapeFault::ManyProcesses)),
        (2, 3, 0, 8, Err(ShapeFault::FewBatches)),
        (1, 1048577, 0, 8, Err(ShapeFault::ManyBlocks)),
        (1, 2, 9, 8, Err(ShapeFault::WideBlock)),
        (1, 2, 0, 3, Err(ShapeFault::BadQuantum)),
    ];
    for (processes, batches, words, quantum, wanted) in cases {
        let opened = match open(rt.alloc(), processes, batches, words, quantum) {
            Ok(members) => Ok(members.len()),
            Err(OpenFault::Shape(fault)) => Err(fault),
            Err(OpenFault::NoMemory) => panic!(rt; "no memory"),
        };
        assert_eq!(rt; opened, wanted, "{processes} {batches} {words} {quantum}");
    }
}

#[test]
fn calls_of_one_member(rt: HostRuntime) {
    let Ok(mut members) = open(rt.alloc(), 1, 10, 2, 8) else {
        panic!(rt; "a process and 10 batches are refused");
    };
    let member = &mut members[0];
    assert_eq!(rt;
        (member.number(), member.holding(), member.age()),
        (0, 0, 0)
    );
    assert_eq!(rt; (member.shape().batches(), member.shape().words()), (10, 2));
    // A take is due at the beginning.
    assert_eq!(rt; (member.is_quiet(), member.has_age()), (false, true));
    assert_eq!(rt; got(&rt, member.allocate()), Some(0));
    assert_eq!(rt; (member.holding(), member.age()), (1, 1));
    assert_eq!(rt;
        (member.holds(0), member.holds(1), member.holds(u32::MAX)),
        (true, false, false)
    );
    for (block, index, wanted) in [
        (0, 1, Ok(7)),
        (0, 2, Err("no word")),
        (1, 0, Err("not held")),
        (40, 2, Err("not held")),
    ] {
        assert_eq!(rt;
            told(member.write(block, index, 7)),
            wanted.map(|_| ()),
            "{block} {index}"
        );
        assert_eq!(rt; told(member.read(block, index)), wanted, "{block} {index}");
    }
    assert_eq!(rt;
        (
            went_back(&rt, member.free(1)),
            went_back(&rt, member.free(40))
        ),
        (false, false)
    );
    assert!(rt; went_back(&rt, member.free(0)));
    assert_eq!(rt; (member.holds(0), member.holding()), (false, 0));
    // The block that went back last is got first, and a search leaves nothing pending.
    assert_eq!(rt; got(&rt, member.search()), Some(0));
    assert_eq!(rt; (member.is_quiet(), member.age()), (true, 1));
}

#[test]
fn one_member_gets_all(rt: HostRuntime) {
    let Ok(mut members) = open(rt.alloc(), 1, 2, 0, 8) else {
        panic!(rt; "a process and 2 batches are refused");
    };
    let member = &mut members[0];
    for _block in 0..8 {
        assert!(rt; got(&rt, member.allocate()).is_some());
    }
    assert_eq!(rt;
        (got(&rt, member.allocate()), got(&rt, member.search())),
        (None, None)
    );
    assert_eq!(rt; member.holding(), 8);
    assert!(rt; went_back(&rt, member.free(3)));
    assert_eq!(rt; (got(&rt, member.search()), member.holding()), (Some(3), 8));
}
