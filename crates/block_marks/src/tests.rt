// Marks at the ends of their words and of their bound.
use crate::Marks;
use std::test::Fail;

#[test]
fn each_number_by_itself(rt: HostRuntime) -> Result<(), Fail> {
    // A bound, a number below it, and another one.
    let cases = [
        (2, 0, 1),
        (64, 63, 0),
        (65, 64, 63),
        (65, 0, 64),
        (130, 128, 127),
        (4194304, 4194303, 4194239),
    ];
    for (bound, number, other) in cases {
        let mut marks = Marks::new(rt.alloc(), bound)?;
        assert!(rt; number < bound && other < bound);
        assert_eq!(rt;
            (marks.has(number), marks.has(other)),
            (false, false),
            "{bound}"
        );
        marks.set(number);
        assert_eq!(rt;
            (marks.has(number), marks.has(other)),
            (true, false),
            "{bound}"
        );
        marks.set(other);
        assert_eq!(rt;
            (marks.has(number), marks.has(other)),
            (true, true),
            "{bound}"
        );
        marks.clear(number);
        assert_eq!(rt;
            (marks.has(number), marks.has(other)),
            (false, true),
            "{bound}"
        );
        assert_eq!(rt;
            (marks.has(bound), marks.has(u32::MAX)),
            (false, false),
            "{bound}"
        );
    }
    Ok(())
}
