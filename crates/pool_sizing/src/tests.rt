// Batches that are enough, and bytes.
use crate::{enough_batches, memory, opening_memory};
use std::test::Fail;
use word_layout::Shape;

// A batch has (16 * processes + 15) / quantum blocks, rounded up, and there have to be more blocks than
// 5 * processes batches have, and `live` together.
#[test]
fn least_batches(rt: HostRuntime) {
    let cases = [
        // Batches of 4: 6 have 24, which is more than 20 + 3.
        (1, 8, 0, Some(6)),
        (1, 8, 3, Some(6)),
        (1, 8, 4, Some(7)),
        // Batches of 6: 177 have 1062, which is more than 60 + 1000.
        (2, 8, 1000, Some(177)),
        // Batches of 10: 430 have 4300, which is more than 200 + 4096.
        (4, 8, 4096, Some(430)),
        // Batches of 527: 160 have no more than the slack.
        (32, 1, 0, Some(161)),
        // 4194304 blocks, which is more than 20 + 4194283, are the most.
        (1, 8, 4194283, Some(1048576)),
        (1, 8, 4194284, None),
        (1, 8, u32::MAX, None),
        (0, 8, 0, None),
        (33, 8, 0, None),
        (u32::MAX, 8, 0, None),
        (2, 3, 0, None),
    ];
    for (processes, quantum, live, batches) in cases {
        assert_eq!(rt;
            enough_batches(processes, quantum, live),
            batches,
            "{processes} {quantum} {live}"
        );
    }
}

#[test]
fn bytes_of_pools(rt: HostRuntime) -> Result<(), Fail> {
    let cases = [
        // 64 words, and 1 word of marks.
        (1, 10, 0, 512, 520),
        // 133 words, and 2 words of marks.
        (2, 4, 3, 1064, 1080),
        // 14 words, 1048576 slots and 4194304 blocks of 9 words, and 65536 words of marks.
        (1, 1048576, 8, 310378608, 310902896),
    ];
    for (processes, batches, words, table, all) in cases {
        let shape = Shape::new(processes, batches, words)?;
        assert_eq!(rt;
            (opening_memory(&shape), memory(&shape)),
            (2 * table, all),
            "{processes} {batches} {words}"
        );
    }
    Ok(())
}
