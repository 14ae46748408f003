// Four processes at each quantum; and lies, each of which is seen.
use super::stress;
use crate::owners::Lie;
use crate::settings::Settings;
use std::alloc::Global;
use std::test::Fail;
use std::thread::Threads;
use word_layout::Shape;

/// What is seen of processes with so many calls each: wrong moves, long calls, lost blocks, and by how much they are miscounted.
fn seen<R: Threads + Sync>(
    rt: &R,
    alloc: Global,
    shape: Shape,
    calls: u32,
    lie: Option<Lie>,
) -> Result<(u64, u64, u64, u64), Fail> {
    let settings = Settings {
        shape,
        calls,
        seed: 1,
        stopping: 0,
        stop: 0,
        lie,
    };
    let report = stress(rt, alloc, &settings, &[])?;
    Ok((report.wrong, report.long, report.lost, report.miscounted))
}

#[test]
fn four_processes_at_each_quantum(rt: HostRuntime) -> Result<(), Fail> {
    for quantum in [1, 2, 4, 8, 16] {
        let shape = Shape::with_quantum(4, 12, 0, quantum)?;
        let row = seen(&rt, rt.alloc(), shape, 2_500, None)?;
        assert_eq!(rt; row, (0, 0, 0, 0), "quantum {quantum}");
    }
    Ok(())
}

#[test]
fn each_lie_is_seen(rt: HostRuntime) -> Result<(), Fail> {
    let rows = [
        (Lie::Twice, (1, 0, 0, 0)),
        (Lie::Foreign, (1, 0, 1, 1)),
        (Lie::Lost, (0, 0, 1, 1)),
        (Lie::Long, (0, 1, 0, 0)),
    ];
    for (lie, row) in rows {
        let shape = Shape::new(2, 5, 0)?;
        assert_eq!(rt; seen(&rt, rt.alloc(), shape, 0, Some(lie))?, row);
    }
    Ok(())
}
