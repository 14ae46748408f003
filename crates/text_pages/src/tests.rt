// Texts of several pages.
use crate::Page;
use pool_io::MemorySink;
use std::test::Fail;

/// So many pieces are written in so many writes: a page is written only where the next piece has no room on it, and at the
/// end.
#[test]
fn pieces_and_writes(rt: HostRuntime) -> Result<(), Fail> {
    let alloc = rt.alloc();
    let cases = [(0, 0), (1, 1), (512, 1), (513, 2), (1024, 2), (1025, 3)];
    for (pieces, writes) in cases {
        let mut out = MemorySink::new(alloc, 1 << 14, Vec::new(alloc), 1 << 14)?;
        let mut expected = Vec::new(alloc);
        let mut page = Page::new();
        for _ in 0..pieces {
            page.add(&mut out, "eight by")?;
            expected.extend_from_slice(b"eight by")?;
        }
        page.finish(&mut out)?;
        let same = out.bytes.as_slice() == expected.as_slice();
        assert!(rt;
            same && out.calls == writes,
            "{pieces}: {} writes",
            out.calls
        );
    }
    Ok(())
}

/// The sink fails at its first call: the piece that needs the page's room isn't added.
#[test]
fn a_failing_sink(rt: HostRuntime) -> Result<(), Fail> {
    let alloc = rt.alloc();
    let failing = vec![in alloc; 0]?;
    let mut out = MemorySink::new(alloc, 1 << 14, failing, 1 << 14)?;
    let mut page = Page::new();
    let mut added = 0;
    for pieces in 0..1000u32 {
        if page.add(&mut out, "eight by").is_err() {
            added = pieces;
            break;
        }
    }
    assert_eq!(rt; (added, out.bytes.len(), out.faults), (512, 0, 1));
    Ok(())
}
