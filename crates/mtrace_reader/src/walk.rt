// The walk over the operations of a trace that makes its script.
ghost use Rattle.std.specs.Prelude.{◌≡◌, ◌+◌, ◌^◌, ◌<◌, ◌≤◌, length, IfOk, OnOk};
ghost use Rattle.mtrace_reader.specs.Script.{after, after_new, after_release, begun, count_of, script_of, IsWellFormed};
ghost use Rattle.mtrace_reader.specs.ScriptWriter.{Carries, IsAt};

use crate::steps::{Script, Step, StepList};
use crate::trace::{Operation, Trace};
use pool_model::NoMemory;
use std::alloc::Global;
use std::collections::BTreeMap;
use std::collections::btree_map::Entry;

/// What a live address names.
#[derive(Clone, Copy, Debug, PartialEq, Eq)]
enum Live {
    /// The block of a slot.
    Slot(u32),
    /// A block larger than those of the pool.
    Big,
}

/// A script that is being written, and what each live address names.
#[derive(Drop)]
struct ScriptWriter {
    live: BTreeMap<u64, Live>,
    script: Script,
}

impl ScriptWriter {
    fn new(alloc: Global, cut: bool) -> ScriptWriter
        ensures begun { IsAt result (begun cut) }
        ensures counted { count_of result.script ≡ 0 }
    {
        ScriptWriter {
            live: BTreeMap::new(alloc),
            script: Script {
                steps: StepList::new(Vec::new(alloc)),
                news: 0,
                big: 0,
                failed: 0,
                stray: 0,
                twice: 0,
                cut: u64::from(cut),
            },
        }
    }

    fn follow(&mut self, operation: Operation, size: u64) -> Result<(), NoMemory>
        requires { count_of self.old.script + 1 < 2 ^ 32 }
        ensures follows { OnOk result (Carries self.old self.new (λ walk. after size walk operation)) }
        ensures counted { OnOk result (count_of self.new.script ≤ count_of self.old.script + 1) }
    {
        match operation {
            Operation::New {
                address,
                size: bytes,
            } => self.allocate(address, bytes, size),
            Operation::Release { address } => self.release(address),
            Operation::Failed => {
                self.script.failed += 1;
                Ok(())
            }
        }
    }

    fn allocate(&mut self, address: u64, bytes: u64, size: u64) -> Result<(), NoMemory>
        requires { count_of self.old.script + 1 < 2 ^ 32 }
        ensures follows { OnOk result (Carries self.old self.new (λ walk. after_new size walk address bytes)) }
        ensures counted { OnOk result (count_of self.new.script ≤ count_of self.old.script + 1) }
    {
        if address == 0 {
            self.script.failed += 1;
            return Ok(());
        }
        match self.live.entry(address)? {
            Entry::Occupied(_) => self.script.twice += 1,
            Entry::Vacant(entry) => {
                if size < bytes {
                    entry.insert(Live::Big);
                    self.script.big += 1;
                } else {
                    let slot = self.script.news;
                    self.script.steps.push(Step::Place { slot })?;
                    entry.insert(Live::Slot(slot));
                    self.script.news += 1;
                }
            }
        }
        Ok(())
    }

    fn release(&mut self, address: u64) -> Result<(), NoMemory>
        requires { count_of self.old.script + 1 < 2 ^ 32 }
        ensures follows { OnOk result (Carries self.old self.new (λ walk. after_release walk address)) }
        ensures counted { OnOk result (count_of self.new.script ≤ count_of self.old.script + 1) }
    {
        match self.live.remove(&address) {
            Some(Live::Slot(slot)) => self.script.steps.push(Step::Leave { slot })?,
            Some(Live::Big) => {}
            None => self.script.stray += 1,
        }
        Ok(())
    }
}

/// The script of a trace, for a pool whose blocks have `size` bytes. A slot is named by each allocation
/// of at most that size at an address that isn't live. Its only error is want of memory.
pub fn script(alloc: Global, trace: &Trace, size: u64) -> Result<Script, NoMemory>
    requires { length trace.now.operations < 2 ^ 32 }
    ensures walked { IfOk result (λ script. script ≡ script_of trace.now size) }
    ensures well_formed { IfOk result IsWellFormed }
{
    let mut writer = ScriptWriter::new(alloc, trace.cut);
    for operation in trace.operations.as_slice() {
        writer.follow(*operation, size)?;
    }
    Ok(writer.script)
}

#[cfg(test)]
mod tests {
    use super::script;
    use crate::steps::{Script, Step};
    use crate::trace::{Operation, OperationList, Trace};
    use std::alloc::Global;
    use std::hash::{FoldHasher, Hasher};
    use std::process::Abort;
    use std::test::Fail;

    /// A line of a trace: its sign, its address and its size.
    type Line = (char, u64, u64);

    /// A trace, and its script.
    struct Case {
        name: &'static str,
        lines: &'static [Line],
        cut: bool,
        steps: &'static [Step],
        numbers: [u64; 6],
    }

    static CASES: [Case; 7] = [
        Case {
            name: "first report",
            lines: &[('+', 0x4052a0, 0x20), ('-', 0x4052a0, 0)],
            cut: false,
            steps: &[Step::Place { slot: 0 }, Step::Leave { slot: 0 }],
            numbers: [1, 0, 0, 0, 0, 0],
        },
        Case {
            name: "empty file",
            lines: &[],
            cut: false,
            steps: &[],
            numbers: [0; 6],
        },
        Case {
            name: "killed program",
            lines: &[('+', 0x10, 0x8)],
            cut: true,
            steps: &[Step::Place { slot: 0 }],
            numbers: [1, 0, 0, 0, 0, 1],
        },
        Case {
            name: "resize",
            lines: &[('+', 0x10, 0x8), ('-', 0x10, 0), ('+', 0x20, 0x10)],
            cut: false,
            steps: &[
                Step::Place { slot: 0 },
                Step::Leave { slot: 0 },
                Step::Place { slot: 1 },
            ],
            numbers: [2, 0, 0, 0, 0, 0],
        },
        Case {
            name: "failures",
            lines: &[('+', 0, 0x40), ('!', 0x10, 0x80)],
            cut: false,
            steps: &[],
            numbers: [0, 0, 2, 0, 0, 0],
        },
        Case {
            name: "boundary of the size",
            lines: &[
                ('+', 0x10, 0),
                ('+', 0x20, 0x40),
                ('+', 0x30, 0x41),
                ('-', 0x30, 0),
            ],
            cut: false,
            steps: &[Step::Place { slot: 0 }, Step::Place { slot: 1 }],
            numbers: [2, 1, 0, 0, 0, 0],
        },
        Case {
            name: "stray and twice",
            lines: &[('-', 0x99, 0), ('+', 0x10, 0x8), ('+', 0x10, 0x8)],
            cut: false,
            steps: &[Step::Place { slot: 0 }],
            numbers: [1, 0, 0, 1, 1, 0],
        },
    ];

    // In the order of a report: news, big, failed, stray, twice, cut.
    fn numbers_of(script: &Script) -> [u64; 6] {
        [
            u64::from(script.news),
            script.big,
            script.failed,
            script.stray,
            script.twice,
            script.cut,
        ]
    }

    /// The operation of a line.
    fn operation((sign, address, size): Line) -> Operation {
        match sign {
            '+' => Operation::New { address, size },
            '-' => Operation::Release { address },
            _ => Operation::Failed,
        }
    }

    /// The trace of these operations.
    fn trace_of(rt: &impl Abort, operations: Vec<Operation>, cut: bool) -> Trace
        ensures { length result.operations < 2 ^ 32 }
    {
        assert!(rt; operations.len() < 1 << 20);
        Trace {
            operations: OperationList::new(operations),
            cut,
            bytes: 0,
        }
    }

    #[test]
    fn scripts_of_small_traces(rt: HostRuntime) -> Result<(), Fail> {
        for case in CASES.iter() {
            let mut operations = Vec::new(rt.alloc());
            for line in case.lines {
                operations.push(operation(*line))?;
            }
            let made = script(rt.alloc(), &trace_of(&rt, operations, case.cut), 64)?;
            let same = made.steps.as_slice() == case.steps && numbers_of(&made) == case.numbers;
            assert!(rt; same, "{}: {made:?}", case.name);
        }
        Ok(())
    }

    /// Addresses whose hashes by a hasher of a fixed seed agree in their lowest bits.
    fn colliding(alloc: Global) -> Result<Vec<u64>, Fail> {
        let mut addresses = Vec::new(alloc);
        for address in 1..2_000_000u64 {
            let mut hasher = FoldHasher::default();
            hasher.write_u64(address);
            if hasher.finish() % 1024 == 0 {
                addresses.push(address)?;
            }
        }
        Ok(addresses)
    }

    #[test]
    fn addresses_that_would_collide(rt: HostRuntime) -> Result<(), Fail> {
        let alloc = rt.alloc();
        let addresses = colliding(alloc)?;
        let mut operations = Vec::new(alloc);
        for address in &addresses {
            operations.push(operation(('+', *address, 8)))?;
        }
        for address in &addresses {
            operations.push(operation(('-', *address, 0)))?;
        }
        let made = script(alloc, &trace_of(&rt, operations, false), 64)?;
        let count = addresses.len();
        let same = made.news as usize == count && made.twice == 0 && made.stray == 0;
        assert!(rt;
            same && count > 1000,
            "{count} addresses, {} slots",
            made.news
        );
        Ok(())
    }
}
