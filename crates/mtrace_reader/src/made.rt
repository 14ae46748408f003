// Traces that a generator of pseudorandom numbers makes of a seed.
ghost use Rattle.std.specs.Prelude.{◌≡◌, ◌+◌, ◌*◌, ◌/◌, ◌%◌, ◌<◌, ◌≤◌, ◌++◌, ◌∷◌, [], IfOk, OnOk, length, remove, slice_index};
ghost use Rattle.mtrace_reader.specs.declared.trace.Operation.TheVariants.{New, Release};
ghost use Rattle.mtrace_reader.specs.Made.{address_at, allocates, begun, made_trace, number_after, released_place, with_call};

use crate::trace::{Operation, OperationList, Trace};
use pool_model::NoMemory;
use std::alloc::Global;
use std::marker::Model;

/// The most calls that a made trace may have.
pub const MOST_CALLS: u32 = 1 << 17;

/// The most addresses that are live at once.
const MOST_LIVE: usize = 256;

/// All sizes are below this.
const SIZES: u64 = 72;

/// The generator's next number.
fn next_number(number: u64) -> u64
    ensures { result ≡ number_after number }
{
    number
        .wrapping_mul(6_364_136_223_846_793_005)
        .wrapping_add(1_442_695_040_888_963_407)
}

/// A trace that is being made. Contracts see the generator's number and two lists.
#[derive(Drop)]
struct TraceMaker {
    number: u64,
    /// The live addresses, from the oldest on.
    live: Vec<u64>,
    operations: Vec<Operation>,
}

impl Model for TraceMaker {
    ghost use Rattle.mtrace_reader.specs.Made.{Making};

    ghost Value = { Making };

    ghost view = { λ maker. record {
      number = maker.number;
      live = maker.live.items;
      operations = maker.operations.items;
    } };
}

impl TraceMaker {
    /// A trace without operations. Takes all the memory that so many calls need.
    fn open(alloc: Global, seed: u64, calls: u32) -> Result<TraceMaker, NoMemory>
        ensures { IfOk result (λ maker. maker ≡ begun seed) }
    {
        Ok(TraceMaker {
            number: seed,
            live: Vec::with_capacity(alloc, MOST_LIVE)?,
            operations: Vec::with_capacity(alloc, calls as usize)?,
        })
    }

    /// Makes the operation of the call of this number, counted from 0.
    fn call(&mut self, index: u32) -> Result<(), NoMemory>
        ensures { OnOk result (self.new ≡ with_call self.old index) }
    {
        self.number = next_number(self.number);
        let choice = self.number >> 32;
        let operation = if self.is_to_allocate(choice) {
            self.allocate(index, choice)?
        } else {
            self.release(choice)
        };
        self.operations.push(operation)?;
        Ok(())
    }

    /// Whether a call of this choice allocates.
    fn is_to_allocate(&self, choice: u64) -> bool
        ensures { result ≡ allocates choice self.now.live }
    {
        self.live.is_empty() || self.live.len() < MOST_LIVE && choice.is_multiple_of(2)
    }

    /// Makes an address live, behind all others.
    fn allocate(&mut self, index: u32, choice: u64) -> Result<Operation, NoMemory>
        ensures operation { IfOk result (λ operation. operation ≡ New (address_at index) ((choice / 2) % 72)) }
        ensures live { OnOk result (self.new ≡ record self.old { live = self.old.live ++ address_at index ∷ [] }) }
    {
        let address = 16 * (u64::from(index) + 1);
        self.live.push(address)?;
        Ok(Operation::New {
            address,
            size: choice / 2 % SIZES,
        })
    }

    /// Takes an address from the live ones.
    fn release(&mut self, choice: u64) -> Operation
        requires { 0 < length self.old.live }
        ensures operation { result ≡ Release (slice_index self.old.live (released_place choice self.old.live)) }
        ensures live { self.new ≡ record self.old { live = remove self.old.live (released_place choice self.old.live) } }
    {
        let place = (choice / 2) as usize % self.live.len();
        Operation::Release {
            address: self.live.remove(place),
        }
    }
}

/// The trace that a generator makes of a seed, with an operation for each call. Each release names an address
/// that the trace allocated before and didn't release since. Its only error is want of memory.
pub fn make_trace(alloc: Global, seed: u64, calls: u32) -> Result<Trace, NoMemory>
    requires { calls ≤ MOST_CALLS }
    ensures made { IfOk result (λ trace. trace ≡ made_trace seed calls) }
    ensures count { IfOk result (λ trace. length trace.operations ≡ calls) }
{
    let mut maker = TraceMaker::open(alloc, seed, calls)?;
    for index in 0..calls {
        maker.call(index)?;
    }
    Ok(Trace {
        operations: OperationList::new(maker.operations),
        cut: false,
        bytes: 0,
    })
}

#[cfg(test)]
mod tests {
    use super::{MOST_CALLS, make_trace};
    use crate::steps::Step;
    use crate::trace::Operation;
    use crate::walk::script;
    use std::alloc::Global;
    use std::test::Fail;

    /// The generator's next number, by whole numbers of 128 bits.
    fn slow_number(number: u64) -> u64 {
        let wide = u128::from(number) * 6364136223846793005 + 1442695040888963407;
        (wide % 18446744073709551616) as u64
    }

    /// The addresses but this one.
    fn all_but(alloc: Global, addresses: &[u64], left: u64) -> Result<Vec<u64>, Fail> {
        let mut others = Vec::new(alloc);
        for address in addresses {
            if *address != left {
                others.push(*address)?;
            }
        }
        Ok(others)
    }

    /// The operations of a made trace, step by step as `docs/FORMATS.md` tells them.
    fn slow_operations(alloc: Global, seed: u64, calls: u32) -> Result<Vec<Operation>, Fail> {
        let mut number = seed;
        let mut live: Vec<u64> = Vec::new(alloc);
        let mut operations = Vec::new(alloc);
        for call in 0..calls {
            number = slow_number(number);
            let choice = number / 4294967296;
            let count = live.len();
            if count == 0 || count < 256 && choice % 2 == 0 {
                let address = u64::from(call) * 16 + 16;
                let size = choice % 144 / 2;
                operations.push(Operation::New { address, size })?;
                live.push(address)?;
            } else {
                let address = live[choice as usize / 2 % count];
                operations.push(Operation::Release { address })?;
                live = all_but(alloc, live.as_slice(), address)?;
            }
        }
        Ok(operations)
    }

    #[test]
    fn short_made_traces(rt: HostRuntime) -> Result<(), Fail> {
        let first = Operation::New {
            address: 16,
            size: 14,
        };
        let release = Operation::Release { address: 16 };
        let cases: [(u32, &[Operation]); 3] = [(0, &[]), (1, &[first]), (2, &[first, release])];
        for (calls, operations) in cases {
            assert!(rt; calls <= MOST_CALLS);
            let trace = make_trace(rt.alloc(), 1, calls)?;
            let same = trace.operations.as_slice() == operations && !trace.cut && trace.bytes == 0;
            assert!(rt; same, "{calls} calls: {trace:?}");
        }
        Ok(())
    }

    /// Seeds and numbers of calls.
    static SEEDS: [(u64, u32); 6] = [
        (0, 1),
        (0, 5_000),
        (1, 1_000),
        (2, 5_000),
        (0x5851_f42d_4c95_7f2d, 5_000),
        (u64::MAX, 5_000),
    ];

    #[test]
    fn made_traces_are_those_of_a_slow_program(rt: HostRuntime) -> Result<(), Fail> {
        for (seed, calls) in SEEDS.iter() {
            assert!(rt; *calls <= MOST_CALLS);
            let trace = make_trace(rt.alloc(), *seed, *calls)?;
            let operations = slow_operations(rt.alloc(), *seed, *calls)?;
            let same = trace.operations.as_slice() == operations.as_slice();
            assert!(rt; same, "seed {seed}, {calls} calls");
        }
        Ok(())
    }

    /// Seeds, and what the scripts of their 100,000 calls place, find too large and leave.
    static SCRIPTS: [(u64, u32, u64, usize); 4] = [
        (1, 45_125, 4_935, 45_014),
        (2, 45_132, 4_870, 45_129),
        (3, 45_156, 4_922, 45_017),
        (4, 45_214, 4_883, 45_042),
    ];

    /// How many steps leave a slot.
    fn leaves_of(steps: &[Step]) -> usize {
        steps
            .iter()
            .filter(|step| matches!(step, Step::Leave { .. }))
            .count()
    }

    #[test]
    fn scripts_of_long_made_traces(rt: HostRuntime) -> Result<(), Fail> {
        for (seed, news, big, leaves) in SCRIPTS.iter() {
            let trace = make_trace(rt.alloc(), *seed, 100_000)?;
            let made = script(rt.alloc(), &trace, 64)?;
            let left = leaves_of(made.steps.as_slice());
            let same = made.news == *news && made.big == *big && left == *leaves;
            let clean = made.failed == 0 && made.stray == 0 && made.twice == 0 && made.cut == 0;
            assert!(rt;
                same && clean,
                "seed {seed}: {} placed, {} big, {left} left",
                made.news,
                made.big
            );
        }
        Ok(())
    }
}
