// A sink in memory.
ghost use Rattle.std.specs.Prelude.{◌≡◌, ◌+◌, ◌-◌, ◌<◌, ◌≤◌, ◌↔◌, ◌⊎◌, ◌++◌, ℕ, [], Some, length, take, vec_capacity, min, max, Contains};
ghost use Rattle.std.specs.Prelude.{IfOk, OnOk, OnErr, IsErr, IsOkAnd};
ghost use Rattle.pool_io.specs.Counts.{one_more};

use crate::counts::{count_call, raise};
use crate::{Failed, Sink};
use pool_model::NoMemory;
use std::alloc::Global;

/// A sink in memory that holds up to `room` bytes, which are reserved from the start.
///
/// Its writes are counted from 0. It fails exactly at those named in `failing`, and where it's full and the
/// piece isn't empty.
#[derive(Debug, Drop)]
pub struct MemorySink {
    /// The bytes so far.
    pub bytes: Vec<u8>,
    /// How many bytes it holds at most.
    pub room: usize,
    /// The numbers of the writes that fail.
    pub failing: Vec<u64>,
    /// How many bytes a write takes at most; 0 counts as 1.
    pub most: usize,
    /// How many writes there were. Stays at `u64::MAX`.
    pub calls: u64,
    /// How many of them failed. Stays at `u64::MAX`.
    pub faults: u64,
    ghost reserved: { room ≤ vec_capacity bytes },
}

impl MemorySink {
    /// An empty sink. Reserves its room; `NoMemory` where it can't be had.
    pub fn new(
        alloc: Global,
        room: usize,
        failing: Vec<u64>,
        most: usize,
    ) -> Result<MemorySink, NoMemory>
        ensures empty { IfOk result (λ sink. sink.bytes.items ≡ []) }
        ensures setting { IfOk result (λ sink.
            (sink.room ≡ room) × (sink.failing ≡ failing) × (sink.most ≡ most)) }
        ensures counts { IfOk result (λ sink. (sink.calls ≡ 0) × (sink.faults ≡ 0)) }
    {
        Ok(MemorySink {
            bytes: Vec::with_capacity(alloc, room)?,
            room,
            failing,
            most,
            calls: 0,
            faults: 0,
        })
    }
}

impl Sink for MemorySink {
    ghost use Rattle.pool_io.specs.MemorySink.{taken_of, TakesAll};

    ghost faults = { λ sink. sink.faults };

    ghost written = { λ sink. Some sink.bytes.items };

    ghost takes = { TakesAll };

    fn write(&mut self, bytes: &[u8]) -> Result<usize, Failed>
        ensures count { IfOk result (λ count. count ≡ taken_of self.old (length bytes.now)) }
        ensures grown { IfOk result (λ count.
            self.new.bytes.items ≡ self.old.bytes.items ++ take count bytes.now) }
        ensures kept { OnErr result (self.new.bytes ≡ self.old.bytes) }
        ensures fails { IsErr result ↔ (Contains self.old.failing.items self.old.calls ⊎
            ((0 < length bytes.now) × (self.old.room ≤ length self.old.bytes.items))) }
        ensures sure { (room : ℕ) → TakesAll self.old room → length bytes.now ≤ room →
            IsOkAnd result (λ count. TakesAll self.new (room - count)) }

        ensures calls { self.new.calls ≡ one_more self.old.calls }
        ensures failed { OnErr result (self.new.faults ≡ one_more self.old.faults) }
        ensures no_fault { OnOk result (self.new.faults ≡ self.old.faults) }
        ensures never_falls { self.old.faults ≤ self.new.faults }
        ensures setting { (self.new.room ≡ self.old.room) × (self.new.failing ≡ self.old.failing)
            × (self.new.most ≡ self.old.most) }
    {
        let fails = count_call(&mut self.calls, &self.failing);
        let free = self.room.saturating_sub(self.bytes.len());
        if fails || (free == 0 && !bytes.is_empty()) {
            raise(&mut self.faults);
            return Err(Failed);
        }
        let count = bytes.len().min(free).min(self.most.max(1));
        // The room was reserved, so this asks for no memory.
        self.bytes.extend_from_slice(&bytes[..count]).unwrap();
        Ok(count)
    }
}
