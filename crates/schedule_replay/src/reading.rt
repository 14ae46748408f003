// The schedule of bytes that were read, line by line.
ghost use Rattle.std.specs.Prelude.{◌≡◌, ◌≤◌, ◌^◌, length, IfErr, IfOk, OnOk, Some, None};
ghost use Rattle.line_text.specs.declared.fault.TextFault.TheVariants.{BadLine};
ghost use Rattle.line_text.specs.declared.meaning.Meaning.TheVariants.{Says};
ghost use Rattle.schedule_replay.specs.Line.{meaning_of};
ghost use Rattle.schedule_replay.specs.Reading.{AnswersTo, begun, events_in};
ghost use Rattle.schedule_replay.specs.ScheduleWriter.{Adds, StopsAt, has_read};
ghost use Rattle.schedule_replay.specs.declared.line.Said.TheVariants.{Repeats, Shape};

use crate::ScheduleFault;
use crate::line::{Said, read_line};
use crate::schedule::{Repeat, RepeatList, Schedule};
use interleaving_core::Event;
use line_text::{Meaning, split_line};
use std::alloc::Global;

/// How many events a schedule has at most.
const MOST_EVENTS: u32 = 1 << 24;

/// A schedule that is being written.
#[derive(Drop)]
struct ScheduleWriter {
    /// The shape, once its line was read.
    shape: Option<[u32; 4]>,
    lines: Vec<Repeat>,
    /// How many events the lines make.
    events: u32,
}

impl ScheduleWriter {
    /// A schedule without a line. Takes no memory.
    fn new(alloc: Global) -> ScheduleWriter
        ensures { has_read result ≡ begun }
    {
        ScheduleWriter {
            shape: None,
            lines: Vec::new(alloc),
            events: 0,
        }
    }

    /// Keeps the shape. A second one is the fault.
    fn keep_shape(&mut self, number: u64, shape: [u32; 4]) -> Result<(), ScheduleFault>
        ensures adds { OnOk result (Adds number (Says (Shape shape)) self.old self.new) }
        ensures few { self.new.events ≡ self.old.events }
        ensures fault { IfErr result (λ fault. StopsAt (has_read self.old) number (Says (Shape shape)) fault) }
    {
        if self.shape.is_some() {
            return Err(ScheduleFault::BadLine(number));
        }
        self.shape = Some(shape);
        Ok(())
    }

    /// Keeps an event that a line of this number repeats. One before the shape is the fault, and so is one too many.
    fn keep_event(&mut self, number: u64, count: u32, event: Event) -> Result<(), ScheduleFault>
        requires { self.old.events ≤ 2 ^ 24 }
        ensures adds { OnOk result (Adds number (Says (Repeats count event)) self.old self.new) }
        ensures few { OnOk result (self.new.events ≤ 2 ^ 24) }
        ensures fault { IfErr result (λ fault. StopsAt (has_read self.old) number (Says (Repeats count event)) fault) }
    {
        if self.shape.is_none() || count > MOST_EVENTS - self.events {
            return Err(ScheduleFault::BadLine(number));
        }
        let line = number;
        if self.lines.push(Repeat { line, count, event }).is_err() {
            return Err(ScheduleFault::NoMemory);
        }
        self.events += count;
        Ok(())
    }

    /// Reads the next line, which has this number.
    fn read(&mut self, line: &[u8], number: u64) -> Result<(), ScheduleFault>
        requires { self.old.events ≤ 2 ^ 24 }
        ensures adds { OnOk result (Adds number (meaning_of line.now) self.old self.new) }
        ensures few { OnOk result (self.new.events ≤ 2 ^ 24) }
        ensures fault { IfErr result (λ fault. StopsAt (has_read self.old) number (meaning_of line.now) fault) }
    {
        match read_line(line) {
            Meaning::Skipped => Ok(()),
            Meaning::Says(Said::Shape(shape)) => self.keep_shape(number, shape),
            Meaning::Says(Said::Repeats { count, event }) => self.keep_event(number, count, event),
            Meaning::Bad => Err(ScheduleFault::BadLine(number)),
        }
    }

    /// The schedule, of so many bytes. Without a shape its first line is bad.
    fn finish(self, bytes: u64) -> Result<Schedule, ScheduleFault>
        ensures shape { IfOk result (λ schedule. self.shape ≡ Some schedule.shape) }
        ensures lines { IfOk result (λ schedule. schedule.lines ≡ self.lines.items) }
        ensures bytes { IfOk result (λ schedule. schedule.bytes ≡ bytes) }
        ensures fault { IfErr result (λ fault. (fault ≡ BadLine 1) × (self.shape ≡ None)) }
    {
        let Some(shape) = self.shape else {
            return Err(ScheduleFault::BadLine(1));
        };
        Ok(Schedule {
            shape,
            lines: RepeatList::new(self.lines),
            bytes,
        })
    }
}

/// The schedule that bytes say, or their first line that isn't of the language.
pub(crate) fn read_lines(alloc: Global, bytes: &[u8]) -> Result<Schedule, ScheduleFault>
    requires { length bytes.now ≤ 2 ^ 24 }
    ensures answer { AnswersTo bytes.now result }
    ensures few { IfOk result (λ schedule. events_in schedule.lines ≤ 2 ^ 24) }
{
    let mut writer = ScheduleWriter::new(alloc);
    let mut number = 1;
    let mut rest = bytes;
    while let Some((line, after)) = split_line(rest) {
        writer.read(line, number)?;
        number += 1;
        rest = after;
    }
    writer.read(rest, number)?;
    writer.finish(bytes.len() as u64)
}
