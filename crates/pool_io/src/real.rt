// The system's files and streams. What they hold or receive is not told.
ghost use Rattle.std.specs.Prelude.{◌≡◌, ◌<◌, ◌≤◌, ◌∷◌, ◌++◌, [], None, length, take, IfOk, IsOk, OnOk, OnErr};
ghost use Rattle.std.specs.Result.{result_ok};
ghost use Rattle.std.specs.Io.KnownBytes.{ReadConsumes, WriteAppends};
ghost use Rattle.pool_io.specs.Counts.{HasRisen, one_more};
ghost use Rattle.pool_io.specs.Told.{HandsOut, IsAtEnd};

use crate::answers::{counted, counted_write};
use crate::{Failed, Files, Reads, Sink};
use std::io::{Read, Stderr, Stdout, Write};
use std::{fs, io, rt};

/// The system's files, whose names are paths.
#[derive(Drop)]
pub struct RealFiles<'a, R> {
    runtime: &'a R,
    /// How many files were opened, those that couldn't be opened among them.
    pub opens: u64,
    /// How many calls failed. Stays at `u64::MAX`.
    pub faults: u64,
    /// What all reads answered.
    pub reads: Reads,
}

impl<'a, R: rt::Files> RealFiles<'a, R> {
    /// The files that a runtime reaches, with no open and no fault so far.
    pub fn new(runtime: &'a R) -> RealFiles<'a, R>
        ensures { (result.opens ≡ 0) × (result.faults ≡ 0) × (result.reads ≡ []) }
    {
        RealFiles {
            runtime,
            opens: 0,
            faults: 0,
            reads: Reads::new(),
        }
    }
}

impl<R: rt::Files> Files for RealFiles<'_, R> {
    type Source = R::File;

    ghost faults = { λ files. files.faults };

    ghost opens = { λ files. files.opens };

    ghost told = { λ _ _. None };

    ghost left = { λ _ _. None };

    ghost reads = { λ files. files.reads };

    fn open(&mut self, name: &str) -> Result<R::File, Failed> {
        self.opens += 1;
        counted(&mut self.faults, fs::open(self.runtime, name))
    }

    fn read(&mut self, source: &mut R::File, buffer: &mut [u8]) -> Result<usize, Failed>
        ensures file { ReadConsumes (R.File.remaining source.old) (R.File.remaining source.new) result buffer.new }
        ensures fits { IfOk result (λ count. count ≤ length buffer.new) }
        ensures next { IfOk result (λ count. HandsOut None None (take count buffer.new)) }
        ensures end { IfOk result (λ count. count ≡ 0 → 0 < length buffer.new → IsAtEnd None) }
        ensures opens { self.new.opens ≡ self.old.opens }
        ensures reads { self.new.reads ≡ self.old.reads ++ result_ok result ∷ [] }

        ensures never_falls { self.old.faults ≤ self.new.faults }
        ensures failed { OnErr result (HasRisen self.old.faults self.new.faults) }
        ensures no_fault { OnOk result (self.new.faults ≡ self.old.faults) }

        ensures sure { ⊥ → IsOk result }
    {
        let answer = counted(&mut self.faults, source.read(buffer));
        self.reads.note(answer.ok());
        answer
    }
}

/// What a writer is given, unbuffered: it takes what the writer takes, and fails where the writer fails, or takes nothing of a
/// piece that has a byte.
#[derive(Drop)]
pub struct StreamSink<W> {
    stream: W,
    /// How many writes failed. Stays at `u64::MAX`.
    pub faults: u64,
}

impl<W: Write> StreamSink<W> {
    /// A sink over a writer, with no fault so far.
    pub fn new(stream: W) -> StreamSink<W>
        ensures { (result.stream ≡ stream) × (result.faults ≡ 0) }
    {
        StreamSink { stream, faults: 0 }
    }
}

impl<W: Write> Sink for StreamSink<W> {
    ghost faults = { λ sink. sink.faults };

    ghost written = { λ _. None };

    fn write(&mut self, bytes: &[u8]) -> Result<usize, Failed>
        ensures stream { WriteAppends (W.contents self.old.stream) (W.contents self.new.stream) result bytes.now }
        ensures fits { IfOk result (λ count. count ≤ length bytes.now) }
        ensures some { IfOk result (λ count. 0 < length bytes.now → 0 < count) }

        ensures never_falls { self.old.faults ≤ self.new.faults }
        ensures failed { OnErr result (self.new.faults ≡ one_more self.old.faults) }
        ensures no_fault { OnOk result (self.new.faults ≡ self.old.faults) }
    {
        let answer = self.stream.write(bytes);
        counted_write(&mut self.faults, bytes, answer)
    }
}

/// One of the system's output streams. Nothing is buffered.
#[derive(Drop)]
pub enum StdStream {
    /// Standard output.
    Out(Stdout),
    /// Standard error.
    Err(Stderr),
}

impl Write for StdStream {
    fn write(&mut self, bytes: &[u8]) -> io::Result<usize> {
        match self {
            StdStream::Out(stream) => stream.write(bytes),
            StdStream::Err(stream) => stream.write(bytes),
        }
    }

    fn flush(&mut self) -> io::Result<()> {
        match self {
            StdStream::Out(stream) => stream.flush(),
            StdStream::Err(stream) => stream.flush(),
        }
    }
}

/// A sink over one of the system's output streams.
pub type StdSink = StreamSink<StdStream>;

impl StreamSink<StdStream> {
    /// Standard output, with no fault so far.
    pub fn out(stream: Stdout) -> StdSink
        ensures { result.faults ≡ 0 }
    {
        StreamSink::new(StdStream::Out(stream))
    }

    /// Standard error, with no fault so far.
    pub fn err(stream: Stderr) -> StdSink
        ensures { result.faults ≡ 0 }
    {
        StreamSink::new(StdStream::Err(stream))
    }
}
