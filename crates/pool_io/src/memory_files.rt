// Files in memory.
ghost use Rattle.std.specs.Prelude.{◌≡◌, ◌+◌, ◌-◌, ◌^◌, ◌<◌, ◌≤◌, ◌↔◌, ◌⊎◌, [], length, take, drop, min, max, position, unwrap_or};
ghost use Rattle.std.specs.Prelude.{Contains, IfOk, OnOk, OnErr, IsErr, IsNone};
ghost use Rattle.pool_io.specs.Counts.{NoneFrom};
ghost use Rattle.pool_io.specs.Told.{HandsOut};

use crate::counts::{count_call, raise};
use crate::{Failed, Files, Reads};
use pool_model::NoMemory;
use std::alloc::Global;

/// Files in memory, each with its name; of two with the same name the first is opened. Takes no memory.
///
/// Its calls of `open` and `read` are counted together, from 0. It fails exactly at those named in
/// `failing`, and at an `open` of an unknown name.
#[derive(Debug, Drop)]
pub struct MemoryFiles {
    /// Each file's name and bytes.
    pub files: Vec<(String, Vec<u8>)>,
    /// The numbers of the calls that fail.
    pub failing: Vec<u64>,
    /// How many bytes a read gives at most; 0 counts as 1.
    pub most: usize,
    /// How many calls there were. Stays at `u64::MAX`.
    pub calls: u64,
    /// How many of them were opens.
    pub opens: u64,
    /// How many of them failed. Stays at `u64::MAX`.
    pub faults: u64,
    /// What all reads answered.
    pub reads: Reads,
}

/// An open file in memory: which of the files it is, and up to which byte it was read.
#[derive(Debug, Drop)]
pub struct MemorySource {
    file: usize,
    place: usize,
}

impl MemoryFiles {
    ghost use Rattle.std.specs.Prelude.{Some, length};
    ghost use Rattle.pool_io.specs.MemoryFiles.{is_named, bytes_of, bytes_left, faulted};

    /// Files of which no call was made so far.
    pub fn new(files: Vec<(String, Vec<u8>)>, failing: Vec<u64>, most: usize) -> MemoryFiles
        ensures setting { (result.files ≡ files) × (result.failing ≡ failing) × (result.most ≡ most) }
        ensures counts { (result.calls ≡ 0) × (result.opens ≡ 0) × (result.faults ≡ 0) }
        ensures reads { result.reads ≡ [] }
    {
        MemoryFiles {
            files,
            failing,
            most,
            calls: 0,
            opens: 0,
            faults: 0,
            reads: Reads::new(),
        }
    }

    /// One file, of which no call was made so far. Fails for want of memory.
    pub fn of_one(
        alloc: Global,
        name: &str,
        bytes: &[u8],
        failing: Vec<u64>,
        most: usize,
    ) -> Result<MemoryFiles, NoMemory>
        ensures told { IfOk result (λ files. bytes_of files name.now ≡ Some bytes.now) }
        ensures alone { IfOk result (λ files. length files.files.items ≡ 1) }
        ensures setting { IfOk result (λ files. (files.failing ≡ failing) × (files.most ≡ most)) }
        ensures counts { IfOk result (λ files. (files.calls ≡ 0) × (files.opens ≡ 0) × (files.faults ≡ 0)) }
        ensures reads { IfOk result (λ files. files.reads ≡ []) }
    {
        let file = (String::from_str(alloc, name)?, bytes.to_vec(alloc)?);
        Ok(MemoryFiles::new(vec![in alloc; file]?, failing, most))
    }

    // Which of the files is the first of this name.
    fn place_of(&self, name: &str) -> Option<usize>
        ensures { result ≡ position (is_named name.now) self.now.files.items }
    {
        self.files.iter().position(|file| file.0.as_str() == name)
    }

    // What the source has left; nothing, where it is of other files.
    fn rest<'a>(&'a self, source: &MemorySource) -> &'a [u8]
        ensures { result.now ≡ unwrap_or (bytes_left self.now source.now) [] }
    {
        match self.files.get(source.file) {
            Some((_, bytes)) => &bytes[source.place.min(bytes.len())..],
            None => &[],
        }
    }

    fn fail(&mut self) -> Failed
        ensures { self.new ≡ faulted self.old }
    {
        raise(&mut self.faults);
        Failed
    }
}

impl Files for MemoryFiles {
    ghost use Rattle.pool_io.specs.MemoryFiles.{bytes_of, bytes_left, called, opened, noted, faulted};

    type Source = MemorySource;

    ghost faults = { λ files. files.faults };

    ghost opens = { λ files. files.opens };

    ghost told = { bytes_of };

    ghost left = { bytes_left };

    ghost reads = { λ files. files.reads };

    ghost reliable = { λ files. NoneFrom files.failing.items files.calls };

    fn open(&mut self, name: &str) -> Result<MemorySource, Failed>
        requires { self.old.opens < 2 ^ 64 - 1 }

        ensures source { IfOk result (λ source. bytes_left self.new source ≡ bytes_of self.old name.now) }
        ensures fails { IsErr result ↔
            (Contains self.old.failing.items self.old.calls ⊎ IsNone (bytes_of self.old name.now)) }

        ensures ok { OnOk result (self.new ≡ opened (called self.old)) }
        ensures err { OnErr result (self.new ≡ faulted (opened (called self.old))) }

        ensures never_falls { self.old.faults ≤ self.new.faults }
        ensures reliable { NoneFrom self.old.failing.items self.old.calls →
            NoneFrom self.new.failing.items self.new.calls }
    {
        self.opens += 1;
        if count_call(&mut self.calls, &self.failing) {
            return Err(self.fail());
        }
        match self.place_of(name) {
            Some(file) => Ok(MemorySource { file, place: 0 }),
            None => Err(self.fail()),
        }
    }

    fn read(&mut self, source: &mut MemorySource, buffer: &mut [u8]) -> Result<usize, Failed>
        ensures fits { IfOk result (λ count. count ≤ length buffer.new) }
        ensures count { IfOk result (λ count. count ≡ min (max self.old.most 1)
            (min (length buffer.old) (length (unwrap_or (bytes_left self.old source.old) [])))) }
        ensures next { IfOk result (λ count.
            HandsOut (bytes_left self.old source.old) (bytes_left self.new source.new) (take count buffer.new)) }
        ensures behind { IfOk result (λ count. drop count buffer.new ≡ drop count buffer.old) }
        ensures kept { OnErr result ((source.new ≡ source.old) × (buffer.new ≡ buffer.old)) }
        ensures fails { IsErr result ↔ Contains self.old.failing.items self.old.calls }

        ensures ok { IfOk result (λ count. self.new ≡ noted (Some count) (called self.old)) }
        ensures err { OnErr result (self.new ≡ faulted (noted None (called self.old))) }

        ensures never_falls { self.old.faults ≤ self.new.faults }
        ensures reliable { NoneFrom self.old.failing.items self.old.calls →
            NoneFrom self.new.failing.items self.new.calls }
    {
        if count_call(&mut self.calls, &self.failing) {
            self.reads.note(None);
            return Err(self.fail());
        }
        let rest = self.rest(source);
        let count = rest.len().min(buffer.len()).min(self.most.max(1));
        buffer[..count].copy_from_slice(&rest[..count]);
        source.place += count;
        self.reads.note(Some(count));
        Ok(count)
    }
}
