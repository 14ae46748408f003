// Files, sinks and words, in memory and of the system.
ghost use Rattle.std.specs.Prelude.{◌-◌, ◌^◌, ◌<◌};

use super::*;
use pool_model::NoMemory;
use std::alloc::{AllocError, Global};
use std::env::FillError;
use std::rt::Env;
use std::test::Fail;
use std::{env, fs, mem};

// Reads a file to its end, in pieces of at most 4 bytes. None where the files fail.
fn read_whole<F: Files>(
    alloc: Global,
    files: &mut F,
    name: &str,
) -> Result<Option<Vec<u8>>, AllocError>
    requires { F.opens files.old < 2 ^ 64 - 1 }
{
    let Ok(mut source) = files.open(name) else {
        return Ok(None);
    };
    let mut bytes = Vec::new(alloc);
    let mut buffer = [0; 4];
    for _ in 0..100 {
        match files.read(&mut source, &mut buffer) {
            Ok(0) => break,
            Ok(count) => bytes.extend_from_slice(&buffer[..count])?,
            Err(Failed) => return Ok(None),
        }
    }
    Ok(Some(bytes))
}

const TEXT: &[u8] = b"= End\n";

#[test]
fn memory_files_fail_at_the_named_calls(rt: HostRuntime) -> Result<(), Fail> {
    let alloc = rt.alloc();
    for (name, failing, most, is_read, calls) in [
        ("f", 99, 1, true, 8),
        ("f", 99, 0, true, 8),
        ("f", 99, 100, true, 4),
        ("f", 0, 1, false, 1),
        ("f", 3, 1, false, 4),
        ("f", 7, 1, false, 8),
        ("f", 8, 1, true, 8),
        ("g", 99, 1, false, 1),
    ] {
        let failing_calls = vec![in alloc; failing]?;
        let mut files = MemoryFiles::of_one(alloc, "f", TEXT, failing_calls, most)?;
        let read = read_whole(alloc, &mut files, name)?;
        let is_whole = read.is_some_and(|bytes| bytes.as_slice() == TEXT);
        let counts = (is_whole, files.calls, files.opens, files.faults);
        assert_eq!(rt;
            counts,
            (is_read, calls, 1, u64::from(!is_read)),
            "{name} {failing} {most}"
        );
    }
    Ok(())
}

#[test]
fn a_memory_sink_takes_what_fits(rt: HostRuntime) -> Result<(), Fail> {
    let alloc = rt.alloc();
    for (room, failing, most, is_whole, taken) in [
        (7, 99, 3, true, "1: news"),
        (9, 99, 0, true, "1: news"),
        (7, 5, 1, false, "1: ne"),
        (6, 99, 4, false, "1: new"),
        (0, 99, 1, false, ""),
    ] {
        let mut sink = MemorySink::new(alloc, room, vec![in alloc; failing]?, most)?;
        let written = write_whole(&mut sink, b"1: news").is_ok();
        let is_taken = sink.bytes.as_slice() == taken.as_bytes();
        assert_eq!(rt;
            (written, is_taken),
            (is_whole, true),
            "{room} {failing} {most}"
        );
    }
    Ok(())
}

#[test]
fn the_systems_files_answer_as_it_does(rt: HostRuntime) -> Result<(), Fail> {
    let alloc = rt.alloc();
    let names = ["pool_io_test.txt", " blanks around "];
    for name in names {
        fs::write(&rt, name, TEXT)?;
    }
    for (name, is_file) in [
        ("pool_io_test.txt", true),
        (" blanks around ", true),
        ("blanks around", false),
        ("pool_io_missing.txt", false),
        ("", false),
        (".", false),
    ] {
        let mut files = RealFiles::new(&rt);
        let read = read_whole(alloc, &mut files, name)?;
        let is_whole = read.is_some_and(|bytes| bytes.as_slice() == TEXT);
        assert_eq!(rt;
            (is_whole, files.opens, files.faults),
            (is_file, 1, u64::from(!is_file)),
            "{name}"
        );
    }
    for name in names {
        fs::remove_file(&rt, name)?;
    }
    Ok(())
}

#[test]
fn the_systems_streams_take_a_text(rt: HostRuntime) -> Result<(), Fail> {
    let mut out = StdSink::out(rt.stdout());
    let mut err = StdSink::err(rt.stderr());
    write_whole(&mut out, b"out\n")?;
    write_whole(&mut err, b"err\n")?;
    assert_eq!(rt; (out.write(b""), err.write(b"")), (Ok(0), Ok(0)));
    Ok(())
}

#[test]
fn a_writer_that_takes_no_more_is_a_fault(rt: HostRuntime) -> Result<(), Fail> {
    for (text, is_whole, faults) in [
        (b"1: n".as_slice(), true, 0),
        (b"1: ne".as_slice(), false, 1),
    ] {
        let mut room = [0; 4];
        let mut sink = StreamSink::new(room.as_mut_slice());
        let written = write_whole(&mut sink, text).is_ok();
        assert_eq!(rt; (written, sink.faults), (is_whole, faults));
        assert_eq!(rt; room.as_slice(), b"1: n".as_slice());
    }
    Ok(())
}

// A system that gives the words that stand between bytes 10.
#[derive(Drop)]
struct Given(&'static [u8]);

impl Env for Given {
    fn arg(&self, index: usize, buffer: &mut [u8]) -> Result<usize, FillError> {
        let mut words = self.0.split(|byte| *byte == b'\n');
        let word = words.nth(index).ok_or(FillError::NotPresent)?;
        if word.len() > buffer.len() {
            return Err(FillError::TooLong);
        }
        buffer[..word.len()].copy_from_slice(word);
        Ok(word.len())
    }

    fn var(&self, _name: &str, _buffer: &mut [u8]) -> Result<usize, FillError> {
        Err(FillError::NotPresent)
    }

    fn var_at(&self, _index: usize, _buffer: &mut [u8]) -> Result<usize, FillError> {
        Err(FillError::NotPresent)
    }
}

#[test]
fn a_word_that_is_no_text_leaves_no_words(rt: HostRuntime) -> Result<(), Fail> {
    let alloc = rt.alloc();
    for (given, expected) in [
        (
            b"pooltrace\nplay\n f".as_slice(),
            ["pooltrace", "play", " f"].as_slice(),
        ),
        (
            b"pooltrace\n\xc3\xa9".as_slice(),
            ["pooltrace", "\u{e9}"].as_slice(),
        ),
        (b"pooltrace\n\xff\nf".as_slice(), [].as_slice()),
    ] {
        let found = words(alloc, env::args(&(Given(given), alloc)))?;
        assert_eq!(rt; found.len(), expected.len());
        for (word, text) in found.iter().zip(expected) {
            assert_eq!(rt; word.as_str(), *text);
        }
    }
    Ok(())
}

#[test]
fn errors_have_a_text(rt: HostRuntime) -> Result<(), Fail> {
    let alloc = rt.alloc();
    assert_eq!(rt; format!(in alloc; "{Failed}")?.as_str(), "failed");
    assert_eq!(rt; format!(in alloc; "{NoMemory}")?.as_str(), "no memory");
    Ok(())
}

#[test]
fn noted_reads_have_no_bytes(rt: HostRuntime) -> Result<(), Fail> {
    let reads = Reads::default();
    assert_eq!(rt; mem::size_of_val(&reads), 0);
    assert_eq!(rt; format!(in rt.alloc(); "{reads:?}")?.as_str(), "Reads");
    Ok(())
}
