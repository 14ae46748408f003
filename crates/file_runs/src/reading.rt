// The files of a run: each is opened and read to its end, in turn.
ghost use Rattle.std.specs.Prelude.{◌≡◌, ℕ, ◌+◌, ◌-◌, ◌^◌, ◌<◌, ◌≤◌, List, Option, length, map, string_bytes, All, IfOk, IfErr};
ghost use Rattle.std.specs.Prelude.{IfSome, OnOk, Some, Err};
ghost use Rattle.line_text.specs.Leaving.{LeavesFiles};
ghost use Rattle.pool_io.specs.Counts.{HasRisen};
ghost use Rattle.file_runs.specs.Reading.{FileAnswers, ReadsAll, StopsReading, ending_for};

use crate::Ending;
use line_text::TextFault;
use pool_io::Files;
use std::alloc::Global;

/// The most bytes of all files of a run.
const MOST_BYTES: u64 = 1 << 26;

/// What one file says, and how many bytes it has.
#[derive(Drop)]
pub struct ReadFile<T> {
    pub said: T,
    pub bytes: u64,
}

/// A language of files.
pub trait Language {
    /// What a file says.
    type Said: Drop;

    /// The number of the first line that isn't of the language.
    ghost bad: { Self → List ℕ → Option ℕ };

    /// These bytes say this.
    ghost says: { Self → List ℕ → Self.Said → Type 0 };

    /// What is said has this fact besides.
    ghost usable: { Self → Self.Said → Type 0 };

    /// Reads what a source has left, of which at most `room` bytes may be taken.
    fn read<F: Files>(
        &self,
        alloc: Global,
        files: &mut F,
        source: F::Source,
        room: u64,
    ) -> Result<ReadFile<Self::Said>, TextFault>
        ensures answer { IfSome (F.left files.old source) (λ left.
            FileAnswers (bad self.now) (says self.now) (F.reliable files.old) room left result) }
        ensures within { IfOk result (λ file. file.bytes ≤ room) }
        ensures usable { IfOk result (λ file. usable self.now file.said) }
        ensures leaves { LeavesFiles F.Files files.old files.new result };
}

/// Opens a file and reads it to its end. At most `room` bytes may be taken.
fn read_file<F: Files, L: Language>(
    alloc: Global,
    files: &mut F,
    name: &str,
    room: u64,
    language: &L,
) -> Result<ReadFile<L::Said>, TextFault>
    requires { F.opens files.old < 2 ^ 64 - 1 }
    ensures answer { (bytes : List ℕ) → F.told files.old name.now ≡ Some bytes →
        FileAnswers (L.bad language.now) (L.says language.now) (F.reliable files.old) room bytes result }
    ensures within { IfOk result (λ file. file.bytes ≤ room) }
    ensures usable { IfOk result (λ file. L.usable language.now file.said) }

    ensures names { F.told files.new ≡ F.told files.old }
    ensures opens { F.opens files.new ≡ F.opens files.old + 1 }
    ensures never_falls { F.faults files.old ≤ F.faults files.new }
    ensures failed { result ≡ Err TextFault.ReadFault → HasRisen (F.faults files.old) (F.faults files.new) }
    ensures reliable { F.reliable files.old → F.reliable files.new }
{
    let Ok(source) = files.open(name) else {
        return Err(TextFault::ReadFault);
    };
    language.read(alloc, files, source, room)
}

/// How a run ends for a fault of this file, counted from 1.
fn ending_at(file: u64, fault: TextFault) -> Ending
    ensures { result ≡ ending_for file fault }
{
    match fault {
        TextFault::ReadFault => Ending::Read { file },
        TextFault::TooLong => Ending::Long { file },
        TextFault::BadLine(line) => Ending::Line { file, line },
        TextFault::NoMemory => Ending::Memory,
    }
}

/// What all files say, in their order. Ends at the first file that can't be read, or for want of memory.
pub fn read_files<F: Files, L: Language>(
    alloc: Global,
    files: &mut F,
    names: &[String],
    language: &L,
) -> Result<Vec<L::Said>, Ending>
    requires { F.opens files.old + length names.now < 2 ^ 64 }
    ensures said { IfOk result (λ said.
        ReadsAll (L.bad language.now) (L.says language.now) (F.told files.old) (map string_bytes names.now) said.items) }
    ensures usable { IfOk result (λ said. All (L.usable language.now) said.items) }
    ensures opened { OnOk result (F.opens files.new ≡ F.opens files.old + length names.now) }
    ensures stopped { IfErr result
        (StopsReading F.Files files.old files.new (L.bad language.now) (map string_bytes names.now)) }
{
    let mut said = Vec::new(alloc);
    let mut taken = 0;
    for (index, name) in names.iter().enumerate() {
        match read_file(alloc, files, name.as_str(), MOST_BYTES - taken, language) {
            Ok(file) => {
                taken += file.bytes;
                let Ok(()) = said.push(file.said) else {
                    return Err(Ending::Memory);
                };
            }
            Err(fault) => return Err(ending_at(index as u64 + 1, fault)),
        }
    }
    Ok(said)
}
