// The line on the error sink.
ghost use Rattle.std.specs.Prelude.{◌≡◌, ◌+◌, ◌≤◌, length};
ghost use Rattle.arrayvec.specs.ArrayString.{array_string_len};
ghost use Rattle.pool_io.specs.Writes.{Writes};
ghost use Rattle.file_runs.specs.Ending.{file_text, line_of};

use crate::Ending;
use crate::line::{Line, push_number};
use pool_io::{Failed, Sink, write_whole};

/// How many bytes the name of a program has at most.
pub const LONGEST_NAME: usize = 32;

/// The beginning of the line of an ending of this program at a file.
fn file_line(program: &str, file: u64) -> Line
    requires { length program.now ≤ LONGEST_NAME }
    ensures text { result.bytes ≡ file_text program.now file }
    ensures length { array_string_len result ≤ LONGEST_NAME + 48 }
{
    let mut line = named_line(program);
    line.push_str(": file ");
    push_number(&mut line, u128::from(file));
    line
}

/// A line with the name of this program.
fn named_line(program: &str) -> Line
    requires { length program.now ≤ LONGEST_NAME }
    ensures text { result.bytes ≡ program.now }
    ensures length { array_string_len result ≤ LONGEST_NAME }
{
    let mut line = Line::new();
    line.push_str(program);
    line
}

/// The line of an ending of this program.
fn ending_line(program: &str, ending: Ending) -> Line
    requires { length program.now ≤ LONGEST_NAME }
    ensures { result.bytes ≡ line_of program.now ending }
{
    let mut line = named_line(program);
    match ending {
        Ending::Done => line = Line::new(),
        Ending::Words => line.push_str(": words\n"),
        Ending::Shape(fault) => {
            line.push_str(": shape ");
            push_number(&mut line, u128::from(fault.number()));
            line.push_str("\n");
        }
        Ending::Read { file } => {
            line = file_line(program, file);
            line.push_str(" read\n");
        }
        Ending::Long { file } => {
            line = file_line(program, file);
            line.push_str(" long\n");
        }
        Ending::Line { file, line: number } => {
            line = file_line(program, file);
            line.push_str(" line ");
            push_number(&mut line, u128::from(number));
            line.push_str("\n");
        }
        Ending::Write => line.push_str(": write\n"),
        Ending::Memory => line.push_str(": memory\n"),
    }
    line
}

/// Writes the line of an ending of this program, in one piece.
pub fn tell<K: Sink>(err: &mut K, program: &str, ending: Ending) -> Result<(), Failed>
    requires { length program.now ≤ LONGEST_NAME }
    ensures { Writes K.Sink (line_of program.now ending) err.old err.new result }
{
    write_whole(err, ending_line(program, ending).as_str().as_bytes())
}
