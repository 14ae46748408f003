// The report on an output sink.
ghost use Rattle.std.specs.Prelude.{◌≡◌, ℕ, ◌+◌, ◌^◌, ◌<◌, ◌≤◌, List, ◌++◌, EachIndex, Some, decimal, length, slice_get, slice_index};
ghost use Rattle.arrayvec.specs.ArrayString.{array_string_len};
ghost use Rattle.pool_io.specs.Writes.{Writes};
ghost use Rattle.trace_player.specs.Report.{column_text, columns_of, line_text, lines_from, report, sums_of};

use file_runs::{LONGEST_LINE, Line, push_number};
use itoa::Buffer;
use pool_io::{Failed, Sink, write_whole};
use std::slice;
use trace_player::Tally;

/// Appends a column: its name and its number.
fn push_column(line: &mut Line, name: &str, number: u128)
    requires { array_string_len line.old + length name.now + 42 ≤ LONGEST_LINE }
    ensures text { line.new.bytes ≡ line.old.bytes ++ column_text (name.now, number) }
    ensures length { array_string_len line.new ≤ array_string_len line.old + length name.now + 42 }
{
    line.push_str(" ");
    line.push_str(name);
    line.push_str(" ");
    push_number(line, number);
}

/// Adds the numbers of a file's columns to the sums, place by place.
fn add_columns(sums: &mut [u128; 10], tally: &Tally)
    requires { EachIndex sums.old (λ place. slice_index sums.old place < 2 ^ 127) }
    ensures added { (place : ℕ) (column : List ℕ × ℕ) → slice_get (columns_of tally.now) place ≡ Some column
        → slice_index sums.new place ≡ slice_index sums.old place + column.1 }
    ensures small { (place : ℕ) → slice_index sums.new place ≤ slice_index sums.old place + 2 ^ 64 }
{
    let columns = tally.columns();
    for place in 0..columns.len() {
        sums[place] += u128::from(columns[place].1);
    }
}

/// The numbers of the columns of the sums over files.
fn sums_of_columns(tallies: &[Tally]) -> [u128; 10]
    requires { length tallies.now < 2 ^ 32 }
    ensures { (place : ℕ) (column : List ℕ × ℕ) → slice_get (sums_of tallies.now) place ≡ Some column
        → slice_index result place ≡ column.1 }
{
    let mut sums = [0; 10];
    for tally in tallies {
        add_columns(&mut sums, tally);
    }
    sums
}

/// Writes a line, in one piece: what it is about, and the sums over its files.
fn write_line<K: Sink>(out: &mut K, label: &str, tallies: &[Tally]) -> Result<(), Failed>
    requires short { length label.now ≤ 20 }
    requires few { length tallies.now < 2 ^ 32 }
    ensures { Writes K.Sink (line_text label.now (sums_of tallies.now)) out.old out.new result }
{
    let mut line = Line::new();
    line.push_str(label);
    line.push_str(":");
    let columns = Tally::default().columns();
    let sums = sums_of_columns(tallies);
    for place in 0..columns.len() {
        push_column(&mut line, columns[place].0, sums[place]);
    }
    line.push_str("\n");
    write_whole(out, line.as_str().as_bytes())
}

/// Writes the line of a file.
fn write_file<K: Sink>(out: &mut K, number: usize, tally: &Tally) -> Result<(), Failed>
    ensures { Writes K.Sink (line_text (decimal number) (columns_of tally.now)) out.old out.new result }
{
    write_line(out, Buffer::new().format(number), slice::from_ref(tally))
}

/// Writes the lines of the files.
fn write_files<K: Sink>(out: &mut K, tallies: &[Tally]) -> Result<(), Failed>
    requires { length tallies.now < 2 ^ 32 }
    ensures { Writes K.Sink (lines_from 1 tallies.now) out.old out.new result }
{
    for (index, tally) in tallies.iter().enumerate() {
        write_file(out, index + 1, tally)?;
    }
    Ok(())
}

/// Writes the report of some files, each line in one piece. Fails where the sink does; some of the report, not
/// all, may then have been taken. Takes no memory.
pub(crate) fn write_report<K: Sink>(out: &mut K, tallies: &[Tally]) -> Result<(), Failed>
    requires { length tallies.now < 2 ^ 32 }
    ensures { Writes K.Sink (report tallies.now) out.old out.new result }
{
    write_files(out, tallies)?;
    write_line(out, "all", tallies)
}
