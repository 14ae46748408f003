// The replies to a script on an output sink.
ghost use Rattle.std.specs.Prelude.{◌≡◌, ◌+◌, ◌≤◌, ◌++◌, codes, decimal, OnOk};
ghost use Rattle.arrayvec.specs.ArrayString.{array_string_len};
ghost use Rattle.pool_io.specs.Writes.{Writes};
ghost use Rattle.store_script.specs.Text.{Flushes, replies_text, reply_line, reply_text, value_text};

use crate::answered::Answered;
use crate::quad::Quad;
use arrayvec::ArrayString;
use itoa::Buffer;
use pool_io::{Failed, Sink, write_whole};

/// How many bytes a reply's line has at most: two numbers for the file and the key, four of the value, and 8 bytes between.
const LONGEST_LINE: usize = 128;

/// How many bytes are written in one piece at most.
const PAGE_BYTES: usize = 4096;

/// Lines that are put together before they are written. It takes no memory.
type Page = ArrayString<PAGE_BYTES>;

/// Appends a number, which has at most 20 digits.
fn push_number(page: &mut Page, number: u64)
    requires { array_string_len page.old + 20 ≤ PAGE_BYTES }
    ensures text { page.new.bytes ≡ page.old.bytes ++ decimal number }
    ensures length { array_string_len page.new ≤ array_string_len page.old + 20 }
{
    page.push_str(Buffer::new().format(number));
}

/// Appends a space and a number.
fn push_next(page: &mut Page, number: u64)
    requires { array_string_len page.old + 21 ≤ PAGE_BYTES }
    ensures text { page.new.bytes ≡ (page.old.bytes ++ codes " ") ++ decimal number }
    ensures length { array_string_len page.new ≤ array_string_len page.old + 21 }
{
    page.push_str(" ");
    push_number(page, number);
}

/// Appends a key and its numbers.
fn push_value(page: &mut Page, key: u64, value: Quad)
    requires { array_string_len page.old + 104 ≤ PAGE_BYTES }
    ensures text { page.new.bytes ≡ page.old.bytes ++ value_text key value }
    ensures length { array_string_len page.new ≤ array_string_len page.old + 104 }
{
    push_number(page, key);
    push_next(page, value.a);
    push_next(page, value.b);
    push_next(page, value.c);
    push_next(page, value.d);
}

/// Appends a reply.
fn push_reply(page: &mut Page, answer: &Answered)
    requires { array_string_len page.old + 104 ≤ PAGE_BYTES }
    ensures text { page.new.bytes ≡ page.old.bytes ++ reply_text answer.now }
    ensures length { array_string_len page.new ≤ array_string_len page.old + 104 }
{
    match answer {
        Answered::Done => page.push_str("ok"),
        Answered::Full => page.push_str("full"),
        Answered::Absent => page.push_str("none"),
        Answered::There => page.push_str("there"),
        Answered::Value { key, value } => push_value(page, *key, *value),
    }
}

/// Appends the line of a reply.
fn push_line(page: &mut Page, file: usize, answer: &Answered)
    requires { array_string_len page.old + LONGEST_LINE ≤ PAGE_BYTES }
    ensures { page.new.bytes ≡ page.old.bytes ++ reply_line file answer.now }
{
    page.push_str(Buffer::new().format(file));
    page.push_str(": ");
    push_reply(page, answer);
    page.push_str("\n");
}

/// Writes a page where it has no room for another line, and empties it.
fn make_room<K: Sink>(out: &mut K, page: &mut Page) -> Result<(), Failed>
    ensures room { OnOk result (array_string_len page.new + LONGEST_LINE ≤ PAGE_BYTES) }
    ensures flushed { Flushes K.Sink out.old out.new page.old.bytes page.new.bytes result }
{
    if page.len() + LONGEST_LINE > PAGE_BYTES {
        write_whole(out, page.as_str().as_bytes())?;
        page.clear();
    }
    Ok(())
}

/// Writes the replies to the script of a file: a line each, with the file's number. Fails where the sink does; some of the
/// text, not all, may then have been taken. Takes no memory.
pub fn write_replies<K: Sink>(out: &mut K, file: usize, answers: &[Answered]) -> Result<(), Failed>
    ensures { Writes K.Sink (replies_text file answers.now) out.old out.new result }
{
    let mut page = Page::new();
    for answer in answers {
        make_room(out, &mut page)?;
        push_line(&mut page, file, answer);
    }
    write_whole(out, page.as_str().as_bytes())
}
