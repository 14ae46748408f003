// The text of a replay on an output sink.
ghost use Rattle.std.specs.Prelude.{◌≡◌, ◌+◌, ◌≤◌, ◌++◌, decimal, flat_map, length};
ghost use Rattle.arrayvec.specs.ArrayString.{array_string_len};
ghost use Rattle.pool_io.specs.Writes.{Writes};
ghost use Rattle.text_pages.specs.Pages.{Adds};
ghost use Rattle.schedule_replay.specs.Text.{entry_text, happened_text, head_text, kept_line, kept_lines, note_line, replay_text};
ghost use Rattle.schedule_replay.specs.Text.{stack_line, tag_line};

use crate::notes::Note;
use crate::replaying::Replayed;
use arrayvec::ArrayString;
use interleaving_core::Happened;
use itoa::Buffer;
use pool_io::{Failed, Sink};
use pool_model::Entry;
use text_pages::Page;

/// How many bytes a line, or a word of the line of heads, has at most: three numbers and 20 bytes between.
const LONGEST_PIECE: usize = 80;

/// A line, or a word of the line of heads. It takes no memory.
type Piece = ArrayString<LONGEST_PIECE>;

/// Appends a number, which has at most 20 digits.
fn push_number(piece: &mut Piece, number: u64)
    requires { array_string_len piece.old + 20 ≤ LONGEST_PIECE }
    ensures text { piece.new.bytes ≡ piece.old.bytes ++ decimal number }
    ensures length { array_string_len piece.new ≤ array_string_len piece.old + 20 }
{
    piece.push_str(Buffer::new().format(number));
}

/// Appends a word and a number.
fn push_word(piece: &mut Piece, word: &str, number: u64)
    requires { array_string_len piece.old + length word.now + 20 ≤ LONGEST_PIECE }
    ensures text { piece.new.bytes ≡ (piece.old.bytes ++ word.now) ++ decimal number }
    ensures length { array_string_len piece.new ≤ array_string_len piece.old + length word.now + 20 }
{
    piece.push_str(word);
    push_number(piece, number);
}

/// Appends what happened.
fn push_happened(piece: &mut Piece, what: Happened)
    requires { array_string_len piece.old + 27 ≤ LONGEST_PIECE }
    ensures text { piece.new.bytes ≡ piece.old.bytes ++ happened_text what }
    ensures length { array_string_len piece.new ≤ array_string_len piece.old + 27 }
{
    match what {
        Happened::Step(_) => piece.push_str("step"),
        Happened::Ended { entry, .. } => push_entry(piece, entry),
        Happened::Loaded(word) => push_word(piece, "loaded ", word),
        Happened::Stored => piece.push_str("stored"),
        Happened::Ignored => piece.push_str("ignored"),
    }
}

/// Appends an entry.
fn push_entry(piece: &mut Piece, entry: Entry)
    requires { array_string_len piece.old + 27 ≤ LONGEST_PIECE }
    ensures text { piece.new.bytes ≡ piece.old.bytes ++ entry_text entry }
    ensures length { array_string_len piece.new ≤ array_string_len piece.old + 27 }
{
    match entry {
        Entry::Got { block, .. } => push_word(piece, "got ", u64::from(block)),
        Entry::Back { block, .. } => push_word(piece, "back ", u64::from(block)),
        Entry::Dry { .. } => piece.push_str("dry"),
    }
}

/// The line of a note.
fn note_piece(note: &Note) -> Piece
    ensures { result.bytes ≡ note_line note.now }
{
    let mut piece = Piece::new();
    push_number(&mut piece, note.line);
    push_word(&mut piece, ": ", u64::from(note.by));
    piece.push_str(" ");
    push_happened(&mut piece, note.what);
    piece.push_str("\n");
    piece
}

/// The line of the state's number.
fn tag_piece(tag: u64) -> Piece
    ensures { result.bytes ≡ tag_line tag }
{
    let mut piece = Piece::new();
    push_word(&mut piece, "tag ", tag);
    piece.push_str("\n");
    piece
}

/// A head of the stack.
fn head_piece(head: u32) -> Piece
    ensures { result.bytes ≡ head_text head }
{
    let mut piece = Piece::new();
    push_word(&mut piece, " ", u64::from(head));
    piece
}

/// The line of what a process keeps.
fn kept_piece(process: usize, kept: u32) -> Piece
    ensures { result.bytes ≡ kept_line process kept }
{
    let mut piece = Piece::new();
    piece.push_str("kept ");
    piece.push_str(Buffer::new().format(process));
    push_word(&mut piece, " ", u64::from(kept));
    piece.push_str("\n");
    piece
}

/// Adds the lines of notes to a page.
fn add_notes<K: Sink>(out: &mut K, page: &mut Page, notes: &[Note]) -> Result<(), Failed>
    ensures { Adds K.Sink (flat_map note_line notes.now) out.old out.new page.old page.new result }
{
    for note in notes {
        page.add(out, note_piece(note).as_str())?;
    }
    Ok(())
}

/// Adds the heads of the stack to a page.
fn add_heads<K: Sink>(out: &mut K, page: &mut Page, stack: &[u32]) -> Result<(), Failed>
    ensures { Adds K.Sink (flat_map head_text stack.now) out.old out.new page.old page.new result }
{
    for head in stack {
        page.add(out, head_piece(*head).as_str())?;
    }
    Ok(())
}

/// Adds the line of the stack to a page.
fn add_stack<K: Sink>(out: &mut K, page: &mut Page, stack: &[u32]) -> Result<(), Failed>
    ensures { Adds K.Sink (stack_line stack.now) out.old out.new page.old page.new result }
{
    page.add(out, "stack")?;
    add_heads(out, page, stack)?;
    page.add(out, "\n")
}

/// Adds the lines of what each process keeps to a page.
fn add_kept<K: Sink>(out: &mut K, page: &mut Page, kept: &[u32]) -> Result<(), Failed>
    ensures { Adds K.Sink (kept_lines 0 kept.now) out.old out.new page.old page.new result }
{
    for (process, blocks) in kept.iter().enumerate() {
        page.add(out, kept_piece(process, *blocks).as_str())?;
    }
    Ok(())
}

/// Writes the text of a replay: a line for each note, then the number of the state, the stack, and what each process keeps.
/// Fails where the sink does; some of the text, not all, may then have been taken. Takes no memory.
pub fn write_replay<K: Sink>(out: &mut K, replayed: &Replayed) -> Result<(), Failed>
    ensures { Writes K.Sink (replay_text replayed.now) out.old out.new result }
{
    let mut page = Page::new();
    add_notes(out, &mut page, &replayed.notes)?;
    page.add(out, tag_piece(replayed.tag).as_str())?;
    add_stack(out, &mut page, &replayed.stack)?;
    add_kept(out, &mut page, &replayed.kept)?;
    page.finish(out)
}
