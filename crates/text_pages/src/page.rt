// A page of text that is still to be written.
ghost use Rattle.std.specs.Prelude.{◌≡◌, ◌≤◌, [], length};
ghost use Rattle.pool_io.specs.Writes.{Writes};
ghost use Rattle.text_pages.specs.Pages.{Adds};

use arrayvec::ArrayString;
use pool_io::{Failed, Sink, write_whole};
use std::marker::Model;

/// How many bytes are written at once at most.
const PAGE_BYTES: usize = 4096;

/// Pieces of text that are put together before they are written. It takes no memory. Contracts see its bytes.
#[derive(Debug, Drop)]
pub struct Page {
    text: ArrayString<PAGE_BYTES>,
}

impl Model for Page {
    ghost use Rattle.std.specs.Prelude.{ℕ, List};

    ghost Value = { List ℕ };

    ghost view = { λ page. page.text.bytes };
}

impl Page {
    /// How many bytes a piece has at most.
    pub const MOST_BYTES: usize = PAGE_BYTES;

    /// A page without text.
    pub fn new() -> Page
        ensures { result ≡ [] }
    {
        Page {
            text: ArrayString::new(),
        }
    }

    /// Adds a piece of text behind what the page has. Where the page has no room for it, what it has is written first.
    /// Fails where the sink does; some of the page's text, not all, may then have been taken.
    pub fn add<K: Sink>(&mut self, out: &mut K, piece: &str) -> Result<(), Failed>
        requires { length piece.now ≤ PAGE_BYTES }
        ensures { Adds K.Sink piece.now out.old out.new self.old self.new result }
    {
        if self.text.len() + piece.len() > PAGE_BYTES {
            write_whole(out, self.text.as_str().as_bytes())?;
            self.text.clear();
        }
        self.text.push_str(piece);
        Ok(())
    }

    /// Writes what the page has. Fails where the sink does; some of that text, not all, may then have been taken.
    pub fn finish<K: Sink>(self, out: &mut K) -> Result<(), Failed>
        ensures { Writes K.Sink self out.old out.new result }
    {
        write_whole(out, self.text.as_str().as_bytes())
    }
}
