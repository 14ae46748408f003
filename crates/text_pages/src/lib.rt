//! Text that is written to a sink page by page, in the memory of one page.
//!
//! Who writes a text keeps a [`Page`] beside the sink and adds pieces to it. A page without room for the next piece is
//! written and emptied first; `specs/` says what is then written and what the page has.
#![tactic(auto)]

mod page;
#[cfg(test)]
mod tests;

pub use page::Page;
