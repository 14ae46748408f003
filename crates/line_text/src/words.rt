// The words of a line, found in place.
ghost use Rattle.std.specs.Prelude.{◌≡◌, ◌-◌, ◌<◌, ◌≤◌, ◌≢◌, [], ◌∷◌, ◌++◌, ℕ, length, slice_index, MatchOption};
ghost use Rattle.line_text.specs.Words.{words};

/// The byte between two words.
const SPACE: u8 = b' ';

/// The line without the spaces at its beginning.
fn trim_start(mut line: &[u8]) -> &[u8]
    ensures words { words result.now ≡ words line.entry.now }
    ensures begins { 0 < length result.now → slice_index result.now 0 ≢ 32 }
{
    while let [SPACE, rest @ ..] = line {
        line = rest;
    }
    line
}

/// Where the first word of a line ends that doesn't begin with a space.
fn first_word_end(line: &[u8]) -> usize
    ensures within { result ≤ length line.now }
    ensures word { (k : ℕ) → k < result → slice_index line.now k ≢ 32 }
    ensures after { result < length line.now → slice_index line.now result ≡ 32 }
{
    line.iter()
        .position(|byte| *byte == SPACE)
        .unwrap_or(line.len())
}

/// The first word of a line, and the line behind it. `None` where the line has no word.
pub fn split_first_word(line: &[u8]) -> Option<(&[u8], &[u8])>
    ensures { MatchOption result (words line.now ≡ [])
        (λ parts. words line.now ≡ parts.0.now ∷ words parts.1.now) }
{
    let line = trim_start(line);
    if line.is_empty() {
        return None;
    }
    Some(line.split_at(first_word_end(line)))
}

/// The line without the spaces at its end.
fn trim_end(mut line: &[u8]) -> &[u8]
    ensures words { words result.now ≡ words line.entry.now }
    ensures ends { 0 < length result.now → slice_index result.now (length result.now - 1) ≢ 32 }
{
    while let [rest @ .., SPACE] = line {
        line = rest;
    }
    line
}

/// Where the last word of a line begins that doesn't end with a space.
fn last_word_start(line: &[u8]) -> usize
    ensures within { result ≤ length line.now }
    ensures word { (k : ℕ) → result ≤ k → k < length line.now → slice_index line.now k ≢ 32 }
    ensures before { 0 < result → slice_index line.now (result - 1) ≡ 32 }
{
    line.iter()
        .rposition(|byte| *byte == SPACE)
        .map_or(0, |space| space + 1)
}

/// The line before its last word, and that word. `None` where the line has no word.
pub fn split_last_word(line: &[u8]) -> Option<(&[u8], &[u8])>
    ensures { MatchOption result (words line.now ≡ [])
        (λ parts. words line.now ≡ words parts.0.now ++ parts.1.now ∷ []) }
{
    let line = trim_end(line);
    if line.is_empty() {
        return None;
    }
    Some(line.split_at(last_word_start(line)))
}
