// The lines of bytes, found in place.
ghost use Rattle.std.specs.Prelude.{◌≡◌, ◌∷◌, ◌++◌, position, IfNone, IfSome};
ghost use Rattle.line_text.specs.Lines.{is_end, HasNoEnd};

/// The byte that ends a line.
const LINE_END: u8 = b'\n';

/// Where the first line ends.
fn line_end(bytes: &[u8]) -> Option<usize>
    ensures { result ≡ position is_end bytes.now }
{
    bytes.iter().position(|byte| *byte == LINE_END)
}

/// The first line, without its end, and what stands after that end. `None` where no line ends.
pub fn split_line(bytes: &[u8]) -> Option<(&[u8], &[u8])>
    ensures none { IfNone result (HasNoEnd bytes.now) }
    ensures line { IfSome result (λ parts. HasNoEnd parts.0.now) }
    ensures parts { IfSome result (λ parts. bytes.now ≡ parts.0.now ++ 10 ∷ parts.1.now) }
{
    let end = line_end(bytes)?;
    Some((&bytes[..end], &bytes[end + 1..]))
}
