// Lines, each put together before it is written.
ghost use Rattle.std.specs.Prelude.{◌≡◌, ◌+◌, ◌≤◌, ◌++◌, decimal};
ghost use Rattle.arrayvec.specs.ArrayString.{array_string_len};

use arrayvec::ArrayString;
use itoa::Buffer;

/// How many bytes a line holds at most.
pub const LONGEST_LINE: usize = 1024;

/// A line that is put together. It takes no memory.
pub type Line = ArrayString<LONGEST_LINE>;

/// Appends a number, which has at most 40 digits.
pub fn push_number(line: &mut Line, number: u128)
    requires { array_string_len line.old + 40 ≤ LONGEST_LINE }
    ensures text { line.new.bytes ≡ line.old.bytes ++ decimal number }
    ensures length { array_string_len line.new ≤ array_string_len line.old + 40 }
{
    line.push_str(Buffer::new().format(number));
}
