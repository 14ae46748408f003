// Why a text wasn't read.
ghost use Rattle.std.specs.Prelude.{◌≡◌};

use pool_io::Failed;
use std::error::Error;
use std::fmt;

/// Why a text wasn't read.
#[derive(Clone, Copy, Debug, PartialEq, Eq, Hash)]
pub enum TextFault {
    /// The source failed.
    ReadFault,
    /// The source has more bytes than may be read.
    TooLong,
    /// This line, counted from 1, is the first that is of no form.
    BadLine(u64),
    /// Want of memory.
    NoMemory,
}

impl TextFault {
    ghost use Rattle.line_text.specs.Fault.{number_of};

    /// The fault's number, 1 to 4.
    pub fn number(&self) -> u32
        ensures { result ≡ number_of self.now }
    {
        match self {
            TextFault::ReadFault => 1,
            TextFault::TooLong => 2,
            TextFault::BadLine(_) => 3,
            TextFault::NoMemory => 4,
        }
    }
}

impl fmt::Display for TextFault {
    fn fmt<W: fmt::Write>(&self, f: &mut fmt::Formatter<W>) -> fmt::Result {
        match self {
            TextFault::ReadFault => f.write_str("the source failed"),
            TextFault::TooLong => f.write_str("too long"),
            TextFault::BadLine(line) => write!(f, "line {line}"),
            TextFault::NoMemory => f.write_str("no memory"),
        }
    }
}

impl Error for TextFault {}

impl From<Failed> for TextFault {
    ghost use Rattle.line_text.specs.declared.fault.TextFault.TheVariants.{ReadFault};

    ghost from_gives = { λ _ fault. fault ≡ ReadFault };

    fn from(_failed: Failed) -> TextFault {
        TextFault::ReadFault
    }
}

impl From<pool_model::NoMemory> for TextFault {
    ghost use Rattle.line_text.specs.declared.fault.TextFault.TheVariants.{NoMemory};

    ghost from_gives = { λ _ fault. fault ≡ NoMemory };

    fn from(_want: pool_model::NoMemory) -> TextFault {
        TextFault::NoMemory
    }
}

#[cfg(test)]
mod tests {
    use super::TextFault;
    use std::test::Fail;

    #[test]
    fn texts_and_numbers_of_faults(rt: HostRuntime) -> Result<(), Fail> {
        let cases = [
            (TextFault::ReadFault, "the source failed", 1),
            (TextFault::TooLong, "too long", 2),
            (TextFault::BadLine(42), "line 42", 3),
            (TextFault::NoMemory, "no memory", 4),
        ];
        for (fault, text, number) in cases {
            let shown = format!(in rt.alloc(); "{fault}")?;
            let same = shown.as_str() == text && fault.number() == number;
            assert!(rt; same, "{fault:?} is shown as {shown}");
        }
        Ok(())
    }
}
