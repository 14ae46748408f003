// The words of the command line.
ghost use Rattle.std.specs.Prelude.{◌≡◌, ◌≢◌, [], Err, IfOk, IfErr, IsOkAnd, MatchResult};
ghost use Rattle.std.specs.Vec.Iter.{into_iter_items};
ghost use Rattle.std.specs.IoError.{error_kind};
ghost use Rattle.std.specs.declared.io.ErrorKind.TheVariants.{InvalidData, OutOfMemory};

use std::alloc::Global;
use std::env::Args;
use std::io;
use std::io::ErrorKind;

/// Why a program doesn't get the words of its command line.
#[derive(Clone, Copy, Debug, PartialEq, Eq, Hash)]
pub enum NoWords {
    /// The system doesn't give them.
    NotGiven,
    /// Want of memory.
    NoMemory,
}

/// The words of a command line, the program's own name first, where the system answered so when it was asked for
/// them. There are none where one of them isn't UTF-8, which makes them a faulty command line.
///
/// `NotGiven` exactly where the system failed otherwise, but for want of memory. `NoMemory` where the system had no
/// memory for them, or there is none here.
pub fn words(alloc: Global, answer: io::Result<Args>) -> Result<Vec<String>, NoWords>
    ensures given { IfOk answer
        (λ args. MatchResult result (λ words. words.items ≡ into_iter_items args) (λ fault. fault ≡ NoWords.NoMemory)) }
    ensures no_text { IfErr answer (λ error. error_kind error ≡ InvalidData → IsOkAnd result (λ words. words.items ≡ [])) }
    ensures no_memory { IfErr answer (λ error. error_kind error ≡ OutOfMemory → result ≡ Err NoWords.NoMemory) }
    ensures not_given { IfErr answer (λ error. error_kind error ≢ InvalidData → error_kind error ≢ OutOfMemory
        → result ≡ Err NoWords.NotGiven) }
{
    match answer {
        Ok(args) => collected(alloc, args),
        Err(error) => match error.kind() {
            ErrorKind::InvalidData => Ok(Vec::new(alloc)),
            ErrorKind::OutOfMemory => Err(NoWords::NoMemory),
            _ => Err(NoWords::NotGiven),
        },
    }
}

/// All words that are left, in their order. Fails for want of memory alone.
fn collected(alloc: Global, args: Args) -> Result<Vec<String>, NoWords>
    ensures { MatchResult result (λ words. words.items ≡ into_iter_items args) (λ fault. fault ≡ NoWords.NoMemory) }
{
    match args.collect(alloc) {
        Ok(words) => Ok(words),
        Err(_) => Err(NoWords::NoMemory),
    }
}
