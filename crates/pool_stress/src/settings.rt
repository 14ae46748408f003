// What the words of the command line ask for.
use crate::owners::Lie;
use line_text::number;
use word_layout::Shape;

/// The most digits of a number.
const MOST_DIGITS: usize = 20;

/// What the words ask for.
#[derive(Clone, Copy)]
pub(crate) struct Settings {
    pub(crate) shape: Shape,
    /// How many calls each process makes.
    pub(crate) calls: u32,
    pub(crate) seed: u64,
    /// How many processes stop: the first ones.
    pub(crate) stopping: u32,
    /// The step at which process 0 stops, counted over all its calls from 1; each further one stops a step later.
    pub(crate) stop: u64,
    /// Which answer the owners mishear.
    pub(crate) lie: Option<Lie>,
}

impl Settings {
    /// `None` where the words aren't seven numbers of a pool and its processes, and the name of a lie where there is one more.
    pub(crate) fn of_words(words: &[String]) -> Option<Settings> {
        if words.len() < 8 || 9 < words.len() {
            return None;
        }
        let processes = small(&words[1])?;
        let batches = small(&words[2])?;
        let quantum = small(&words[3])?;
        Some(Settings {
            shape: Shape::with_quantum(processes, batches, 0, quantum).ok()?,
            calls: small(&words[4])?,
            seed: large(&words[5])?,
            stopping: small(&words[6])?,
            stop: large(&words[7])?,
            lie: lie_of(words.get(8))?,
        })
    }
}

/// The lie of a word, if there is that word; `None` where it names none.
fn lie_of(word: Option<&String>) -> Option<Option<Lie>> {
    let Some(word) = word else {
        return Some(None);
    };
    Some(Some(Lie::named(word.as_str())?))
}

/// The number below 2^64 that a word writes.
fn large(word: &String) -> Option<u64> {
    number(word.as_bytes(), 10, MOST_DIGITS)
}

/// The number below 2^32 that a word writes.
fn small(word: &String) -> Option<u32> {
    u32::try_from(large(word)?).ok()
}
