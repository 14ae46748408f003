// The classes, by their sizes.
ghost use Rattle.std.specs.Prelude.{◌≡◌, ℕ, List, length, IfNone, IfSome};
ghost use Rattle.size_classes.specs.Sets.{Lists, class_for, size_of};

use arrayvec::ArrayVec;
use line_text::number;
use std::marker::Model;

/// The most classes of a set.
const MOST_CLASSES: usize = 8;

/// The most digits of a size.
const MOST_DIGITS: usize = 10;

/// The sizes of one to eight classes. Clauses see them, from the smallest on.
#[derive(Drop)]
pub struct ClassSet {
    sizes: ArrayVec<u32, MOST_CLASSES>,
}

impl Model for ClassSet {
    ghost use Rattle.std.specs.Prelude.{ℕ, List};
    ghost use Rattle.size_classes.specs.Sets.{Lists};

    ghost Value = { List ℕ };

    ghost view = { λ set. set.sizes.items };

    ghost invariant = { λ set. (text : List ℕ) × Lists text set.sizes.items };
}

/// The size that a word of 1 to 10 decimal digits writes, below 2^32. `None` where it writes none.
fn size_of(word: &str) -> Option<u32>
    ensures { result ≡ size_of word.now }
{
    let size = number(word.as_bytes(), 10, MOST_DIGITS)?;
    u32::try_from(size).ok()
}

impl ClassSet {
    /// The classes of a text of one to eight sizes, with one comma between two. Each is a number of 1 to 10 decimal digits, from
    /// 1 to 4294967295, and larger than the one before it. `None` exactly where the text isn't of this form.
    pub fn read(text: &str) -> Option<ClassSet>
        ensures read { IfSome result (Lists text.now) }
        ensures none { IfNone result ((sizes : List ℕ) → ¬ Lists text.now sizes) }
    {
        let mut sizes = ArrayVec::new();
        let mut largest = 0;
        for word in text.split(',') {
            let size = size_of(word)?;
            if size <= largest || sizes.is_full() {
                return None;
            }
            sizes.push(size);
            largest = size;
        }
        Some(ClassSet { sizes })
    }

    /// How many classes it has, 1 to 8.
    pub fn count(&self) -> u32
        ensures { result ≡ length self.now }
    {
        self.sizes.len() as u32
    }

    /// The sizes of the classes, from the smallest on.
    pub fn sizes(&self) -> &[u32]
        ensures { result.now ≡ self.now }
    {
        self.sizes.as_slice()
    }

    /// The first class of at least this size, by its size. `None` exactly where there is none.
    pub fn class_of(&self, size: u64) -> Option<u32>
        ensures { result ≡ class_for size self.now }
    {
        self.sizes
            .iter()
            .copied()
            .find(|class| size <= u64::from(*class))
    }
}

#[cfg(test)]
mod tests {
    use super::ClassSet;
    use std::test::Fail;

    #[test]
    fn lists_of_sizes(rt: HostRuntime) -> Result<(), Fail> {
        let good: [(&str, &[u32]); 5] = [
            ("8", &[8]),
            ("8,64", &[8, 64]),
            ("1,4294967295", &[1, 4_294_967_295]),
            ("0000000008,16", &[8, 16]),
            ("1,2,3,4,5,6,7,8", &[1, 2, 3, 4, 5, 6, 7, 8]),
        ];
        for (text, sizes) in good {
            let same = ClassSet::read(text).is_some_and(|set| set.sizes() == sizes);
            assert!(rt; same, "{text}");
        }
        let faulty = [
            "",
            ",",
            "8,",
            ",8",
            "8,,16",
            "64,8",
            "8,8",
            "0",
            "0,8",
            "4294967296",
            "00000000008",
            "+8",
            "8, 16",
            "8;16",
            "0x8",
            "1,2,3,4,5,6,7,8,9",
        ];
        for text in faulty {
            assert!(rt; ClassSet::read(text).is_none(), "{text}");
        }
        Ok(())
    }

    #[test]
    fn classes_of_sizes(rt: HostRuntime) -> Result<(), Fail> {
        let cases = [
            (0, Some(8)),
            (8, Some(8)),
            (9, Some(64)),
            (64, Some(64)),
            (65, None),
            (4_294_967_296, None),
        ];
        let set = ClassSet::read("8,64");
        assert!(rt; set.is_some());
        if let Some(set) = set {
            assert_eq!(rt; set.count(), 2);
            for (size, class) in cases {
                assert_eq!(rt; set.class_of(size), class);
            }
        }
        Ok(())
    }
}
