// A value of the program's own.
ghost use Rattle.std.specs.Prelude.{refl, [], ◌∷◌, slice_index};
ghost use Rattle.std.proofs.Common.{lit≤};
ghost use Rattle.kept_records.specs.Rest.{rest_is_zero};

use store_script::Record;

/// A place in the plane.
#[derive(Clone, Copy, Debug, PartialEq, Eq)]
pub(crate) struct Point {
    pub(crate) x: u64,
    pub(crate) y: u64,
}

impl Record for Point {
    const WORDS: u32 = 2;

    ghost WORDS = { 2 };

    ghost words_of = { λ point. point.x ∷ point.y ∷ 0 ∷ 0 ∷ 0 ∷ 0 ∷ 0 ∷ 0 ∷ [] };

    ghost value_of = { λ words. record { x = slice_index words 0; y = slice_index words 1 } };

    ghost few = { lit≤ tt };

    ghost eight = { λ _. refl };

    ghost rest_is_zero = { λ point. rest_is_zero point.x point.y };

    ghost reads_back = { λ _. refl };

    fn to_words(&self) -> [u64; 8] {
        [self.x, self.y, 0, 0, 0, 0, 0, 0]
    }

    fn from_words(words: &[u64; 8]) -> Point {
        Point {
            x: words[0],
            y: words[1],
        }
    }
}
