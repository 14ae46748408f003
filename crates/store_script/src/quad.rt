// The value of a key in a store script.
ghost use Rattle.std.specs.Prelude.{◌≡◌, ◌<◌, refl, [], ◌∷◌, ◌≤◌, slice_index};
ghost use Rattle.std.proofs.Common.{lit≤};
ghost use Rattle.store_script.specs.Words4.{rest_is_zero};

use crate::record::Record;

/// Four numbers.
#[derive(Clone, Copy, Debug, PartialEq, Eq, Hash)]
pub struct Quad {
    pub a: u64,
    pub b: u64,
    pub c: u64,
    pub d: u64,
}

impl Quad {
    ghost use Rattle.store_script.specs.Replies.{changed};

    /// The same numbers but for that of an index, 0 to 3.
    pub fn changed(self, index: u32, number: u64) -> Quad
        requires { index < 4 }
        ensures { result ≡ changed self index number }
    {
        match index {
            0 => Quad { a: number, ..self },
            1 => Quad { b: number, ..self },
            2 => Quad { c: number, ..self },
            _ => Quad { d: number, ..self },
        }
    }
}

impl Record for Quad {
    const WORDS: u32 = 4;

    ghost WORDS = { 4 };

    ghost words_of = { λ quad. quad.a ∷ quad.b ∷ quad.c ∷ quad.d ∷ 0 ∷ 0 ∷ 0 ∷ 0 ∷ [] };

    ghost value_of = { λ words. record {
      a = slice_index words 0;
      b = slice_index words 1;
      c = slice_index words 2;
      d = slice_index words 3;
    } };

    ghost few = { lit≤ tt };

    ghost eight = { λ _. refl };

    ghost rest_is_zero = { λ quad. rest_is_zero quad.a quad.b quad.c quad.d };

    ghost reads_back = { λ _. refl };

    fn to_words(&self) -> [u64; 8] {
        [self.a, self.b, self.c, self.d, 0, 0, 0, 0]
    }

    fn from_words(words: &[u64; 8]) -> Quad {
        Quad {
            a: words[0],
            b: words[1],
            c: words[2],
            d: words[3],
        }
    }
}
