// The heads of the spares.
ghost use Rattle.std.specs.Prelude.{◌≡◌, ℕ, ◌-◌, ◌<◌, ◌≤◌, List, [], ◌∷◌, ◌++◌, length, take, slice_index};

use std::marker::Model;

/// The heads of a process's spares, the newest last: at most three numbers. Contracts see a list.
#[derive(Debug, Drop)]
pub struct Heads {
    heads: [u32; 3],
    count: usize,
}

impl Model for Heads {
    ghost Value = { List ℕ };

    ghost view = { λ heads. take heads.count heads.heads };

    ghost invariant = { λ heads. heads.count ≤ 3 };
}

impl Heads {
    /// The list with this head alone.
    pub fn of(head: u32) -> Heads
        ensures { result ≡ head ∷ [] }
    {
        Heads {
            heads: [head, 0, 0],
            count: 1,
        }
    }

    /// How many heads there are, at most three.
    pub fn len(&self) -> usize
        ensures value { result ≡ length self.now }
        ensures few { result ≤ 3 }
    {
        self.count
    }

    /// The head at an index, 0 for the oldest.
    pub fn get(&self, index: usize) -> u32
        requires { index < length self.now }
        ensures { result ≡ slice_index self.now index }
    {
        prove!(self.len() <= 3);
        self.heads[index]
    }

    /// Adds the newest head.
    pub fn push(&mut self, head: u32)
        requires { length self.old < 3 }
        ensures { self.new ≡ self.old ++ head ∷ [] }
    {
        self.heads[self.count] = head;
        self.count += 1;
    }

    /// Removes the newest head.
    pub fn pop(&mut self)
        requires { 1 ≤ length self.old }
        ensures { self.new ≡ take (length self.old - 1) self.old }
    {
        self.count -= 1;
    }
}
