// Things in their order, as contracts see them.
ghost use Rattle.std.specs.Prelude.{◌≡◌, ◌++◌, ◌∷◌, [], OnErr, OnOk};

use pool_model::NoMemory;
use std::marker::Model;

/// Things in their order. Contracts see the list.
#[derive(Debug, Drop)]
pub struct Listed<T> {
    things: Vec<T>,
}

impl<T> Model for Listed<T> {
    ghost use Rattle.std.specs.Prelude.{List};

    ghost Value = { List T };

    ghost view = { λ listed. listed.things.items };
}

impl<T> Listed<T> {
    /// The things of a vector. Takes no memory.
    pub fn new(things: Vec<T>) -> Listed<T>
        ensures { result ≡ things.items }
    {
        Listed { things }
    }

    /// The things as a slice.
    pub fn as_slice(&self) -> &[T]
        ensures { result.now ≡ self.now }
    {
        self.things.as_slice()
    }

    /// Gives the vector back. Takes no memory.
    pub fn into_vec(self) -> Vec<T>
        ensures { result.items ≡ self }
    {
        self.things
    }
}

impl<T: Drop> Listed<T> {
    /// Adds one at the end. Want of memory leaves the list as it was.
    pub fn push(&mut self, thing: T) -> Result<(), NoMemory>
        ensures pushed { OnOk result (self.new ≡ self.old ++ thing ∷ []) }
        ensures kept { OnErr result (self.new ≡ self.old) }
    {
        self.things.push(thing)?;
        Ok(())
    }
}
