// The slots of keys.
ghost use Rattle.std.specs.Prelude.{◌≡◌, ◌+◌, ◌<◌, ◌≤◌, ◌^◌, [], IfOk};
ghost use Rattle.std.specs.BTreeMap.{btree_map_len};
ghost use Rattle.store_script.specs.Slots.{Names, NamesNext};

use pool_model::NoMemory;
use std::alloc::Global;
use std::collections::BTreeMap;
use std::collections::btree_map::Entry;

/// The slot of each key so far.
#[derive(Drop)]
pub(crate) struct SlotTable {
    slots: BTreeMap<u64, u32>,
}

impl SlotTable {
    /// A table without keys. Takes no memory.
    pub(crate) fn new(alloc: Global) -> SlotTable
        ensures names { Names result [] }
        ensures empty { btree_map_len result.slots ≡ 0 }
    {
        SlotTable {
            slots: BTreeMap::new(alloc),
        }
    }

    /// How many keys have a slot.
    pub(crate) fn len(&self) -> u32
        requires { btree_map_len self.now.slots < 2 ^ 32 }
        ensures { result ≡ btree_map_len self.now.slots }
    {
        self.slots.len() as u32
    }

    /// The slot of a key: the next one, where the key is new.
    pub(crate) fn slot(&mut self, key: u64) -> Result<u32, NoMemory>
        requires { btree_map_len self.old.slots < 2 ^ 32 }
        ensures slot { IfOk result (λ slot. NamesNext self.old self.new key slot) }
        ensures one_more { IfOk result (λ _. btree_map_len self.new.slots ≤ btree_map_len self.old.slots + 1) }
    {
        let next = self.slots.len() as u32;
        match self.slots.entry(key)? {
            Entry::Occupied(entry) => Ok(*entry.get()),
            Entry::Vacant(entry) => {
                entry.insert(next);
                Ok(next)
            }
        }
    }
}
