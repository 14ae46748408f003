// The answers to a script, computed by a plain program without any pool.
ghost use Rattle.std.specs.Prelude.{◌≡◌, ◌+◌, ◌<◌, ◌≤◌, ◌^◌, IfOk, OnOk};
ghost use Rattle.store_script.specs.Replies.{after, after_del, after_get, after_put, after_set, answers_to, begun, kept};
ghost use Rattle.store_script.specs.Script.{HasIndex, IsWellFormed};
ghost use Rattle.store_script.specs.PlainStore.{Carries, IsAfter};

use crate::answered::Answered;
use crate::command::{Command, StoreScript};
use crate::quad::Quad;
use pool_model::NoMemory;
use std::alloc::Global;
use std::collections::BTreeMap;

/// The numbers of each present key, and the answers so far.
#[derive(Drop)]
struct PlainStore {
    present: BTreeMap<u64, Quad>,
    /// How many puts named an absent key.
    puts: usize,
    answers: Vec<Answered>,
}

impl PlainStore {
    fn new(alloc: Global) -> PlainStore
        ensures begun { IsAfter result begun }
        ensures puts { result.puts ≡ 0 }
    {
        PlainStore {
            present: BTreeMap::new(alloc),
            puts: 0,
            answers: Vec::new(alloc),
        }
    }

    fn put(&mut self, key: u64, value: Quad, refused: &[bool]) -> Result<(), NoMemory>
        requires { self.old.puts + 1 < 2 ^ 64 }
        ensures follows { OnOk result (Carries self.old self.new (λ walk. after_put refused.now walk key value (kept walk key))) }
        ensures counted { OnOk result (self.new.puts ≤ self.old.puts + 1) }
    {
        if self.present.contains_key(&key) {
            self.answers.push(Answered::There)?;
            return Ok(());
        }
        let is_refused = refused.get(self.puts).copied().unwrap_or(false);
        self.puts += 1;
        if is_refused {
            self.answers.push(Answered::Full)?;
        } else {
            self.present.insert(key, value)?;
            self.answers.push(Answered::Done)?;
        }
        Ok(())
    }

    fn get(&mut self, key: u64) -> Result<(), NoMemory>
        ensures follows { OnOk result (Carries self.old self.new (λ walk. after_get walk key (kept walk key))) }
        ensures counted { OnOk result (self.new.puts ≡ self.old.puts) }
    {
        let answer = match self.present.get(&key) {
            None => Answered::Absent,
            Some(value) => Answered::Value { key, value: *value },
        };
        self.answers.push(answer)?;
        Ok(())
    }

    fn set(&mut self, key: u64, index: u32, number: u64) -> Result<(), NoMemory>
        requires { index < 4 }
        ensures follows { OnOk result (Carries self.old self.new (λ walk. after_set walk key index number (kept walk key))) }
        ensures counted { OnOk result (self.new.puts ≡ self.old.puts) }
    {
        let Some(value) = self.present.get(&key).copied() else {
            self.answers.push(Answered::Absent)?;
            return Ok(());
        };
        self.present.insert(key, value.changed(index, number))?;
        self.answers.push(Answered::Done)?;
        Ok(())
    }

    fn del(&mut self, key: u64) -> Result<(), NoMemory>
        ensures follows { OnOk result (Carries self.old self.new (λ walk. after_del walk key (kept walk key))) }
        ensures counted { OnOk result (self.new.puts ≡ self.old.puts) }
    {
        let Some(_) = self.present.remove(&key) else {
            self.answers.push(Answered::Absent)?;
            return Ok(());
        };
        self.answers.push(Answered::Done)?;
        Ok(())
    }

    fn follow(&mut self, command: Command, refused: &[bool]) -> Result<(), NoMemory>
        requires few { self.old.puts + 1 < 2 ^ 64 }
        requires index { HasIndex command }
        ensures follows { OnOk result (Carries self.old self.new (λ walk. after refused.now walk command)) }
        ensures counted { OnOk result (self.new.puts ≤ self.old.puts + 1) }
    {
        match command {
            Command::Put { key, value, .. } => self.put(key, value, refused),
            Command::Get { key, .. } => self.get(key),
            Command::Set {
                key,
                index,
                value,
                ..
            } => self.set(key, index, value),
            Command::Del { key, .. } => self.del(key),
        }
    }
}

/// The answers to a script. Its puts of absent keys are refused where this says so, in their order; a put behind the last
/// of these isn't refused. Its only error is want of memory.
pub fn answers(
    alloc: Global,
    script: &StoreScript,
    refused: &[bool],
) -> Result<Vec<Answered>, NoMemory>
    requires { IsWellFormed script.now }
    ensures { IfOk result (λ answers. answers.items ≡ answers_to refused.now script.now.commands) }
{
    let mut store = PlainStore::new(alloc);
    for command in script.commands.as_slice() {
        store.follow(*command, refused)?;
    }
    Ok(store.answers)
}
