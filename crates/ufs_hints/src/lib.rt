//! Which server a client believes to have a file.
#![tactic(auto)]

ghost use Rattle.std.specs.Prelude.{◌≡◌, ◌==◌, [], nat_eq, IfOk, IsOk, IsSome, OnErr, OnOk, length};
ghost use Rattle.std.specs.Map.{lookup};
ghost use Rattle.lru.specs.LruCache.{promoted, put_entries};
ghost use Rattle.ufs_hints.specs.Hints.{AreFew, hint_of, renewed, used};
ghost use Rattle.ufs_hints.specs.Laws.{NewOneIsKnown, OldestGoes, OthersStay, UsesChangeNone};

use lru::LruCache;
use std::alloc::Global;
use std::marker::Model;
use std::num::NonZeroUsize;
use ufs_base::Memory;
use ufs_model::Actor;

/// The most hints that are kept.
pub const MAX_HINTS: usize = 64;

/// Hints, each the server that is believed to have a file. Where 64 files have one and another file gets one, the hint that was
/// used longest ago goes.
#[derive(Drop)]
pub struct Hints {
    cache: LruCache<u32, Actor>,
}

impl Model for Hints {
    ghost use Rattle.std.specs.Prelude.{ℕ, ◌≡◌, List};
    ghost use Rattle.ufs_model.specs.declared.data.Actor.{Actor};
    ghost use Rattle.ufs_hints.specs.Hints.{hints_code};

    ghost Value = { List (ℕ × Actor) };

    ghost coded = { hints_code };

    ghost view = { λ h. h.cache.entries };

    ghost invariant = { λ h. h.cache.cap ≡ 64 };
}

impl Hints {
    /// No hint.
    pub fn new(alloc: Global) -> Result<Hints, Memory>
        ensures { IfOk result (λ h. h ≡ []) }
    {
        let Some(most) = NonZeroUsize::new(MAX_HINTS) else {
            unreachable!()
        };
        let cache = LruCache::new(alloc, most)?;
        Ok(Hints { cache })
    }

    /// How many files have a hint.
    pub fn len(&self) -> usize
        ensures count { result ≡ length self.now }
        ensures few { AreFew self.now }
    {
        self.cache.len()
    }

    /// Whether no file has a hint.
    pub fn is_empty(&self) -> bool
        ensures { result ≡ (length self.now == 0) }
    {
        self.cache.is_empty()
    }

    /// A new hint for the file. Where there is no memory all stays as it was; a file that has a hint needs none.
    pub fn renew(&mut self, file: u32, owner: Actor) -> Result<(), Memory>
        ensures kept { OnOk result (self.new ≡ renewed file owner self.old) }
        ensures lacked { OnErr result (self.new ≡ self.old) }
        ensures had { IsSome (hint_of file self.old) → IsOk result }
    {
        put(&mut self.cache, file, owner)
    }

    /// The file's hint, which is then the most recently used.
    pub fn take_use(&mut self, file: u32) -> Option<Actor>
        ensures hint { result ≡ hint_of file self.old }
        ensures order { self.new ≡ used file self.old }
    {
        get(&mut self.cache, file)
    }
}

/// What renewals and uses do, as laws: a new hint is known, and of the others only the oldest of 64 goes; uses change none.
pub fn the_oldest_hint_goes()
    ensures known { NewOneIsKnown }
    ensures oldest { OldestGoes }
    ensures others { OthersStay }
    ensures uses { UsesChangeNone }
{}

fn put(cache: &mut LruCache<u32, Actor>, file: u32, owner: Actor) -> Result<(), Memory>
    requires { cache.old.cap ≡ 64 }
    ensures order { OnOk result (cache.new.entries ≡ put_entries nat_eq cache.old file owner) }
    ensures lacked { OnErr result (cache.new.entries ≡ cache.old.entries) }
    ensures had { IsSome (lookup (nat_eq file) cache.old.entries) → IsOk result }
    ensures most { cache.new.cap ≡ 64 }
{
    match cache.put(file, owner) {
        Ok(_) => Ok(()),
        Err(failed) => Err(Memory::from(failed)),
    }
}

fn get(cache: &mut LruCache<u32, Actor>, file: u32) -> Option<Actor>
    ensures hint { result ≡ lookup (nat_eq file) cache.old.entries }
    ensures order { cache.new.entries ≡ promoted (nat_eq file) cache.old.entries }
    ensures most { cache.new.cap ≡ cache.old.cap }
{
    cache.get(&file).copied()
}
