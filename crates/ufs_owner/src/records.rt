// A record for each file of which something is known, found by the file's number.
ghost use Rattle.std.specs.Prelude.{◌≡◌, ◌++◌, ◌∷◌, [], Some, IfSome, IsSome, OnErr, OnOk, filter, nat_eq, not};
ghost use Rattle.std.specs.HashMap as hash;
ghost use Rattle.slab.specs.Slab.{get, slab_len, Updates, SameValues};
ghost use Rattle.ufs_owner.specs.Changed.{owned, awaited};
ghost use Rattle.ufs_owner.specs.Clients.{is_another};
ghost use Rattle.ufs_owner.specs.Owners.{is_known, is_primary};

use crate::clients::ClientList;
use crate::owner::{Owner, Standing};
use slab::Slab;
use std::alloc::Global;
use std::collections::HashMap;
use std::marker::Model;
use ufs_base::Memory;

#[derive(Drop)]
struct Record {
    file: u32,
    standing: Standing,
}

/// What is known of each file. The slab picks the places of its records, so the place of each file stands beside it.
#[derive(Drop)]
pub struct Records {
    places: HashMap<u32, usize>,
    records: Slab<Record>,
}

impl Model for Records {
    ghost use Rattle.ufs_owner.specs.contracts.owner.Standing as standing;
    ghost use Rattle.ufs_owner.specs.Records.{Kept, kept_code, files_of, room_of, ArePlaced};

    ghost Value = { Kept };

    ghost coded = { kept_code standing.the_row.coded };

    ghost view = { λ r. record { files = files_of r.places r.records; room = room_of r.places r.records } };

    ghost invariant = { λ r. ArePlaced r.places r.records };
}

impl Records {
    ghost use Rattle.std.specs.Prelude.{ℕ, ◌≡◌, ◌≤◌, ◌<◌, ◌+◌, ◌++◌, ◌∷◌, [], None, IfNone, IfSome, OnErr, OnOk, IsSome, is_some, false, not, option_copied, filter};
    ghost use Rattle.std.specs.FinMap as map;
    ghost use Rattle.ufs_owner.specs.Clients.{is_another};
    ghost use Rattle.ufs_owner.specs.Owners.{standing_at, is_known, is_primary, owner_at, with_standing};
    ghost use Rattle.ufs_owner.specs.Records.{Kept};
    ghost use Rattle.ufs_owner.specs.declared.owner.Owner.TheVariants.{Primary};

    /// Takes no memory.
    pub fn new(alloc: Global) -> Self
        ensures { result.files ≡ map.empty }
    {
        Records {
            places: HashMap::new(alloc),
            records: Slab::new(alloc),
        }
    }

    pub fn get(&self, file: u32) -> Option<&Standing>
        ensures { option_copied result ≡ map.get self.now.files file }
    {
        let Some(place) = place_of(&self.places, file) else {
            return None;
        };
        match self.records.get(place) {
            Some(record) => Some(&record.standing),
            None => unreachable!(),
        }
    }

    pub fn has(&self, file: u32) -> bool
        ensures { result ≡ is_some (map.get self.now.files file) }
    {
        self.get(file).is_some()
    }

    /// Makes room for as many more files.
    pub fn reserve(&mut self, more: usize) -> Result<(), Memory>
        ensures ok { OnOk result (more ≤ self.new.room) }
        ensures room { self.old.room ≤ self.new.room }
        ensures files { self.new.files ≡ self.old.files }
    {
        self.places.reserve(more)?;
        self.records.reserve(more)?;
        Ok(())
    }

    /// Takes no memory.
    pub fn insert(&mut self, file: u32, standing: Standing)
        requires absent { map.get self.old.files file ≡ None }
        requires room { 0 < self.old.room }
        ensures files { self.new.files ≡ map.insert self.old.files file standing }
        ensures room { self.old.room ≤ self.new.room + 1 }
    {
        let place = self.records.insert_reserved(Record { file, standing });
        match self.places.insert(file, place) {
            Ok(_) => {}
            Err(_) => unreachable!(),
        }
    }

    /// Takes no memory.
    pub fn set_owner(&mut self, file: u32, owner: Owner, note: u8)
        requires { IsSome (map.get self.old.files file) }
        ensures files { self.new.files ≡ map.insert self.old.files file (record (standing_at self.old.files file) { owner = owner; note = note }) }
        ensures room { self.new.room ≡ self.old.room }
    {
        let Some(place) = place_of(&self.places, file) else {
            unreachable!()
        };
        set_owner_at(&mut self.records, place, owner, note);
    }

    pub fn add_client(&mut self, file: u32, client: u8) -> Result<(), Memory>
        requires { IsSome (map.get self.old.files file) }
        ensures ok { OnOk result (self.new.files ≡ map.insert self.old.files file (record (standing_at self.old.files file) { waiting = (standing_at self.old.files file).waiting ++ client ∷ [] })) }
        ensures err { OnErr result (self.new.files ≡ self.old.files) }
        ensures room { self.new.room ≡ self.old.room }
    {
        let Some(place) = place_of(&self.places, file) else {
            unreachable!()
        };
        add_client_at(&mut self.records, place, client)
    }

    /// Takes no memory.
    pub fn drop_client(&mut self, file: u32, client: u8)
        requires { IsSome (map.get self.old.files file) }
        ensures files { self.new.files ≡ map.insert self.old.files file (record (standing_at self.old.files file) { waiting = filter (is_another client) (standing_at self.old.files file).waiting }) }
        ensures room { self.new.room ≡ self.old.room }
    {
        let Some(place) = place_of(&self.places, file) else {
            unreachable!()
        };
        drop_client_at(&mut self.records, place, client);
    }

    /// Takes no memory.
    pub fn remove(&mut self, file: u32)
        requires { IsSome (map.get self.old.files file) }
        ensures files { self.new.files ≡ map.remove self.old.files file }
        ensures room { self.old.room ≤ self.new.room }
    {
        let Some(place) = self.places.remove(&file) else {
            unreachable!()
        };
        let _record = self.records.try_remove(place);
    }

    /// A file that isn't at the primary, if there is one: a walk over the files of which something is known.
    pub fn some_out(&self) -> Option<u32>
        ensures out { IfSome result (λ file. is_primary (owner_at self.now.files file) ≡ false) }
        ensures none { IfNone result ((file : ℕ) → owner_at self.now.files file ≡ Primary) }
    {
        for file in self.places.keys() {
            if self.is_away(*file) {
                return Some(*file);
            }
        }
        None
    }

    fn is_away(&self, file: u32) -> bool
        ensures { result ≡ not (is_primary (owner_at self.now.files file)) }
    {
        match self.get(file) {
            Some(standing) => is_away(standing),
            None => false,
        }
    }

    fn knows(&self, file: u32) -> bool
        ensures { result ≡ is_known (standing_at self.now.files file) }
    {
        match self.get(file) {
            Some(standing) => is_known(standing),
            None => false,
        }
    }

    /// Drops the record of a file of which nothing is known any more. Takes no memory.
    pub fn forget_unknown(&mut self, file: u32)
        requires { IsSome (map.get self.old.files file) }
        ensures files { self.new.files ≡ with_standing self.old.files file (standing_at self.old.files file) }
        ensures room { self.old.room ≤ self.new.room }
    {
        if !self.knows(file) {
            self.remove(file);
        }
    }
}

// Whether the file isn't at the primary, or a client waits for it.
fn is_known(standing: &Standing) -> bool
    ensures { result ≡ is_known standing.now }
{
    standing.owner != Owner::Primary || !standing.waiting.is_empty()
}

// Whether the file isn't at the primary.
fn is_away(standing: &Standing) -> bool
    ensures { result ≡ not (is_primary standing.now.owner) }
{
    standing.owner != Owner::Primary
}

// Where the file's record is.
fn place_of(places: &HashMap<u32, usize>, file: u32) -> Option<usize>
    ensures { result ≡ hash.get nat_eq places.now file }
{
    places.get(&file).copied()
}

fn set_owner_at(records: &mut Slab<Record>, place: usize, owner: Owner, note: u8)
    requires { IsSome (get records.old place) }
    ensures updates { IfSome (get records.old place) (λ r. Updates records.old records.new place (Some (owned r owner note))) }
    ensures len { slab_len records.new ≡ slab_len records.old }
    ensures capacity { records.new.capacity ≡ records.old.capacity }
{
    let Some(record) = records.get_mut(place) else {
        unreachable!()
    };
    record.standing.owner = owner;
    record.standing.note = note;
}

fn add_client_at(records: &mut Slab<Record>, place: usize, client: u8) -> Result<(), Memory>
    requires { IsSome (get records.old place) }
    ensures updates { OnOk result (IfSome (get records.old place) (λ r. Updates records.old records.new place (Some (awaited r (r.standing.waiting ++ client ∷ []))))) }
    ensures err { OnErr result (SameValues records.old records.new) }
    ensures len { slab_len records.new ≡ slab_len records.old }
    ensures capacity { records.new.capacity ≡ records.old.capacity }
{
    let Some(record) = records.get_mut(place) else {
        unreachable!()
    };
    record.standing.waiting.push(client)
}

fn drop_client_at(records: &mut Slab<Record>, place: usize, client: u8)
    requires { IsSome (get records.old place) }
    ensures updates { IfSome (get records.old place) (λ r. Updates records.old records.new place (Some (awaited r (filter (is_another client) r.standing.waiting)))) }
    ensures len { slab_len records.new ≡ slab_len records.old }
    ensures capacity { records.new.capacity ≡ records.old.capacity }
{
    let Some(record) = records.get_mut(place) else {
        unreachable!()
    };
    record.standing.waiting.remove(client);
}
