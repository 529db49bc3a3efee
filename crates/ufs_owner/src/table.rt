ghost use Rattle.std.specs.Prelude.{◌≡◌, ◌+◌, ◌-◌, ◌<◌, ◌^◌, slice_index, slice_set, IsTrue};
ghost use Rattle.ufs_owner.specs.Owners.{is_out, recalled};
ghost use Rattle.ufs_owner.specs.declared.owner.Owner.TheVariants.{Coming};

use crate::clients::ClientList;
use crate::owner::{Owner, Standing};
use crate::records::Records;
use std::alloc::Global;
use std::marker::Model;
use ufs_base::{Lack, Memory};

/// Which server has each file, and which clients wait for it, in order. A file of which nothing is known is at the
/// primary, and nobody waits for it. Each call takes the time of a look-up by hash, whatever the number of files; those
/// on clients besides that of the clients that wait for the file.
#[derive(Drop)]
pub struct OwnerTable {
    alloc: Global,
    records: Records,
    // How many files may still be sent without memory.
    spare: u32,
    // How many files aren't at the primary.
    out: u32,
    // How many files each worker has or is to have.
    workers: [u32; 256],
}

impl Model for OwnerTable {
    ghost use Rattle.ufs_owner.specs.contracts.owner.Standing as standing;
    ghost use Rattle.ufs_owner.specs.Owners.{Owners, owners_code};
    ghost use Rattle.ufs_owner.specs.Counted.{AreKept};

    ghost Value = { Owners };

    ghost coded = { owners_code standing.the_row.coded };

    ghost view = { λ t. record { files = t.records.files; spare = t.spare } };

    ghost invariant = { λ t. AreKept t.records t.spare t.out t.workers };
}

impl OwnerTable {
    ghost use Rattle.std.specs.Prelude.{◌≡◌, ◌≢◌, ◌≤◌, ◌<◌, ◌-◌, ◌++◌, ◌∷◌, [], ◌↔◌, ◌^◌, IfErr, OnErr, OnOk, IsOk, IsTrue, MatchOption, Err, filter, max};
    ghost use Rattle.std.specs.Bool.{OnTrue, OnFalse};
    ghost use Rattle.std.specs.FinMap as map;
    ghost use Rattle.ufs_base.specs.declared.lack.Lack.TheVariants.{AtEnd};
    ghost use Rattle.ufs_owner.specs.Clients.{is_another};
    ghost use Rattle.ufs_owner.specs.Lacks.{IsLackOut};
    ghost use Rattle.ufs_owner.specs.Owners.{owner_at, note_at, waiting_at, with_owner, with_waiting, is_coming, is_going, is_out, recalled, arrived, count_out, count_with};
    ghost use Rattle.ufs_owner.specs.declared.owner.Owner.TheVariants.{Primary, Going};

    /// All files are at the primary. Takes no memory.
    pub fn new(alloc: Global) -> Self
        ensures files { result.files ≡ map.empty }
        ensures spare { result.spare ≡ 0 }
    {
        OwnerTable {
            alloc,
            records: Records::new(alloc),
            spare: 0,
            out: 0,
            workers: [0; 256],
        }
    }

    /// Which server has the file.
    pub fn owner_of(&self, file: u32) -> Owner
        ensures { result ≡ owner_at self.now.files file }
    {
        match self.records.get(file) {
            Some(standing) => standing.owner,
            None => Owner::Primary,
        }
    }

    /// Whether a client waits for the file.
    pub fn waiting(&self, file: u32) -> bool
        ensures somebody { OnTrue result (waiting_at self.now.files file ≢ []) }
        ensures nobody { OnFalse result (waiting_at self.now.files file ≡ []) }
    {
        match self.records.get(file) {
            Some(standing) => !standing.waiting.is_empty(),
            None => false,
        }
    }

    /// The worker that is to have the file once it has come, 0 for the primary and for a file that isn't coming.
    pub fn note_of(&self, file: u32) -> u8
        ensures { result ≡ note_at self.now.files file }
    {
        match self.records.get(file) {
            Some(standing) => standing.note,
            None => 0,
        }
    }

    /// How many files aren't at the primary. It is kept and not counted.
    pub fn count_out(&self) -> u32
        ensures { result ≡ count_out self.now.files }
    {
        self.out
    }

    /// A file that isn't at the primary, if there is one. Where none is it takes constant time, and else at most that of a walk over the
    /// files that aren't at the primary or for which a client waits.
    pub fn some_out(&self) -> Option<u32>
        ensures { MatchOption result (count_out self.now.files ≡ 0) (λ file. owner_at self.now.files file ≢ Primary) }
    {
        if self.out == 0 {
            return None;
        }
        self.records.some_out()
    }

    /// How many files a worker has or is to have. It is kept and not counted.
    pub fn count_with(&self, worker: u8) -> u32
        ensures { result ≡ count_with worker self.now.files }
    {
        self.workers[usize::from(worker)]
    }

    /// Makes sure that a file can be sent without memory. At most 2^32 - 1 files are away from the primary.
    pub fn reserve(&mut self) -> Result<(), Lack>
        ensures files { self.new.files ≡ self.old.files }
        ensures ok { OnOk result (self.new.spare ≡ max 1 self.old.spare) }
        ensures err { OnErr result (self.new ≡ self.old) }
        ensures lack { IfErr result (IsLackOut self.old.files) }
        ensures at_end { self.old.spare ≡ 0 → count_out self.old.files ≡ 2 ^ 32 - 1 → result ≡ Err AtEnd }
        ensures spared { 0 < self.old.spare → IsOk result }
    {
        if self.spare > 0 {
            return Ok(());
        }
        if self.out == u32::MAX {
            return Err(Lack::AtEnd);
        }
        self.records.reserve(1)?;
        self.spare = 1;
        Ok(())
    }

    /// A file that is at the primary, and for which nobody waits, is to go to a worker.
    pub fn send(&mut self, file: u32, to: u8) -> Result<(), Lack>
        requires here { owner_at self.old.files file ≡ Primary }
        requires nobody { waiting_at self.old.files file ≡ [] }
        ensures ok { OnOk result (self.new.files ≡ with_owner self.old.files file (Going to) 0) }
        ensures spare { OnOk result (self.new.spare ≡ self.old.spare - 1) }
        ensures err { OnErr result (self.new ≡ self.old) }
        ensures lack { IfErr result (IsLackOut self.old.files) }
        ensures at_end { self.old.spare ≡ 0 → count_out self.old.files ≡ 2 ^ 32 - 1 → result ≡ Err AtEnd }
        ensures spared { 0 < self.old.spare → IsOk result }
    {
        self.reserve()?;
        self.spare -= 1;
        self.out += 1;
        add_one(&mut self.workers, to);
        let standing = Standing {
            owner: Owner::Going { to },
            note: 0,
            waiting: ClientList::new(self.alloc),
        };
        self.records.insert(file, standing);
        Ok(())
    }

    /// A file that is going has left the primary. Takes no memory.
    pub fn left(&mut self, file: u32)
        requires { IsTrue (is_going (owner_at self.old.files file)) }
        ensures { self.new ≡ record self.old { files = with_owner self.old.files file (arrived (owner_at self.old.files file)) 0 } }
    {
        let Owner::Going { to } = self.owner_of(file) else {
            unreachable!()
        };
        self.records.set_owner(file, Owner::Worker(to), 0);
    }

    /// A file that a worker has, or is to have, is to come back, and then to go to a worker, 0 for the primary. Takes
    /// no memory.
    pub fn begin_recall(&mut self, file: u32, to: u8)
        requires { IsTrue (is_out (owner_at self.old.files file)) }
        ensures { self.new ≡ record self.old { files = with_owner self.old.files file (recalled (owner_at self.old.files file)) to } }
    {
        let from = worker_of(self.owner_of(file));
        take_one(&mut self.workers, from);
        self.records.set_owner(file, Owner::Coming { from }, to);
    }

    /// A file that is coming is to go to another worker, 0 for the primary. Takes no memory.
    pub fn renote(&mut self, file: u32, to: u8)
        requires { IsTrue (is_coming (owner_at self.old.files file)) }
        ensures { self.new ≡ record self.old { files = with_owner self.old.files file (owner_at self.old.files file) to } }
    {
        let owner = self.owner_of(file);
        self.records.set_owner(file, owner, to);
    }

    /// A file that was coming is at the primary. Answers the worker to which it is to go, 0 for the primary. Takes no
    /// memory.
    pub fn settle(&mut self, file: u32) -> u8
        requires { IsTrue (is_coming (owner_at self.old.files file)) }
        ensures note { result ≡ note_at self.old.files file }
        ensures files { self.new ≡ record self.old { files = with_owner self.old.files file Primary 0 } }
    {
        let note = self.note_of(file);
        self.out -= 1;
        self.records.set_owner(file, Owner::Primary, 0);
        self.records.forget_unknown(file);
        note
    }

    /// The client waits for the file, behind those that wait already.
    pub fn wait(&mut self, file: u32, client: u8) -> Result<(), Memory>
        ensures ok { OnOk result (self.new ≡ record self.old { files = with_waiting self.old.files file (waiting_at self.old.files file ++ client ∷ []) }) }
        ensures err { OnErr result (self.new ≡ self.old) }
    {
        if self.records.has(file) {
            return self.records.add_client(file, client);
        }
        let mut waiting = ClientList::new(self.alloc);
        waiting.push(client)?;
        self.records.reserve(self.spare as usize + 1)?;
        let standing = Standing {
            owner: Owner::Primary,
            note: 0,
            waiting,
        };
        self.records.insert(file, standing);
        Ok(())
    }

    /// The client waits for the file no more, if it did; the others keep their order. Takes no memory.
    pub fn unwait(&mut self, file: u32, client: u8)
        ensures { self.new ≡ record self.old { files = with_waiting self.old.files file (filter (is_another client) (waiting_at self.old.files file)) } }
    {
        if !self.records.has(file) {
            return;
        }
        self.records.drop_client(file, client);
        self.records.forget_unknown(file);
    }
}

// The worker that has a file or is to have it.
fn worker_of(owner: Owner) -> u8
    requires { IsTrue (is_out owner) }
    ensures { recalled owner ≡ Coming result }
{
    match owner {
        Owner::Worker(worker) => worker,
        Owner::Going { to } => to,
        Owner::Primary | Owner::Coming { .. } => unreachable!(),
    }
}

fn add_one(workers: &mut [u32; 256], worker: u8)
    requires { slice_index workers.old worker + 1 < 2 ^ 32 }
    ensures { workers.new ≡ slice_set workers.old worker (slice_index workers.old worker + 1) }
{
    workers[usize::from(worker)] += 1;
}

fn take_one(workers: &mut [u32; 256], worker: u8)
    requires { 0 < slice_index workers.old worker }
    ensures { workers.new ≡ slice_set workers.old worker (slice_index workers.old worker - 1) }
{
    workers[usize::from(worker)] -= 1;
}
