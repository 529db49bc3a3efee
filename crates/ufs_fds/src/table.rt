ghost use Rattle.std.specs.Prelude.{◌≡◌};
ghost use Rattle.ufs_model.specs.Asks.{file_in};
ghost use Rattle.ufs_model.specs.PosixTree.{is_number};

use std::marker::Model;
use ufs_base::{FIRST_FD, LAST_FD, MAX_FDS};
use ufs_model::Desc;

/// What a client's descriptors stand for. Their numbers are 3 to 66. No call takes memory.
#[derive(Drop)]
pub struct FdTable {
    // The bit `k` is set where descriptor `FIRST_FD + k` is open.
    used: u64,
    slots: [Option<Desc>; MAX_FDS],
}

impl Model for FdTable {
    ghost use Rattle.std.specs.FinMap as map;
    ghost use Rattle.std.specs.Ordering.{nat_cmp};
    ghost use Rattle.std.specs.Coded.{coded_ℕ};
    ghost use Rattle.ufs_model.specs.declared.data.Desc.{Desc};
    ghost use Rattle.ufs_model.specs.contracts.data.Desc as desc;
    ghost use Rattle.ufs_fds.specs.Slots.{table_of, AreMarked};

    ghost Value = { map.FinMap nat_cmp Desc };

    ghost coded = { map.code coded_ℕ desc.the_row.coded };

    ghost view = { λ t. table_of t.slots };

    ghost invariant = { λ t. AreMarked t.used t.slots };
}

impl FdTable {
    ghost use Rattle.std.specs.Prelude.{◌≡◌, ◌≤◌, ◌<◌, ◌↔◌, ℕ, None, Some, IsTrue, IsSome, IfSome, IfNone};
    ghost use Rattle.std.specs.FinMap as map;
    ghost use Rattle.ufs_model.specs.PosixTree.{Fds};
    ghost use Rattle.ufs_model.specs.Asks.{file_in, is_last_of};
    ghost use Rattle.ufs_model.specs.Descriptors.{lowest_free};
    ghost use Rattle.ufs_model.specs.Touched.{holds};
    ghost use Rattle.ufs_fds.specs.Descriptors.{AreInRange, AreOf};

    /// No descriptor is open.
    pub fn new() -> Self
        ensures { result ≡ map.empty }
    {
        FdTable {
            used: 0,
            slots: [None; MAX_FDS],
        }
    }

    /// The lowest free number, without a look at each slot.
    pub fn lowest(&self) -> Option<u32>
        ensures range { IfSome result (λ fd. (FIRST_FD ≤ fd) × (fd ≤ LAST_FD)) }
        ensures free { IfSome result (λ fd. map.get self.now fd ≡ None) }
        ensures lower { IfSome result (λ fd. (k : ℕ) → FIRST_FD ≤ k → k < fd → IsSome (map.get self.now k)) }
        ensures full { IfNone result ((k : ℕ) → FIRST_FD ≤ k → k ≤ LAST_FD → IsSome (map.get self.now k)) }

        // In a tree this is the one that an `open` of the client gives out.
        ensures posix { (fds : Fds) (client : ℕ) → AreOf fds client self.now → result ≡ lowest_free fds client }
    {
        if self.used == u64::MAX {
            return None;
        }
        Some(FIRST_FD + self.used.trailing_ones())
    }

    /// What the descriptor stands for; `None` where it isn't open, whatever its number.
    pub fn get(&self, fd: u64) -> Option<Desc>
        ensures value { result ≡ map.get self.now fd }
        ensures range { AreInRange self.now }
    {
        let slots = &self.slots;
        if fd < FIRST_FD as u64 || fd > LAST_FD as u64 {
            return None;
        }
        slots[(fd - FIRST_FD as u64) as usize]
    }

    /// Whether the descriptor is open, whatever its number.
    pub fn is_open(&self, fd: u64) -> bool
        ensures open { IsTrue result ↔ IsSome (map.get self.now fd) }
    {
        self.get(fd).is_some()
    }

    /// Whether the descriptor is open on a file that none of the others is open on, so that to close it ends the
    /// client's hold of the file.
    pub fn is_last(&self, fd: u64) -> bool
        ensures { (fds : Fds) (client : ℕ) → AreOf fds client self.now → result ≡ is_last_of fds client fd (file_in (map.get fds (client, fd))) }
    {
        match self.get(fd) {
            Some(desc) => match desc.file {
                Some(file) => !self.has_other(fd, file),
                None => false,
            },
            None => false,
        }
    }

    // Whether another descriptor is open on the file.
    fn has_other(&self, fd: u64, file: u32) -> bool
        requires { AreInRange self.now }
        ensures { (fds : Fds) (client : ℕ) → AreOf fds client self.now → result ≡ holds (map.remove fds (client, fd)) client file }
    {
        for other in FIRST_FD as u64..LAST_FD as u64 + 1 {
            if other != fd && is_of(self.get(other), file) {
                return true;
            }
        }
        false
    }

    /// Opens the descriptor, or puts another in its place.
    pub fn set(&mut self, fd: u32, desc: Desc)
        requires low { FIRST_FD ≤ fd }
        requires high { fd ≤ LAST_FD }
        ensures { self.new ≡ map.insert self.old fd desc }
    {
        let place = fd - FIRST_FD;
        self.slots[place as usize] = Some(desc);
        self.used |= 1 << place;
    }

    /// Closes a descriptor that is open, which `is_open` tests.
    pub fn close(&mut self, fd: u32)
        requires { IsSome (map.get self.old fd) }
        ensures { self.new ≡ map.remove self.old fd }
    {
        let used = self.used;
        let place = fd - FIRST_FD;
        self.slots[place as usize] = None;
        self.used = used & !(1 << place);
    }
}

// Whether there is a descriptor, open on the file.
fn is_of(desc: Option<Desc>, file: u32) -> bool
    ensures { result ≡ is_number file (file_in desc) }
{
    match desc {
        Some(desc) => desc.file == Some(file),
        None => false,
    }
}
