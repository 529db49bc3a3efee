ghost use Rattle.std.specs.Prelude.{◌↔◌, IsTrue};
ghost use Rattle.ufs_lease.specs.Leases.{IsOnPath};

use crate::path::is_at_or_below;
use std::alloc::Global;
use std::marker::Model;
use ufs_base::Memory;
use ufs_model::{Fact, Lease};

/// The leases on one part, a file or the names, in the order in which they were granted. A lease whose time is up
/// stays until it is given back, and stands against nothing.
#[derive(Drop)]
pub struct LeaseTable {
    leases: Vec<Lease>,
}

impl Model for LeaseTable {
    ghost use Rattle.std.specs.Prelude.{List};
    ghost use Rattle.ufs_model.specs.declared.data.Lease.{Lease};
    ghost use Rattle.ufs_lease.specs.Leases.{AreInTime};

    ghost Value = { List Lease };

    ghost view = { λ t. t.leases.items };

    ghost invariant = { λ t. AreInTime t.leases.items };
}

impl LeaseTable {
    ghost use Rattle.std.specs.Prelude.{◌≡◌, ◌<◌, ◌≤◌, ◌^◌, ◌↔◌, ◌++◌, ◌∷◌, [], All, Any, IsNone, IsTrue, IfSome, OnErr, OnOk, filter};
    ghost use Rattle.ufs_lease.specs.Leases.{AreInTime, StandsAgainst, StandsAgainstPath, is_of_another};

    /// No lease.
    pub fn new(alloc: Global) -> Self
        ensures { result ≡ [] }
    {
        LeaseTable {
            leases: Vec::new(alloc),
        }
    }

    /// Adds a lease, which ends before the clock does.
    pub fn grant(&mut self, lease: Lease) -> Result<(), Memory>
        requires { lease.until < 2 ^ 24 }
        ensures ok { OnOk result (self.new ≡ self.old ++ lease ∷ []) }
        ensures err { OnErr result (self.new ≡ self.old) }
    {
        self.leases.push(lease)?;
        Ok(())
    }

    /// Takes out the leases of a client. Takes no memory.
    pub fn give_back(&mut self, client: u8)
        ensures { self.new ≡ filter (is_of_another client) self.old }
    {
        self.leases.retain(|lease| lease.client != client);
    }

    /// Whether a lease stands against a change by the client at a time: another client has it, and its time isn't up.
    pub fn blocks_change(&self, client: u8, clock: u32) -> bool
        ensures { IsTrue result ↔ Any (StandsAgainst client clock) self.now }
    {
        self.leases
            .iter()
            .any(|lease| lease.client != client && lease.until > clock)
    }

    /// Whether such a lease says what a path names, of the path itself or of one below it. Several slashes in a path
    /// count as one.
    pub fn blocks_path(&self, client: u8, path: &[u8], clock: u32) -> bool
        ensures { IsTrue result ↔ Any (StandsAgainstPath client path.now clock) self.now }
    {
        self.leases.iter().any(|lease| {
            lease.client != client && lease.until > clock && is_on_path(lease, path)
        })
    }

    /// When the first of the leases ends.
    pub fn earliest(&self) -> Option<u32>
        ensures none { IsNone result ↔ (self.now ≡ []) }
        ensures ends { IfSome result (λ until. Any (λ lease. lease.until ≡ until) self.now) }
        ensures first { IfSome result (λ until. All (λ lease. until ≤ lease.until) self.now) }
        ensures in_time { AreInTime self.now }
    {
        self.leases.iter().map(|lease| lease.until).min()
    }
}

// Whether the lease says what the path, or one below it, names.
fn is_on_path(lease: &Lease, path: &[u8]) -> bool
    ensures { IsTrue result ↔ IsOnPath path.now lease.now }
{
    match &lease.fact {
        Fact::Holds { .. } => false,
        Fact::Resolves { path: leased, .. } => is_at_or_below(path, leased.as_slice()),
    }
}
