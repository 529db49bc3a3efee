ghost use Rattle.std.specs.Prelude.{◌≡◌, OnOk, OnErr, None};
ghost use Rattle.std.specs.FinMap as map;

use std::alloc::{AllocError, Global};
use std::collections::BTreeMap;
use std::marker::Model;
use ufs_model::Desc;

/// What each client's descriptors stand for.
#[derive(Drop)]
pub struct DescMap {
    entries: BTreeMap<(u8, u64), Desc>,
}

impl Model for DescMap {
    ghost use Rattle.std.specs.FinMap as map;
    ghost use Rattle.ufs_model.specs.declared.data.Desc.{Desc};
    ghost use Rattle.ufs_model.specs.Order.{fd_cmp};
    ghost use Rattle.ufs_calls.specs.Seen.{seen};
    ghost use Rattle.std.specs.Coded.{coded×, coded_ℕ};
    ghost use Rattle.ufs_model.specs.contracts.data.Desc as desc;

    ghost Value = { map.FinMap fd_cmp Desc };

    ghost coded = { map.code (coded× coded_ℕ coded_ℕ) desc.the_row.coded };

    ghost view = { λ m. seen fd_cmp (λ k. k) m.entries };
}

impl DescMap {
    ghost use Rattle.std.specs.Prelude.{◌≡◌, OnOk, OnErr, None};
    ghost use Rattle.std.specs.FinMap as map;

    pub fn new(alloc: Global) -> Self
        ensures { result ≡ map.empty }
    {
        DescMap {
            entries: BTreeMap::new(alloc),
        }
    }

    pub fn get(&self, client: u8, fd: u64) -> Option<Desc>
        ensures { result ≡ map.get self.now (client, fd) }
    {
        self.entries.get(&(client, fd)).copied()
    }

    pub fn insert(&mut self, client: u8, fd: u64, desc: Desc) -> Result<(), AllocError>
        ensures ok { OnOk result (self.new ≡ map.insert self.old (client, fd) desc) }
        ensures absent { OnErr result (map.get self.old (client, fd) ≡ None) }
        ensures err { OnErr result (self.new ≡ self.old) }
    {
        self.entries.insert((client, fd), desc)?;
        Ok(())
    }

    /// Takes no memory.
    pub fn remove(&mut self, client: u8, fd: u64)
        ensures { self.new ≡ map.remove self.old (client, fd) }
    {
        // For the prover alone.
        let _count = self.entries.len();
        let _desc = self.entries.remove(&(client, fd));
    }
}
