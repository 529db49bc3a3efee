ghost use Rattle.std.specs.Prelude.{◌≡◌, OnOk, OnErr};
ghost use Rattle.std.specs.FinMap as map;

use crate::holding::Holding;
use std::alloc::{AllocError, Global};
use std::collections::BTreeMap;
use std::marker::Model;

/// Who holds each live file.
#[derive(Drop)]
pub struct HoldMap {
    pub(crate) entries: BTreeMap<u32, Holding>,
}

impl Model for HoldMap {
    ghost use Rattle.std.specs.FinMap as map;
    ghost use Rattle.std.specs.Ordering.{nat_cmp};
    ghost use Rattle.std.specs.Coded.{coded_ℕ};
    ghost use Rattle.ufs_calls.specs.Seen.{seen};
    ghost use Rattle.ufs_names.specs.declared.holding.Holding.{Holding};
    ghost use Rattle.ufs_names.specs.contracts.holding.Holding as holding;

    ghost Value = { map.FinMap nat_cmp Holding };

    ghost coded = { map.code coded_ℕ holding.the_row.coded };

    ghost view = { λ m. seen nat_cmp (λ k. k) m.entries };
}

impl HoldMap {
    ghost use Rattle.std.specs.Prelude.{◌≡◌, OnOk, OnErr, None};
    ghost use Rattle.std.specs.FinMap as map;

    pub fn new(alloc: Global) -> Self
        ensures { result ≡ map.empty }
    {
        HoldMap {
            entries: BTreeMap::new(alloc),
        }
    }

    pub fn get(&self, file: u32) -> Option<Holding>
        ensures { result ≡ map.get self.now file }
    {
        self.entries.get(&file).copied()
    }

    /// Puts a holding in the place of the one that the file had. It takes memory only where there was none.
    pub fn put(&mut self, file: u32, holding: Holding) -> Result<(), AllocError>
        ensures ok { OnOk result (self.new ≡ map.insert self.old file holding) }
        ensures err { OnErr result (self.new ≡ self.old) }
        ensures absent { OnErr result (map.get self.old file ≡ None) }
    {
        self.entries.insert(file, holding)?;
        Ok(())
    }

    /// Takes no memory.
    pub fn remove(&mut self, file: u32)
        ensures { self.new ≡ map.remove self.old file }
    {
        // For the prover alone.
        let _count = self.entries.len();
        let _holding = self.entries.remove(&file);
    }
}
