ghost use Rattle.std.specs.Prelude.{◌≡◌, ◌++◌, ◌∷◌, [], ℕ, List, OnOk, OnErr, IfOk, None};
ghost use Rattle.std.specs.FinMap as map;

use std::alloc::Global;
use std::collections::BTreeMap;
use std::marker::Model;
use ufs_base::Memory;

/// A whole path, and the inode that stands there.
#[derive(Drop)]
pub struct PathAt {
    pub path: Vec<u8>,
    pub inode: u32,
}

// Which inode stands at each path.
#[derive(Drop)]
pub(crate) struct PlaceMap {
    entries: BTreeMap<Vec<u8>, u32>,
}

impl Model for PlaceMap {
    ghost use Rattle.std.specs.Prelude.{List, ℕ};
    ghost use Rattle.std.specs.FinMap as map;
    ghost use Rattle.ufs_model.specs.Order.{path_cmp};
    ghost use Rattle.ufs_calls.specs.Seen.{seen};
    ghost use Rattle.std.specs.Coded.{coded_ℕ, coded_list};

    ghost Value = { map.FinMap path_cmp ℕ };

    ghost coded = { map.code (coded_list coded_ℕ) coded_ℕ };

    ghost view = { λ m. seen path_cmp (λ k. k.items) m.entries };
}

impl PlaceMap {
    ghost use Rattle.std.specs.Prelude.{◌≡◌, ◌++◌, ◌∷◌, [], List, ℕ, OnOk, OnErr, IfOk, None};
    ghost use Rattle.std.specs.FinMap as map;
    ghost use Rattle.ufs_walk.specs.Walked.{Place, pairs_of};

    pub(crate) fn new(alloc: Global) -> Self
        ensures { result ≡ map.empty }
    {
        PlaceMap {
            entries: BTreeMap::new(alloc),
        }
    }

    fn get(&self, path: &[u8]) -> Option<u32>
        ensures { result ≡ map.get self.now path.now }
    {
        self.entries.get(path).copied()
    }

    fn insert(&mut self, path: Vec<u8>, inode: u32) -> Result<(), Memory>
        ensures { OnOk result (self.new ≡ map.insert self.old path.items inode) }
    {
        self.entries.insert(path, inode)?;
        Ok(())
    }

    /// The first inode that is noted at a path counts.
    pub(crate) fn note(&mut self, alloc: Global, path: &[u8], inode: u32) -> Result<(), Memory>
        ensures { (es : List Place) → self.old ≡ map.from_entries es → OnOk result (self.new ≡ map.from_entries (es ++ (path.now, inode) ∷ [])) }
    {
        if self.get(path).is_some() {
            return Ok(());
        }
        let path = path.to_vec(alloc)?;
        self.insert(path, inode)
    }

    /// By rising path.
    pub(crate) fn into_places(self, alloc: Global) -> Result<Vec<PathAt>, Memory>
        ensures { IfOk result (λ places. pairs_of places.items ≡ map.entries self) }
    {
        let mut places = Vec::with_capacity(alloc, self.entries.len())?;
        for (path, inode) in self.entries {
            places.push(PathAt { path, inode })?;
        }
        Ok(places)
    }
}
