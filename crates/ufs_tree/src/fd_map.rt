// What each client's descriptors stand for, with what has to be known of them without a search.
ghost use Rattle.std.specs.Prelude.{◌≡◌, OnOk, OnErr, IfSome, None};
ghost use Rattle.std.specs.FinMap as map;
ghost use Rattle.ufs_model.specs.Descriptors.{with_offset};

use crate::counts::{Counts, lower_file, raise_file};
use crate::desc_map::DescMap;
use std::alloc::Global;
use std::marker::Model;
use ufs_base::Lack;
use ufs_model::Desc;

/// What each client's descriptors stand for.
#[derive(Drop)]
pub struct FdMap {
    entries: DescMap,
    // How many descriptors each file has.
    opens: Counts<u32>,
}

impl Model for FdMap {
    ghost use Rattle.std.specs.FinMap as map;
    ghost use Rattle.ufs_model.specs.declared.data.Desc.{Desc};
    ghost use Rattle.ufs_model.specs.Order.{fd_cmp};
    ghost use Rattle.ufs_tree.specs.Counted.{IsCountedByDesc};
    ghost use Rattle.std.specs.Coded.{coded×, coded_ℕ};
    ghost use Rattle.ufs_model.specs.contracts.data.Desc as desc;

    ghost Value = { map.FinMap fd_cmp Desc };

    ghost coded = { map.code (coded× coded_ℕ coded_ℕ) desc.the_row.coded };

    ghost view = { λ m. m.entries };

    ghost invariant = { λ m. IsCountedByDesc m.entries m.opens };
}

impl FdMap {
    ghost use Rattle.std.specs.Prelude.{◌≡◌, OnOk, OnErr, IfSome, None, Some, ℕ};
    ghost use Rattle.std.specs.List.{list_any};
    ghost use Rattle.std.specs.FinMap as map;
    ghost use Rattle.ufs_model.specs.declared.data.Desc.{Desc};
    ghost use Rattle.ufs_model.specs.Descriptors.{lowest_free, with_offset};
    ghost use Rattle.ufs_model.specs.PosixTree.{is_desc_of};

    pub fn new(alloc: Global) -> Self
        ensures { result ≡ map.empty }
    {
        FdMap {
            entries: DescMap::new(alloc),
            opens: Counts::new(alloc),
        }
    }

    pub fn get(&self, client: u8, fd: u64) -> Option<Desc>
        ensures { result ≡ map.get self.now (client, fd) }
    {
        self.entries.get(client, fd)
    }

    /// Opens a descriptor that isn't open.
    pub fn open(&mut self, client: u8, fd: u64, desc: Desc) -> Result<(), Lack>
        requires { map.get self.old (client, fd) ≡ None }
        ensures ok { OnOk result (self.new ≡ map.insert self.old (client, fd) desc) }
        ensures err { OnErr result (self.new ≡ self.old) }
    {
        raise_file(&mut self.opens, desc.file)?;
        match self.entries.insert(client, fd, desc) {
            Ok(()) => Ok(()),
            Err(refused) => {
                lower_file(&mut self.opens, desc.file);
                Err(Lack::from(refused))
            }
        }
    }

    /// Moves the offset of an open descriptor. Takes no memory.
    pub fn set_offset(&mut self, client: u8, fd: u64, at: u64)
        ensures moved { (d : Desc) → map.get self.old (client, fd) ≡ Some d → self.new ≡ map.insert self.old (client, fd) (with_offset d at) }
        ensures none { map.get self.old (client, fd) ≡ None → self.new ≡ self.old }
    {
        let Some(desc) = self.get(client, fd) else {
            return;
        };
        match self.entries.insert(client, fd, moved(desc, at)) {
            Ok(()) => {}
            Err(_) => unreachable!(),
        }
    }

    /// Takes no memory.
    pub fn close(&mut self, client: u8, fd: u64)
        ensures { self.new ≡ map.remove self.old (client, fd) }
    {
        if let Some(desc) = self.get(client, fd) {
            self.entries.remove(client, fd);
            lower_file(&mut self.opens, desc.file);
        }
    }

    /// The lowest free descriptor of the client.
    pub fn lowest(&self, client: u8) -> Option<u32>
        ensures value { result ≡ lowest_free self.now client }
        ensures free { IfSome result (λ fd. map.get self.now (client, fd) ≡ None) }
    {
        for fd in 3..67u32 {
            if self.get(client, u64::from(fd)).is_none() {
                return Some(fd);
            }
        }
        None
    }

    /// Whether a descriptor is open on the file.
    pub fn has_file(&self, file: u32) -> bool
        ensures { result ≡ list_any (is_desc_of file) (map.values self.now) }
    {
        self.opens.get(&file) > 0
    }
}

fn moved(desc: Desc, at: u64) -> Desc
    ensures { result ≡ with_offset desc at }
{
    Desc { at, ..desc }
}
