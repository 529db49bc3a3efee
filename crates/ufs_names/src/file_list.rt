ghost use Rattle.std.specs.BTreeMap.{keys};
ghost use Rattle.std.specs.Prelude.{◌≡◌, IfOk};

use crate::hold_map::HoldMap;
use crate::holding::Holding;
use crate::names::Names;
use std::alloc::Global;
use std::collections::BTreeMap;
use std::marker::Model;
use ufs_base::Memory;

/// Numbers of files, in order.
#[derive(Drop)]
pub struct FileList {
    files: Vec<u32>,
}

impl Model for FileList {
    ghost use Rattle.std.specs.Prelude.{List, ℕ};

    ghost Value = { List ℕ };

    ghost view = { λ l. l.files.items };
}

impl FileList {
    ghost use Rattle.std.specs.Prelude.{◌≡◌, [], IfOk};
    ghost use Rattle.ufs_names.specs.Needs.{listed};

    /// Takes no memory.
    pub fn from_vec(files: Vec<u32>) -> Self
        ensures { result ≡ files.items }
    {
        FileList { files }
    }

    /// Takes no memory.
    pub fn into_vec(self) -> Vec<u32>
        ensures { result.items ≡ self }
    {
        self.files
    }

    pub fn as_slice(&self) -> &[u32]
        ensures { result.now ≡ self.now }
    {
        self.files.as_slice()
    }

    /// The one file, or none.
    pub(crate) fn of(alloc: Global, file: Option<u32>) -> Result<Self, Memory>
        ensures { IfOk result (λ files. files ≡ listed file) }
    {
        let mut files = Vec::new(alloc);
        if let Some(file) = file {
            files.push(file)?;
        }
        Ok(FileList::from_vec(files))
    }
}

impl HoldMap {
    ghost use Rattle.std.specs.Prelude.{◌≡◌, IfOk};
    ghost use Rattle.std.specs.FinMap as map;
    ghost use Rattle.std.specs.List.Sorted.{IsStrictlyIncreasing};

    /// The files that it tells of.
    pub(crate) fn files(&self, alloc: Global) -> Result<FileList, Memory>
        ensures files { IfOk result (λ files. files ≡ map.keys self.now) }
        ensures rising { IfOk result (λ files. IsStrictlyIncreasing files) }
    {
        // For the prover alone.
        let _count = self.entries.len();
        let files = keys_of(alloc, &self.entries)?;
        Ok(FileList::from_vec(files))
    }
}

impl Names {
    ghost use Rattle.std.specs.Prelude.{◌≡◌, IfOk};
    ghost use Rattle.std.specs.FinMap as map;

    /// The live files, by rising number.
    pub fn live(&self) -> Result<FileList, Memory>
        ensures { IfOk result (λ files. files ≡ map.keys self.now.held) }
    {
        self.held.files(self.alloc)
    }
}

fn keys_of(alloc: Global, entries: &BTreeMap<u32, Holding>) -> Result<Vec<u32>, Memory>
    ensures { IfOk result (λ files. files.items ≡ keys entries.now) }
{
    let files = entries.keys().copied().collect(alloc)?;
    Ok(files)
}
