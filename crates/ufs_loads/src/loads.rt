// The loads that are noted.
ghost use Rattle.std.specs.Prelude.{◌≡◌, ◌+◌, ◌≤◌, ◌<◌, [], length, map};
ghost use Rattle.std.specs.FinMap as fin;
ghost use Rattle.std.specs.HashMap.{hash_map_len, spare};
ghost use Rattle.std.specs.Vec.{vec_capacity};
ghost use Rattle.ufs_loads.specs.Loads.{entry_load, noted_all, noted_one};

use crate::noted::Noted;
use std::alloc::Global;
use std::collections::HashMap;
use std::marker::Model;
use ufs_base::Memory;
use ufs_load::{MoveList, plan};
use ufs_model::{Load, LoadList};

/// The load that was told last of each file. A file that is no more keeps its load, and one that moved keeps its worker, until a new report
/// names it.
#[derive(Drop)]
pub struct Loads {
    noted: HashMap<u32, Noted>,
    alloc: Global,
}

impl Model for Loads {
    ghost use Rattle.std.specs.Coded.{coded_ℕ};
    ghost use Rattle.std.specs.FinMap as fin;
    ghost use Rattle.ufs_loads.specs.Loads.{NotedLoads, noted_code};

    ghost Value = { NotedLoads };

    ghost coded = { fin.code coded_ℕ noted_code };

    ghost view = { λ l. fin.from_entries l.noted.entries };
}

impl Loads {
    ghost use Rattle.std.specs.Prelude.{◌≡◌, IfOk, OnErr, OnOk};
    ghost use Rattle.std.specs.FinMap as fin;
    ghost use Rattle.ufs_loads.specs.Loads.{AreLoads, IsPlanOf, noted_all};

    /// None. Takes no memory.
    pub fn new(alloc: Global) -> Loads
        ensures { result ≡ fin.empty }
    {
        Loads {
            noted: HashMap::new(alloc),
            alloc,
        }
    }

    /// A report: each load takes the place of the one that was noted for its file. Takes time for each load of the report, whatever is
    /// noted. Where memory is wanting nothing is noted.
    pub fn note(&mut self, report: &[Load]) -> Result<(), Memory>
        ensures ok { OnOk result (self.new ≡ noted_all self.old report.now) }
        ensures err { OnErr result (self.new ≡ self.old) }
    {
        self.noted.reserve(report.len())?;
        note_all(&mut self.noted, report);
        Ok(())
    }

    /// At most so many moves, by which no worker gets more than the most loaded one has: the plan over what is noted.
    pub fn plan(&self, workers: u8, limit: u32) -> Result<MoveList, Memory>
        ensures { IfOk result (IsPlanOf self.now workers limit) }
    {
        let loads = self.list()?;
        plan(self.alloc, &loads, workers, limit)
    }

    fn list(&self) -> Result<LoadList, Memory>
        ensures { IfOk result (AreLoads self.now) }
    {
        let mut loads = Vec::with_capacity(self.alloc, self.noted.len())?;
        list_all(&self.noted, &mut loads);
        Ok(LoadList::from_vec(loads))
    }
}

// Each load of the report is noted. There is room for all.
fn note_all(noted: &mut HashMap<u32, Noted>, report: &[Load])
    requires { length report.now ≤ spare noted.old }
    ensures { fin.from_entries noted.new.entries ≡ noted_all (fin.from_entries noted.old.entries) report.now }
{
    for load in report {
        note_one(noted, *load);
    }
}

fn note_one(noted: &mut HashMap<u32, Noted>, load: Load)
    requires { 0 < spare noted.old }
    ensures noted { fin.from_entries noted.new.entries ≡ noted_one (fin.from_entries noted.old.entries) load }
    ensures spare { spare noted.old ≤ spare noted.new + 1 }
{
    let Load {
        file,
        worker,
        count,
    } = load;
    match noted.insert(file, Noted { worker, count }) {
        Ok(_) => {}
        Err(_) => unreachable!(),
    }
}

// All that is noted, one after another. The list has room for it.
fn list_all(noted: &HashMap<u32, Noted>, loads: &mut Vec<Load>)
    requires none { loads.old.items ≡ [] }
    requires room { hash_map_len noted.now ≤ vec_capacity loads.old }
    ensures { loads.new.items ≡ map entry_load noted.now.entries }
{
    for (file, told) in noted.iter() {
        loads.push_reserved(Load {
            file: *file,
            worker: told.worker,
            count: told.count,
        });
    }
}
