// How often each key was counted.
ghost use Rattle.std.specs.Prelude.{◌≡◌, ◌+◌, ◌-◌, ◌^◌, ℕ, OnOk, OnErr, IfErr, if◌then◌else◌};
ghost use Rattle.ufs_model.specs.PosixTree.{is_number};
ghost use Rattle.ufs_tree.specs.Counted.{file_count};

use std::alloc::Global;
use std::collections::BTreeMap;
use std::collections::btree_map::Comparable;
use ufs_base::Lack;

/// A count for each key that has one above 0.
#[derive(Drop)]
pub struct Counts<K: Ord> {
    entries: BTreeMap<K, u64>,
}

impl<K: Ord + Drop> Counts<K> {
    ghost use Rattle.std.specs.Prelude.{◌≡◌, ◌+◌, ◌-◌, ◌^◌, Bool, OnOk, OnErr, IfErr, Err};
    ghost use Rattle.std.specs.BTreeMap.{is_at};
    ghost use Rattle.std.specs.Ordering.{eq_by_cmp};
    ghost use Rattle.ufs_base.specs.declared.lack.Lack.TheVariants.{AtEnd};
    ghost use Rattle.ufs_tree.specs.Counted.{count_at, KeepsCounts, IsCounted};
    ghost use Rattle.ufs_tree.specs.Lacks.{IsLackOfCount};

    pub fn new(alloc: Global) -> Self
        ensures { (test : K → Bool) → count_at test result ≡ 0 }
    {
        Counts {
            entries: BTreeMap::new(alloc),
        }
    }

    /// 0 where there is none.
    pub fn get<Q: Comparable<K>>(&self, key: Q) -> u64
        ensures { result ≡ count_at (is_at (Q.compare key)) self.now }
    {
        self.entries.get(key).copied().unwrap_or(0)
    }

    // Another count in the place of the one that is there.
    fn replace<Q: Comparable<K>>(&mut self, key: Q, count: u64)
        requires { IsCounted (is_at (Q.compare key)) self.old }
        ensures there { count_at (is_at (Q.compare key)) self.new ≡ count }
        ensures others { KeepsCounts (eq_by_cmp K.cmp) (is_at (Q.compare key)) self.old self.new }
    {
        let Some(held) = self.entries.get_mut(key) else {
            unreachable!();
        };
        *held = count;
    }

    /// One more of the key.
    pub fn raise(&mut self, key: K) -> Result<(), Lack>
        ensures more { OnOk result (count_at (is_at (K.cmp key)) self.new ≡ count_at (is_at (K.cmp key)) self.old + 1) }
        ensures others { OnOk result (KeepsCounts (eq_by_cmp K.cmp) (is_at (K.cmp key)) self.old self.new) }
        ensures err { OnErr result ((test : K → Bool) → count_at test self.new ≡ count_at test self.old) }
        ensures lack { IfErr result (IsLackOfCount (count_at (is_at (K.cmp key)) self.old)) }
        ensures at_end { count_at (is_at (K.cmp key)) self.old ≡ 2 ^ 64 - 1 → result ≡ Err AtEnd }
    {
        let count = self.get(&key);
        let Some(more) = count.checked_add(1) else {
            return Err(Lack::AtEnd);
        };
        self.entries.insert(key, more)?;
        Ok(())
    }

    /// One less of the key. A count that comes to 0 goes. Takes no memory.
    pub fn lower<Q: Comparable<K>>(&mut self, key: Q)
        ensures less { count_at (is_at (Q.compare key)) self.new ≡ count_at (is_at (Q.compare key)) self.old - 1 }
        ensures others { KeepsCounts (eq_by_cmp K.cmp) (is_at (Q.compare key)) self.old self.new }
    {
        let count = self.get(key);
        if count <= 1 {
            let _number = self.entries.remove(key);
        } else {
            self.replace(key, count - 1);
        }
    }
}

/// One more of the file, if there is one.
pub fn raise_file(counts: &mut Counts<u32>, file: Option<u32>) -> Result<(), Lack>
    ensures ok { OnOk result ((f : ℕ) → file_count counts.new f ≡ file_count counts.old f + (if is_number f file then 1 else 0)) }
    ensures err { OnErr result ((f : ℕ) → file_count counts.new f ≡ file_count counts.old f) }
{
    if let Some(file) = file {
        counts.raise(file)?;
    }
    Ok(())
}

/// One less of the file, if there is one. Takes no memory.
pub fn lower_file(counts: &mut Counts<u32>, file: Option<u32>)
    ensures { (f : ℕ) → file_count counts.new f ≡ file_count counts.old f - (if is_number f file then 1 else 0) }
{
    if let Some(file) = file {
        counts.lower(&file);
    }
}
