ghost use Rattle.std.specs.Prelude.{◌≡◌, ◌≤◌, ◌^◌, ◌++◌, [], List, OnOk, OnErr, IfErr, IfNone, IsTrue};
ghost use Rattle.std.specs.List.{list_all};
ghost use Rattle.ufs_layout.specs.Records.{is_record};
ghost use Rattle.ufs_layout.specs.Filled.{sector_count_of};
ghost use Rattle.ufs_ilog.specs.Changes.{is_in_order};
ghost use Rattle.ufs_ilog.specs.Notes.{IsLackFor};

use crate::change::Change;
use std::alloc::Global;
use std::marker::Model;
use std::mem;
use ufs_base::Lack;
use ufs_layout::{LogRecord, Records, record_length};

// The bytes of content that a journal sector has room for.
const CONTENT: usize = 488;

/// The changes of names since the last commit, each whole, in their order. Contracts see their records.
#[derive(Drop)]
pub struct NamesLog {
    alloc: Global,
    records: Records,
    filling: Filling,
}

impl Model for NamesLog {
    ghost use Rattle.std.specs.Prelude.{List, IsTrue};
    ghost use Rattle.std.specs.List.{list_all};
    ghost use Rattle.ufs_layout.specs.Records.{is_record};
    ghost use Rattle.ufs_layout.specs.declared.records.LogRecord.{LogRecord};
    ghost use Rattle.ufs_ilog.specs.Filling.{IsFilling};

    ghost Value = { List LogRecord };

    ghost view = { λ l. l.records };

    ghost invariant = { λ l. IsTrue (list_all is_record l.records) × IsFilling l.filling.sectors l.filling.used l.records };
}

impl NamesLog {
    /// No change. Takes no memory.
    pub fn new(alloc: Global) -> Self
        ensures { result ≡ [] }
    {
        NamesLog {
            alloc,
            records: Records::new(alloc),
            filling: Filling::NONE,
        }
    }

    pub(crate) fn alloc(&self) -> Global {
        self.alloc
    }

    /// The change goes behind the others, whole.
    pub fn note(&mut self, change: Change) -> Result<(), Lack>
        requires form { IsTrue (list_all is_record change.records) }
        requires order { IsTrue (is_in_order change.records) }
        ensures ok { OnOk result (self.new ≡ self.old ++ change.records) }
        ensures err { OnErr result (self.new ≡ self.old) }
        ensures lack { IfErr result (IsLackFor self.old change.records) }
    {
        let Some(filling) = self.filling.with_records(change.records.as_slice()) else {
            return Err(Lack::AtEnd);
        };
        self.records.append(change.records)?;
        self.filling = filling;
        Ok(())
    }

    /// How many sectors of a journal the records take, without the commit's.
    pub fn sectors(&self) -> u32
        ensures { result ≡ sector_count_of self.now }
    {
        self.filling.sectors
    }

    /// The records of all changes, in order.
    pub fn records(&self) -> &Records
        ensures records { result.now ≡ self.now }
        ensures form { IsTrue (list_all is_record result.now) }
    {
        &self.records
    }

    /// What was noted is committed. Takes no memory.
    pub fn cleared(&mut self)
        ensures { self.new ≡ [] }
    {
        *self = NamesLog::new(self.alloc);
    }
}

// How far records fill sectors: how many these are, and the bytes used in the last one.
#[derive(Clone, Copy)]
struct Filling {
    sectors: u32,
    used: usize,
}

impl Filling {
    ghost use Rattle.std.specs.Prelude.{◌+◌, ◌∷◌, length, IfSome};
    ghost use Rattle.ufs_layout.specs.Records.{record_bytes};
    ghost use Rattle.ufs_layout.specs.declared.records.LogRecord.{LogRecord};
    ghost use Rattle.ufs_ilog.specs.Filling.{IsFilling};

    const NONE: Filling = Filling {
        sectors: 0,
        used: 0,
    };

    // With one record more. `None` where the count would pass its type's end.
    fn with_record(self, added: &LogRecord) -> Option<Filling>
        requires { IsTrue (is_record added.now) }
        ensures more { (before : List LogRecord) → IsFilling self.sectors self.used before → IfSome result (λ f. IsFilling f.sectors f.used (before ++ added.now ∷ [])) }
        ensures end { (before : List LogRecord) → IsFilling self.sectors self.used before → IfNone result (2 ^ 32 ≤ sector_count_of (before ++ added.now ∷ [])) }
    {
        let length = record_length(added);
        if self.sectors > 0 && self.used <= CONTENT && length <= CONTENT - self.used {
            return Some(Filling {
                sectors: self.sectors,
                used: self.used + length,
            });
        }
        if self.sectors == u32::MAX {
            return None;
        }
        Some(Filling {
            sectors: self.sectors + 1,
            used: length,
        })
    }

    // With these records more. `None` where the count would pass its type's end.
    fn with_records(self, records: &[LogRecord]) -> Option<Filling>
        requires { IsTrue (list_all is_record records.now) }
        ensures more { (before : List LogRecord) → IsFilling self.sectors self.used before → IfSome result (λ f. IsFilling f.sectors f.used (before ++ records.now)) }
        ensures end { (before : List LogRecord) → IsFilling self.sectors self.used before → IfNone result (2 ^ 32 ≤ sector_count_of (before ++ records.now)) }
    {
        let mut filling = self;
        for record in records {
            let Some(next) = filling.with_record(record) else {
                return None;
            };
            filling = next;
        }
        Some(filling)
    }
}
