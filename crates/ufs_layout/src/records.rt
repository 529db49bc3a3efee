// The journal's records, and lists of them.
ghost use Rattle.std.specs.Prelude.{◌≡◌, ◌++◌, ◌∷◌, [], OnOk, OnErr};

use crate::{Dentry, Extent};
use std::alloc::{AllocError, Global};
use std::marker::Model;

/// A list of extents.
#[derive(Drop)]
pub struct ExtentList {
    extents: Vec<Extent>,
}

impl Model for ExtentList {
    ghost use Rattle.std.specs.Prelude.{List};
    ghost use Rattle.ufs_layout.specs.declared.inode.Extent.{Extent};

    ghost Value = { List Extent };

    ghost view = { λ l. l.extents.items };
}

impl ExtentList {
    /// Takes no memory.
    pub fn from_vec(extents: Vec<Extent>) -> Self
        ensures { result ≡ extents.items }
    {
        ExtentList { extents }
    }

    /// Takes no memory.
    pub fn into_vec(self) -> Vec<Extent>
        ensures { result.items ≡ self }
    {
        self.extents
    }

    pub fn as_slice(&self) -> &[Extent]
        ensures { result.now ≡ self.now }
    {
        self.extents.as_slice()
    }
}

/// A change that a transaction makes.
#[derive(Drop)]
pub enum LogRecord {
    /// The inode has this kind and size; its first `keep` extents stay, and these follow.
    Delta {
        inode: u32,
        kind: u8,
        size: u64,
        keep: u8,
        extents: ExtentList,
    },
    /// The slot, 0 to 7 in its sector, has this dentry.
    Place {
        sector: u32,
        slot: u8,
        dentry: Dentry,
    },
    /// The inode is free.
    Free {
        inode: u32,
    },
}

/// A list of records, in their order.
#[derive(Drop)]
pub struct Records {
    records: Vec<LogRecord>,
}

impl Model for Records {
    ghost use Rattle.std.specs.Prelude.{List};
    ghost use Rattle.ufs_layout.specs.declared.records.LogRecord.{LogRecord};

    ghost Value = { List LogRecord };

    ghost view = { λ l. l.records.items };
}

impl Records {
    pub fn new(alloc: Global) -> Self
        ensures { result ≡ [] }
    {
        Records {
            records: Vec::new(alloc),
        }
    }

    /// Takes no memory.
    pub fn from_vec(records: Vec<LogRecord>) -> Self
        ensures { result ≡ records.items }
    {
        Records { records }
    }

    /// Takes no memory.
    pub fn into_vec(self) -> Vec<LogRecord>
        ensures { result.items ≡ self }
    {
        self.records
    }

    /// The others go behind these.
    pub fn append(&mut self, others: Records) -> Result<(), AllocError>
        ensures ok { OnOk result (self.new ≡ self.old ++ others) }
        ensures err { OnErr result (self.new ≡ self.old) }
    {
        let mut others = others.into_vec();
        self.records.append(&mut others)
    }

    pub fn as_slice(&self) -> &[LogRecord]
        ensures { result.now ≡ self.now }
    {
        self.records.as_slice()
    }
}

/// A committed transaction: its commit number and its records in order.
#[derive(Drop)]
pub struct Committed {
    pub number: u64,
    pub records: Records,
}

/// A list of committed transactions.
#[derive(Drop)]
pub struct CommittedList {
    transactions: Vec<Committed>,
}

impl Model for CommittedList {
    ghost use Rattle.std.specs.Prelude.{List};
    ghost use Rattle.ufs_layout.specs.declared.records.Committed.{Committed};

    ghost Value = { List Committed };

    ghost view = { λ l. l.transactions.items };
}

impl CommittedList {
    /// Takes no memory.
    pub fn from_vec(transactions: Vec<Committed>) -> Self
        ensures { result ≡ transactions.items }
    {
        CommittedList { transactions }
    }

    /// Takes no memory.
    pub fn into_vec(self) -> Vec<Committed>
        ensures { result.items ≡ self }
    {
        self.transactions
    }

    pub fn as_slice(&self) -> &[Committed]
        ensures { result.now ≡ self.now }
    {
        self.transactions.as_slice()
    }
}
