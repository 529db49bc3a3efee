// Lists in a script. Each is made from a `Vec` and gives it back without taking memory.
ghost use Rattle.std.specs.Prelude.{◌≡◌, ◌≤◌, ◌<◌, ◌++◌, ◌∷◌, [], OnOk, OnErr, length};
ghost use Rattle.std.specs.List.{AllByRecursion};
ghost use Rattle.ufs_model.specs.Bounds.{IsBounded};

use std::alloc::{AllocError, Global};
use std::marker::Model;
use ufs_base::{MAX_CLIENTS, MAX_REQUESTS};
use ufs_model::{Bytes, Op};

/// The requests of a client, in order: at most 65,536, each of which moves at most 1,048,576 bytes.
#[derive(Drop)]
pub struct OpList {
    ops: Vec<Op>,
}

impl Model for OpList {
    ghost use Rattle.ufs_base.specs.declared.limits.TheConstants.{MAX_REQUESTS};
    ghost use Rattle.std.specs.Prelude.{List, length, ◌≤◌};
    ghost use Rattle.std.specs.List.{AllByRecursion};
    ghost use Rattle.ufs_model.specs.declared.data.Op.{Op};
    ghost use Rattle.ufs_model.specs.Bounds.{IsBounded};

    ghost Value = { List Op };

    ghost view = { λ l. l.ops.items };

    ghost invariant = { λ l. AllByRecursion IsBounded l.ops.items × (length l.ops.items ≤ MAX_REQUESTS) };
}

impl OpList {
    /// The greatest length.
    pub const MAX: usize = MAX_REQUESTS;

    /// No request. Takes no memory.
    pub fn new(alloc: Global) -> Self
        ensures { result ≡ [] }
    {
        OpList {
            ops: Vec::new(alloc),
        }
    }

    pub fn from_vec(ops: Vec<Op>) -> Self
        requires bounded { AllByRecursion IsBounded ops.items }
        requires few { length ops.items ≤ MAX_REQUESTS }
        ensures { result ≡ ops.items }
    {
        OpList { ops }
    }

    pub fn into_vec(self) -> Vec<Op>
        ensures value { result.items ≡ self }
        ensures bounded { AllByRecursion IsBounded self }
        ensures few { length self ≤ MAX_REQUESTS }
    {
        self.ops
    }

    pub fn as_slice(&self) -> &[Op]
        ensures value { result.now ≡ self.now }
        ensures bounded { AllByRecursion IsBounded self.now }
        ensures few { length self.now ≤ MAX_REQUESTS }
    {
        self.ops.as_slice()
    }

    /// Adds a request behind the others.
    pub fn push(&mut self, op: Op) -> Result<(), AllocError>
        requires few { length self.old < MAX_REQUESTS }
        requires bounded { IsBounded op }
        ensures ok { OnOk result (self.new ≡ self.old ++ op ∷ []) }
        ensures err { OnErr result (self.new ≡ self.old) }
    {
        self.ops.push(op)?;
        Ok(())
    }
}

/// The clients' requests, by the clients' numbers: at most 16 clients.
#[derive(Drop)]
pub struct OpLists {
    lists: Vec<OpList>,
}

impl Model for OpLists {
    ghost use Rattle.ufs_base.specs.declared.limits.TheConstants.{MAX_CLIENTS};
    ghost use Rattle.std.specs.Prelude.{List, length, ◌≤◌};
    ghost use Rattle.ufs_script.specs.declared.lists.OpList.{OpList};

    ghost Value = { List OpList };

    ghost view = { λ l. l.lists.items };

    ghost invariant = { λ l. length l.lists.items ≤ MAX_CLIENTS };
}

impl OpLists {
    /// The greatest length.
    pub const MAX: usize = MAX_CLIENTS;

    /// No client. Takes no memory.
    pub fn new(alloc: Global) -> Self
        ensures { result ≡ [] }
    {
        OpLists {
            lists: Vec::new(alloc),
        }
    }

    pub fn from_vec(lists: Vec<OpList>) -> Self
        requires { length lists.items ≤ MAX_CLIENTS }
        ensures { result ≡ lists.items }
    {
        OpLists { lists }
    }

    pub fn into_vec(self) -> Vec<OpList>
        ensures value { result.items ≡ self }
        ensures few { length self ≤ MAX_CLIENTS }
    {
        self.lists
    }

    pub fn as_slice(&self) -> &[OpList]
        ensures value { result.now ≡ self.now }
        ensures few { length self.now ≤ MAX_CLIENTS }
    {
        self.lists.as_slice()
    }

    /// Adds a client behind the others.
    pub fn push(&mut self, list: OpList) -> Result<(), AllocError>
        requires { length self.old < MAX_CLIENTS }
        ensures ok { OnOk result (self.new ≡ self.old ++ list ∷ []) }
        ensures err { OnErr result (self.new ≡ self.old) }
    {
        self.lists.push(list)?;
        Ok(())
    }
}

/// What gets the next turn.
#[derive(Drop)]
pub enum ScheduleWord {
    /// One turn of a client.
    Client(u8),
    /// One turn of a worker, counted from 1.
    Worker(u8),
    /// One turn of the primary.
    Primary,
    /// The clock moves so many ticks, at least 1.
    Ticks(u16),
    /// An order that the file at the path goes to a worker, or to the primary, which is 0.
    Move { path: Bytes, to: u8 },
    /// One plan of the load manager.
    Plan,
}

/// Schedule words, in order.
#[derive(Drop)]
pub struct WordList {
    words: Vec<ScheduleWord>,
}

impl Model for WordList {
    ghost use Rattle.std.specs.Prelude.{List};
    ghost use Rattle.ufs_script.specs.declared.lists.ScheduleWord.{ScheduleWord};

    ghost Value = { List ScheduleWord };

    ghost view = { λ l. l.words.items };
}

impl WordList {
    /// The greatest length in a script that is read.
    pub const MAX: usize = 1_000_000;

    /// No word. Takes no memory.
    pub fn new(alloc: Global) -> Self
        ensures { result ≡ [] }
    {
        WordList {
            words: Vec::new(alloc),
        }
    }

    pub fn from_vec(words: Vec<ScheduleWord>) -> Self
        ensures { result ≡ words.items }
    {
        WordList { words }
    }

    pub fn into_vec(self) -> Vec<ScheduleWord>
        ensures { result.items ≡ self }
    {
        self.words
    }

    pub fn as_slice(&self) -> &[ScheduleWord]
        ensures { result.now ≡ self.now }
    {
        self.words.as_slice()
    }

    /// Adds a word behind the others.
    pub fn push(&mut self, word: ScheduleWord) -> Result<(), AllocError>
        ensures ok { OnOk result (self.new ≡ self.old ++ word ∷ []) }
        ensures err { OnErr result (self.new ≡ self.old) }
    {
        self.words.push(word)?;
        Ok(())
    }
}
