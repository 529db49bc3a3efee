// What a session gives back.
ghost use Rattle.std.specs.Prelude.{◌≡◌};

use std::alloc::Global;
use std::marker::Model;
use ufs_base::Memory;
use ufs_model::{EntryList, merge};

/// The clients' transcripts, by their numbers: the entries that answer a client's requests, in its order.
#[derive(Drop)]
pub struct ToldLists {
    lists: Vec<EntryList>,
}

impl Model for ToldLists {
    ghost use Rattle.std.specs.Prelude.{List};
    ghost use Rattle.ufs_model.specs.declared.data.Entry.{Entry};

    ghost Value = { List (List Entry) };

    ghost view = { λ t. t.lists.items };
}

impl ToldLists {
    ghost use Rattle.std.specs.Prelude.{◌≡◌, IfOk};
    ghost use Rattle.std.specs.List.Sorted.{IsPermutation};
    ghost use Rattle.ufs_model.specs.History.{DoTicketsRise, AreTicketsOnce, joined};

    /// Takes no memory.
    pub fn from_vec(lists: Vec<EntryList>) -> Self
        ensures { result ≡ lists.items }
    {
        ToldLists { lists }
    }

    pub fn as_slice(&self) -> &[EntryList]
        ensures { result.now ≡ self.now }
    {
        self.lists.as_slice()
    }

    /// The one history: all entries, by rising ticket.
    pub fn merged(&self, alloc: Global) -> Result<EntryList, Memory>
        requires once { AreTicketsOnce (joined self.now) }
        ensures all { IfOk result (λ history. IsPermutation (joined self.now) history) }
        ensures rising { IfOk result (λ history. DoTicketsRise history) }
    {
        merge(alloc, &self.lists)
    }
}

/// Why a session ended before each request was answered. A request that is excused doesn't end it.
#[derive(Clone, Copy, Debug, PartialEq, Eq)]
pub enum EndFault {
    /// No memory was left for a server, or to keep an entry or a transcript.
    Memory(Memory),
}

impl From<Memory> for EndFault {
    ghost use Rattle.std.specs.Prelude.{◌≡◌};
    ghost use Rattle.ufs_client.specs.declared.played.EndFault.TheVariants as fault;

    ghost from_gives = { λ m e. e ≡ fault.Memory m };

    fn from(memory: Memory) -> Self {
        EndFault::Memory(memory)
    }
}

/// What a session has told, and how it ended.
#[derive(Drop)]
pub struct Session {
    pub told: ToldLists,
    pub ended: Result<(), EndFault>,
}
