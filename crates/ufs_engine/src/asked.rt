// What clients are to ask, and room for what they are told.
ghost use Rattle.std.specs.Prelude.{◌≡◌, ◌≤◌, [], IfOk, length, take};
ghost use Rattle.std.specs.Vec.{vec_capacity};
ghost use Rattle.ufs_rounds.specs.OfCaller.{entries_in};
ghost use Rattle.ufs_engine.specs.Asked.{AreRoomsFor, DoFit, HasRoomFor, IsAskedOf, given, lists_in};

use std::alloc::Global;
use std::collections::VecDeque;
use ufs_base::Memory;
use ufs_client::ToldLists;
use ufs_model::{Entry, EntryList};
use ufs_rounds::Told;
use ufs_script::{OpList, OpLists};

/// What clients are to ask, and room for what each is told. A session has a client: where a script has none, one is here that asks
/// nothing, and there is no room for its transcript.
#[derive(Drop)]
pub(crate) struct Asked {
    pub clients: OpLists,
    /// No transcript yet.
    pub lists: Vec<EntryList>,
    /// No entry yet, of each.
    pub rooms: VecDeque<Vec<Entry>>,
}

impl Asked {
    /// Takes the memory for all that clients may be told.
    pub(crate) fn make(alloc: Global, clients: OpLists) -> Result<Asked, Memory>
        ensures { IfOk result (λ a. IsAskedOf clients a.clients a.lists a.rooms.items) }
    {
        let rooms = make_rooms(alloc, clients.as_slice())?;
        let lists = Vec::with_capacity(alloc, clients.as_slice().len())?;
        let clients = at_least_one(alloc, clients)?;
        Ok(Asked {
            clients,
            lists,
            rooms: VecDeque::from_vec(rooms),
        })
    }
}

// Room for the entries of each one's transcript.
fn make_rooms(alloc: Global, clients: &[OpList]) -> Result<Vec<Vec<Entry>>, Memory>
    ensures { IfOk result (λ rooms. AreRoomsFor clients.now rooms.items) }
{
    let mut rooms = Vec::with_capacity(alloc, clients.len())?;
    for client in clients {
        let room = Vec::with_capacity(alloc, client.as_slice().len())?;
        rooms.push_reserved(room);
    }
    Ok(rooms)
}

// With a client that asks nothing, where there is none.
fn at_least_one(alloc: Global, clients: OpLists) -> Result<OpLists, Memory>
    ensures { IfOk result (λ all. all ≡ given clients) }
{
    let mut clients = clients;
    if clients.as_slice().is_empty() {
        clients.push(OpList::new(alloc))?;
    }
    Ok(clients)
}

/// The transcripts of what clients were told, as many as there is room for. Takes no memory.
pub(crate) fn tell(
    lists: Vec<EntryList>,
    rooms: VecDeque<Vec<Entry>>,
    told: Vec<Vec<Told>>,
) -> ToldLists
    requires none { lists.items ≡ [] }
    requires room { length rooms.items ≤ vec_capacity lists }
    requires fit { DoFit told.items rooms.items }
    ensures { result ≡ take (length rooms.items) (lists_in told.items) }
{
    let mut lists = lists;
    let mut rooms = rooms;
    for answers in told {
        let Some(room) = rooms.pop_front() else {
            break;
        };
        lists.push_reserved(entries_of(answers, room));
    }
    ToldLists::from_vec(lists)
}

// The entries of what a client was told. Takes no memory.
fn entries_of(told: Vec<Told>, room: Vec<Entry>) -> EntryList
    requires { HasRoomFor (length told.items) room }
    ensures { result ≡ entries_in told.items }
{
    let mut entries = room;
    for one in told {
        let Told { entry, via: _ } = one;
        entries.push_reserved(entry);
    }
    EntryList::from_vec(entries)
}
