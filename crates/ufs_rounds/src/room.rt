// What a session takes of memory before its hands are dealt: nothing can fail behind that.
ghost use Rattle.std.specs.Prelude.{◌≡◌, ◌<◌, ◌≤◌, [], IfOk, None, Some, length};
ghost use Rattle.std.specs.FinMap as fin;
ghost use Rattle.std.specs.Vec.{vec_capacity};
ghost use Rattle.ufs_hand_laws.specs.Owned.{Has};
ghost use Rattle.ufs_joint.specs.Whole.{no_blocks};
ghost use Rattle.ufs_msg.specs.There.{client_count, worker_count};
ghost use Rattle.ufs_primary.specs.OfNoted.{KnownFile};
ghost use Rattle.ufs_rounds.specs.Dealing.{AreBare, HoldNothing};

use crate::end_room::EndRoom;
use std::alloc::Global;
use std::collections::VecDeque;
use ufs_base::Memory;
use ufs_bitmap::Pool;
use ufs_caller::{Client, ClientRoom};
use ufs_joint::Naming;
use ufs_msg::{Letter, PlainPost};
use ufs_primary::{HeldFile, Home, KnownFile, Parcel, Room as Kept};
use ufs_script::OpLists;
use ufs_worker::Worker;

/// The rings, room for what the primary keeps, a place for each file, pools without a block, what each client takes of memory, and room for who takes part.
pub(crate) struct Room<N: Naming> {
    pub post: PlainPost<N, Letter<Parcel<N>>>,
    pub kept: Kept<N>,
    pub home: Home<N>,
    pub held: Vec<HeldFile<N>>,
    pub pool: Pool,
    /// The workers' pools.
    pub pools: Vec<Pool>,
    pub workers: Vec<Worker<N>>,
    /// What each client takes, with what it is to ask.
    pub rooms: Vec<ClientRoom>,
    pub clients: Vec<Client<N>>,
    pub end: EndRoom<N>,
}

// An empty place for each file.
fn make_places<N: Naming>(
    alloc: Global,
    workers: u8,
    files: &[KnownFile],
) -> Result<Home<N>, Memory>
    requires { workers ≡ worker_count N.start }
    ensures places { IfOk result (λ h. (k : KnownFile) → Has k files.now → fin.get h.places k.hand.file ≡ Some None) }
    ensures owners { IfOk result (λ h. h.owners ≡ fin.empty) }
{
    let mut home = Home::make(alloc, workers)?;
    for known in files {
        home.make_place(known.hand.file())?;
    }
    Ok(home)
}

// Pools without a block.
fn make_pools(alloc: Global, workers: u8) -> Result<Vec<Pool>, Memory>
    ensures bare { IfOk result (λ ps. AreBare ps.items) }
    ensures all { IfOk result (λ ps. length ps.items ≡ workers) }
{
    let mut pools = Vec::with_capacity(alloc, usize::from(workers))?;
    for _place in 0..workers {
        let pool = Pool::make(alloc)?;
        pools.push_reserved(pool);
    }
    Ok(pools)
}

// What each client takes of memory.
fn client_rooms(alloc: Global, scripts: OpLists) -> Result<Vec<ClientRoom>, Memory>
    ensures { IfOk result (λ rs. rs.items ≡ scripts) }
{
    let scripts = scripts.into_vec();
    let mut rooms = Vec::with_capacity(alloc, scripts.len())?;
    for script in scripts {
        let left = VecDeque::from_vec(script.into_vec());
        let room = ClientRoom::make(alloc, left)?;
        rooms.push_reserved(room);
    }
    Ok(rooms)
}

impl<N: Naming> Room<N> {
    pub(crate) fn make(
        alloc: Global,
        files: &[KnownFile],
        scripts: OpLists,
        workers: u8,
    ) -> Result<Room<N>, Memory>
        requires some { 0 < length scripts }
        requires clients { length scripts ≡ client_count N.start }
        requires workers { workers ≡ worker_count N.start }
        ensures rings { IfOk result (λ r. HoldNothing workers (length scripts) r.post.requests r.post.clients.items r.post.letters) }
        ensures places { IfOk result (λ r. (k : KnownFile) → Has k files.now → fin.get r.home.places k.hand.file ≡ Some None) }
        ensures owners { IfOk result (λ r. r.home.owners ≡ fin.empty) }
        ensures no_file { IfOk result (λ r. r.held.items ≡ []) }
        ensures files { IfOk result (λ r. length files.now ≤ vec_capacity r.held) }
        ensures pool { IfOk result (λ r. r.pool ≡ no_blocks) }
        ensures bare { IfOk result (λ r. AreBare r.pools.items) }
        ensures pools { IfOk result (λ r. length r.pools.items ≡ workers) }
        ensures no_worker { IfOk result (λ r. r.workers.items ≡ []) }
        ensures workers { IfOk result (λ r. workers ≤ vec_capacity r.workers) }
        ensures rooms { IfOk result (λ r. r.rooms.items ≡ scripts) }
        ensures few { length scripts ≤ 16 }
        ensures no_client { IfOk result (λ r. r.clients.items ≡ []) }
        ensures clients { IfOk result (λ r. length scripts ≤ vec_capacity r.clients) }
    {
        let count = scripts.as_slice().len();
        let post = PlainPost::make(alloc, count as u8, workers)?;
        let kept = Kept::make(alloc, count as u8)?;
        let home = make_places(alloc, workers, files)?;
        let held = Vec::with_capacity(alloc, files.len())?;
        let pool = Pool::make(alloc)?;
        let pools = make_pools(alloc, workers)?;
        let staff = Vec::with_capacity(alloc, usize::from(workers))?;
        let rooms = client_rooms(alloc, scripts)?;
        let clients = Vec::with_capacity(alloc, count)?;
        let end = EndRoom::make(alloc, count)?;
        Ok(Room {
            post,
            kept,
            home,
            held,
            pool,
            pools,
            workers: staff,
            rooms,
            clients,
            end,
        })
    }
}
