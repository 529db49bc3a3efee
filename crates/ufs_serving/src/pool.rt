// A server's pool: its hand goes with a request, and its blocks come by turns of the store.
ghost use Rattle.std.specs.Prelude.{ℕ, ◌≡◌, ◌+◌, ◌<◌, ◌≤◌, IfNone, IfSome, None, OnSome, is_some, max};
ghost use Rattle.std.specs.FinSet as set;
ghost use Rattle.ufs_bitmap.specs.Blocks.{BlockSet};
ghost use Rattle.ufs_held.specs.Asking.{IsGuest};
ghost use Rattle.ufs_held.specs.Stopping.{Rests};
ghost use Rattle.ufs_msg.specs.Requests.{HasClientAlone};
ghost use Rattle.ufs_hand_laws.specs.Parts.{ClientPart};
ghost use Rattle.ufs_turns.specs.Lent.{AreTold};
ghost use Rattle.ufs_joint.specs.FirstHand.{HasPoolAlone, pool_of};
ghost use Rattle.ufs_serving.specs.Pools.{AreConserved, HasAllFree, HasNone, IsAtRest, IsWithin, most_at_rest};

use std::mem;
use ufs_bitmap::Pool;
use ufs_joint::{Hand, HandTable, Naming};
use ufs_model::PartName;
use ufs_store::StoreFault;
use ufs_turns::Turns;

// How many blocks a pool has at rest, at most.
const AT_REST: u32 = 64;

/// The number under which a server has its pool: the primary is 0.
pub fn pool_number(server: u8) -> u32
    ensures { result ≡ pool_of server }
{
    u32::MAX - server as u32
}

/// The client's hand with the pool's, of which nothing stays here meanwhile.
pub fn lend_pool<N: Naming>(table: &HandTable<N>, right: &mut Hand<N>, client: Hand<N>) -> Hand<N>
    requires pool { (n : ℕ) × (pool : BlockSet) × HasPoolAlone n pool right.old }
    requires client { (c : ℕ) × (part : ClientPart) × HasClientAlone c part client }
    ensures guest { (n : ℕ) (pool : BlockSet) (c : ℕ) (part : ClientPart) → HasPoolAlone n pool right.old → HasClientAlone c part client → IsGuest c part n pool result }
    ensures none { HasNone right.new }
    ensures later { client.seen ≤ result.seen }
    ensures kept { client.seen ≤ right.new.seen }
{
    right.join(table, client);
    let none = right.split(table, PartName::Names);
    mem::replace(right, none)
}

/// The client's hand, apart from the pool's, which is here again.
pub fn take_pool<N: Naming>(
    table: &HandTable<N>,
    right: &mut Hand<N>,
    guest: Hand<N>,
    number: u32,
) -> Hand<N>
    requires none { HasNone right.old }
    requires guest { (c : ℕ) × (part : ClientPart) × (pool : BlockSet) × IsGuest c part number pool guest }
    ensures client { (c : ℕ) (part : ClientPart) (pool : BlockSet) → IsGuest c part number pool guest → HasClientAlone c part result }
    ensures pool { (c : ℕ) (part : ClientPart) (pool : BlockSet) → IsGuest c part number pool guest → HasPoolAlone number pool right.new }
    ensures later { guest.seen ≤ result.seen }
    ensures own { right.old.seen ≤ result.seen }
{
    right.join(table, guest);
    let own = right.split(table, PartName::File(number));
    mem::replace(right, own)
}

// A turn that gives the pool so many blocks, and 64 more where there are. Where there are fewer it says how many.
fn ask_pool<N: Naming, T: Turns<N>>(
    right: &mut Hand<N>,
    pool: &mut Pool,
    door: &mut T,
    missing: u32,
) -> Option<u32>
    requires pool { (n : ℕ) × HasPoolAlone n pool.old right.old }
    ensures pool { (n : ℕ) → HasPoolAlone n pool.old right.old → HasPoolAlone n pool.new right.new }
    ensures own { IsWithin pool.old pool.new }
    ensures enough { IfNone result (set.len pool.old + missing ≤ set.len pool.new) }
    ensures spare { set.len pool.new ≤ set.len pool.old + missing + 64 }
    ensures conserved { AreConserved (T.tells door.old) (T.tells door.new) pool.old pool.new }
    ensures less { IfSome result (λ free. free < missing) }
    ensures kept { OnSome result (pool.new ≡ pool.old) }
    ensures all { IfNone result (AreTold (T.tells door.old) (T.tells door.new) (λ had left. set.len had ≤ missing → IsWithin had pool.new)) }
    ensures fewer { IfSome result (λ free. AreTold (T.tells door.old) (T.tells door.new) (λ had left. (set.len had ≡ free) × (free < missing) × (left ≡ had))) }
    ensures telling { is_some (T.tells door.new) ≡ is_some (T.tells door.old) }
    ensures still { Rests (T.tells door.old) (T.tells door.new) None }
{
    match door.give_pool(right, pool, missing) {
        Ok(()) => None,
        Err(StoreFault::NoSpace { had, .. }) => Some(had),
        Err(_) => unreachable!(),
    }
}

/// Gets blocks for a request that wants so many: what is missing, and 64 more. Where fewer are unassigned, all of them come.
pub fn fill<N: Naming, T: Turns<N>>(right: &mut Hand<N>, pool: &mut Pool, door: &mut T, wanted: u32)
    requires pool { (n : ℕ) × HasPoolAlone n pool.old right.old }
    ensures pool { (n : ℕ) → HasPoolAlone n pool.old right.old → HasPoolAlone n pool.new right.new }
    ensures own { IsWithin pool.old pool.new }
    ensures spare { set.len pool.new ≤ max (set.len pool.old) (wanted + 64) }
    ensures conserved { AreConserved (T.tells door.old) (T.tells door.new) pool.old pool.new }
    ensures short { set.len pool.new < wanted → HasAllFree (T.tells door.old) pool.new }
    ensures telling { is_some (T.tells door.new) ≡ is_some (T.tells door.old) }
    ensures still { Rests (T.tells door.old) (T.tells door.new) None }
{
    let had = pool.count();
    if had >= wanted {
        return;
    }
    let Some(free) = ask_pool(right, pool, door, wanted - had) else {
        return;
    };
    ask_pool(right, pool, door, free);
}

/// Gives the pool back where it has more blocks than at rest.
pub fn rest<N: Naming, T: Turns<N>>(right: &mut Hand<N>, pool: &mut Pool, door: &mut T)
    requires pool { (n : ℕ) × HasPoolAlone n pool.old right.old }
    ensures pool { (n : ℕ) → HasPoolAlone n pool.old right.old → HasPoolAlone n pool.new right.new }
    ensures few { set.len pool.new ≤ most_at_rest }
    ensures rests { IsAtRest pool.old pool.new }
    ensures conserved { AreConserved (T.tells door.old) (T.tells door.new) pool.old pool.new }
    ensures telling { is_some (T.tells door.new) ≡ is_some (T.tells door.old) }
    ensures still { Rests (T.tells door.old) (T.tells door.new) None }
{
    if pool.count() > AT_REST {
        door.take_back(right, pool);
    }
}
