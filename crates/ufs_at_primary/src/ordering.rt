// An order to move a file.
ghost use Rattle.std.specs.Prelude.{◌≡◌, ◌≢◌, ◌≤◌, ◌⊎◌, [], IfErr, IsSome, OnErr, OnOk, false, is_some, true};
ghost use Rattle.std.specs.FinMap as fin;
ghost use Rattle.std.specs.FinSet as set;
ghost use Rattle.ufs_bitmap.specs.Blocks.{BlockSet};
ghost use Rattle.ufs_joint.specs.FirstHand.{HasPoolAlone, pool_of};
ghost use Rattle.ufs_held_names.specs.HeldNames.{AreCommitted};
ghost use Rattle.ufs_home.specs.Home.{is_waited};
ghost use Rattle.ufs_home.specs.Moves.{order_of};
ghost use Rattle.ufs_home.specs.Places.{file_here};
ghost use Rattle.ufs_home.specs.declared.moved.Moved.TheVariants as moved;
ghost use Rattle.ufs_layout.specs.Areas.{IsGeometry};
ghost use Rattle.ufs_msg.specs.There.{worker_count};
ghost use Rattle.ufs_owner.specs.Owners.{owner_at, waiting_at};
ghost use Rattle.ufs_owner.specs.declared.owner.Owner.TheVariants as owner;
ghost use Rattle.ufs_at_primary.specs.Orders.{IsFileOrdered, IsReadied, IsUnready, dropped_by, unready_by};
ghost use Rattle.ufs_at_primary.specs.Stock.{stock_of};
ghost use Rattle.ufs_store.specs.Refusals.{fault_in, is_no_space};
ghost use Rattle.ufs_turns.specs.Lent.{AreTold, Runs, StopsByFault};

use crate::ordered::Ordered;
use ufs_base::Lack;
use ufs_held_names::HeldNames;
use ufs_home::{Home, Moved};
use ufs_joint::{Hand, HandTable, Naming};
use ufs_layout::Geometry;
use ufs_owner::Owner;
use ufs_store::StoreFault;
use ufs_turns::Turns;

// Whether the order would send the file from here.
fn is_to_go<N: Naming>(home: &Home<N>, file: u32, to: u8) -> bool
    ensures here { result ≡ true → owner_at home.now.owners file ≡ owner.Primary }
    ensures yes { result ≡ true → order_of (owner_at home.now.owners file) (is_waited home.now.owners file) to ≡ moved.Sent }
    ensures no { result ≡ false → owner_at home.now.owners file ≡ owner.Primary → to ≢ 0 → waiting_at home.now.owners file ≢ [] }
    ensures called { to ≡ 0 → result ≡ false }
{
    if to == 0 {
        return false;
    }
    match home.owner_of(file) {
        Owner::Primary => !home.is_waited(file),
        _ => false,
    }
}

// The birth of the file, if it is live, is known as committed: the names are committed where it isn't.
fn commit_birth<N: Naming, T: Turns<N>>(
    table: &HandTable<N>,
    names: &mut HeldNames<N>,
    file: u32,
    right: &mut Hand<N>,
    door: &mut T,
) -> Result<(), StoreFault>
    requires pool { (pool : BlockSet) × HasPoolAlone (pool_of 0) pool right.old }
    ensures pool { (pool : BlockSet) → HasPoolAlone (pool_of 0) pool right.old → HasPoolAlone (pool_of 0) pool right.new }
    ensures names { OnOk result ((names.new ≡ names.old) ⊎ AreCommitted N.start.is_visible names.old names.new) }
    ensures known { OnOk result (IsSome (fin.get names.new.value.held file) → set.contains names.new.named file ≡ true) }
    ensures err { OnErr result (names.new ≡ names.old) }
    ensures refused { IfErr result (λ fault. is_no_space fault ≡ false) }
    ensures free { AreTold (T.tells door.old) (T.tells door.new) (λ had has. has ≡ had) }
    ensures telling { is_some (T.tells door.new) ≡ is_some (T.tells door.old) }
    ensures halts { StopsByFault (T.tells door.old) (T.tells door.new) (fault_in result) }
    ensures ran { Runs (T.tells door.old) (T.tells door.new) (fault_in result) 1 1 }
{
    if names.knows_birth(file) {
        return Ok(());
    }
    names.commit(table, right, door)
}

// The file, which is here, knows its birth as committed.
fn make_ready<N: Naming, T: Turns<N>>(
    table: &HandTable<N>,
    names: &mut HeldNames<N>,
    geometry: &Geometry,
    home: &mut Home<N>,
    file: u32,
    right: &mut Hand<N>,
    door: &mut T,
) -> Result<(), Ordered>
    requires formed { IsGeometry geometry.now }
    requires its { geometry.now ≡ N.start.geometry }
    requires pool { (pool : BlockSet) × HasPoolAlone (pool_of 0) pool right.old }
    requires here { IsSome (file_here home.old.places file) }
    ensures pool { (pool : BlockSet) → HasPoolAlone (pool_of 0) pool right.old → HasPoolAlone (pool_of 0) pool right.new }
    ensures ready { OnOk result ((pool : BlockSet) → IsReadied N.start.is_visible (stock_of names.old home.old pool) (stock_of names.new home.new pool) file) }
    ensures unready { IfErr result IsUnready }
    ensures kept { OnErr result ((names.new ≡ names.old) × (home.new ≡ home.old)) }
    ensures free { AreTold (T.tells door.old) (T.tells door.new) (λ had has. has ≡ had) }
    ensures telling { is_some (T.tells door.new) ≡ is_some (T.tells door.old) }
    ensures halts { StopsByFault (T.tells door.old) (T.tells door.new) (unready_by result) }
    ensures ran { Runs (T.tells door.old) (T.tells door.new) (unready_by result) 1 1 }
{
    let mut held = match home.lend(file) {
        Ok(held) => held,
        Err(memory) => return Err(Ordered::Moved(Moved::Lack(Lack::from(memory)))),
    };
    if let Err(fault) = commit_birth(table, names, file, right, door) {
        home.put_back(held);
        return Err(Ordered::Dropped(fault));
    }
    names.tell_born(table, &mut held, geometry);
    home.put_back(held);
    Ok(())
}

/// The file is to go to this worker, or to the primary for 0. One that goes from here knows its birth as committed then; none that is called
/// to the primary has a turn of the store.
pub(crate) fn order_file<N: Naming, T: Turns<N>>(
    table: &HandTable<N>,
    names: &mut HeldNames<N>,
    geometry: &Geometry,
    home: &mut Home<N>,
    file: u32,
    to: u8,
    right: &mut Hand<N>,
    door: &mut T,
) -> Ordered
    requires formed { IsGeometry geometry.now }
    requires its { geometry.now ≡ N.start.geometry }
    requires pool { (pool : BlockSet) × HasPoolAlone (pool_of 0) pool right.old }
    requires there { to ≤ worker_count N.start }
    ensures pool { (pool : BlockSet) → HasPoolAlone (pool_of 0) pool right.old → HasPoolAlone (pool_of 0) pool right.new }
    ensures ordered { (pool : BlockSet) → IsFileOrdered N.start.is_visible (stock_of names.old home.old pool) (stock_of names.new home.new pool) file to result }
    ensures free { AreTold (T.tells door.old) (T.tells door.new) (λ had has. has ≡ had) }
    ensures telling { is_some (T.tells door.new) ≡ is_some (T.tells door.old) }
    ensures halts { StopsByFault (T.tells door.old) (T.tells door.new) (dropped_by result) }
    ensures ran { Runs (T.tells door.old) (T.tells door.new) (dropped_by result) 1 1 }
    ensures called { to ≡ 0 → T.tells door.new ≡ T.tells door.old }
{
    if !is_to_go(home, file, to) {
        return Ordered::Moved(home.order(file, to));
    }
    if !home.has(file) {
        return Ordered::Moved(Moved::Nothing);
    }
    if let Err(ordered) = make_ready(table, names, geometry, home, file, right, door) {
        return ordered;
    }
    Ordered::Moved(home.order(file, to))
}
