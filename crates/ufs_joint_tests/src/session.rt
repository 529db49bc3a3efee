// One client asks for a `sync`, which is excused for want of memory, and a turn of the store begins. The tree is the root alone, and
// nothing is said of what the disk holds.
ghost use Rattle.std.specs.Prelude.{ℕ, ◌≡◌, ◌+◌, IfSome, [], length};
ghost use Rattle.ufs_dir_tree.specs.DirTable.{dir_at, no_dir};
ghost use Rattle.ufs_model.specs.PosixTree.{root_alone};
ghost use Rattle.ufs_names.specs.NamesPart.{IsNamesPart};
ghost use Rattle.ufs_layout.specs.Areas.{IsGeometry};
ghost use Rattle.ufs_store.specs.State.{geometry_of_store};
ghost use Rattle.ufs_joint.specs.Disks.{cell_of};
ghost use Rattle.ufs_joint.specs.Turns.{turn_begun};
ghost use Rattle.ufs_joint_tests.specs.Small.{all_free, all_left, answered, asked, back, small, small_start};

use std::alloc::Global;
use std::marker::Brand;
use ufs_bitmap::Bitmap;
use ufs_disk::{Disk, PlainDisk};
use ufs_hand_laws::Fresh;
use ufs_joint::{Begun, Event, Hand, HandTable, Leaving, Naming, Opened, Opening, Parts};
use ufs_layout::{Geometry, Super};
use ufs_model::{Actor, Excuse, Op, PartName, Reply};
use ufs_names::Names;
use ufs_store::{Door, Store};

/// The sectors of its disk.
pub const SECTORS: u32 = 2_048;

const SUPERBLOCK: Super = Super {
    version: 1,
    blocks: 256,
    inodes: 32,
    journal: 64,
    epoch: 1,
    next: 1,
    clean: true,
};

/// The tickets at the end of the session, where there is memory for it.
pub fn served(alloc: Global) -> Option<u64> {
    let Ok(names) = Names::new(alloc, 32) else {
        return None;
    };
    let Ok(disk) = PlainDisk::zeros(alloc, SECTORS) else {
        return None;
    };
    let store = mounted(alloc, disk)?;
    served_on(alloc, &names, &store)
}

// The same over this store.
fn served_on<D: Door>(alloc: Global, names: &Names, store: &D) -> Option<u64>
    requires part { IsNamesPart names.now root_alone }
    requires counted { length names.now.tree.dirs.dirs ≡ 32 + 1 }
    requires bare { (i : ℕ) → dir_at names.now.tree.dirs i ≡ no_dir }
    requires formed { geometry_of_store (D.store store.now) ≡ small }
    requires free { (D.store store.now).unassigned ≡ all_free }
{
    let geometry = store.geometry();
    let parts = small_parts::<Brand, D>(names, store);
    let Ok(opened) = Opened::open(alloc, parts) else {
        return None;
    };
    Some(session::<Brand, D>(opened, &geometry, names, store))
}

/// A store on this disk, each of whose blocks is unassigned.
pub fn mounted<D: Disk + Drop>(alloc: Global, disk: D) -> Option<Store<D>>
    ensures geometry { IfSome result (λ s. geometry_of_store (⟦<Store<D> as Door>⟧.store s) ≡ small) }
    ensures unassigned { IfSome result (λ s. (⟦<Store<D> as Door>⟧.store s).unassigned ≡ all_free) }
{
    if disk.sectors() < SECTORS {
        return None;
    }
    let free = Bitmap::all_free(alloc, 14, 256).ok()?;
    Store::mount(alloc, disk, SUPERBLOCK, free).ok()
}

/// What the session starts from, for contracts alone.
pub fn small_parts<P: Opening, D: Door>(names: &Names, store: &D) -> Parts
    requires { P.opened ≡ small_start names.now (D.store store.now) }
    ensures { result.start ≡ small_start names.now (D.store store.now) }
{
    let _ = names;
    let _ = store;
    Parts::picked::<P>()
}

fn session<N: Naming, D: Door>(opened: Opened, geometry: &Geometry, names: &Names, store: &D) -> u64
    requires name { (opened.table ≡ N.table) × (opened.start ≡ N.start) }
    requires start { N.start ≡ small_start names.now (D.store store.now) }
    requires part { IsNamesPart names.now root_alone }
    requires formed { IsGeometry geometry.now }
    requires its { geometry.now ≡ N.start.geometry }
{
    let Begun { table, mut hand } = opened.named::<N>();
    ask::<N, D, Brand>(&table, &mut hand, geometry, names, store);
    let client = hand.split(&table, PartName::Client(0));
    hand.join(&table, client);
    excuse::<N, D, Brand>(&table, &mut hand, names, store);
    begin::<N, D, Brand>(&table, &mut hand, geometry, names, store);
    hand.look(&table);
    hand.close(table, geometry)
}

// The client asks.
fn ask<N: Naming, D: Door, E: Event>(
    table: &HandTable<N>,
    hand: &mut Hand<N>,
    geometry: &Geometry,
    names: &Names,
    store: &D,
) -> u64
    requires start { N.start ≡ small_start names.now (D.store store.now) }
    requires formed { IsGeometry geometry.now }
    requires its { geometry.now ≡ N.start.geometry }
    requires view { hand.old ≡ N.start.view }
    requires event { E.leaves ≡ asked names.now (D.store store.now) }
    ensures { hand.new ≡ asked names.now (D.store store.now) result }
{
    let _ = names;
    let _ = store;
    hand.mark::<E>(table, geometry)
}

// Its request is excused.
fn excuse<N: Naming, D: Door, L: Leaving>(
    table: &HandTable<N>,
    hand: &mut Hand<N>,
    names: &Names,
    store: &D,
) -> u64
    requires start { N.start ≡ small_start names.now (D.store store.now) }
    requires view { (tickets : ℕ) × (hand.old ≡ back names.now (D.store store.now) tickets) }
    requires leaves { L.leaves ≡ (λ n. all_left names.now) }
    ensures { (tickets : ℕ) → hand.old ≡ back names.now (D.store store.now) tickets → hand.new ≡ answered names.now (D.store store.now) tickets result }
{
    let _ = names;
    let _ = store;
    let fresh = Fresh {
        client: 0,
        seq: 0,
        by: Actor::Primary,
        op: Op::Sync,
        reply: Reply::Excused(Excuse::Memory),
    };
    hand.draw::<L>(table, &fresh)
}

// A turn of the store begins.
fn begin<N: Naming, D: Door, E: Event>(
    table: &HandTable<N>,
    hand: &mut Hand<N>,
    geometry: &Geometry,
    names: &Names,
    store: &D,
) -> u64
    requires start { N.start ≡ small_start names.now (D.store store.now) }
    requires formed { IsGeometry geometry.now }
    requires its { geometry.now ≡ N.start.geometry }
    requires view { (tickets : ℕ) × (ticket : ℕ) × (hand.old ≡ answered names.now (D.store store.now) tickets ticket) }
    requires event { E.leaves ≡ (λ n. turn_begun n (cell_of 0 [] (D.store store.now)) hand.old) }
    ensures { hand.new ≡ turn_begun result (cell_of 0 [] (D.store store.now)) hand.old }
{
    let _ = names;
    let _ = store;
    hand.mark::<E>(table, geometry)
}

#[cfg(test)]
mod tests {
    use super::served;
    use std::rt::HostRuntime;

    #[test]
    fn one_entry_is_drawn(rt: HostRuntime) {
        assert_eq!(rt; served(rt.alloc()), Some(1));
    }
}
