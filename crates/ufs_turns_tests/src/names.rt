// A session over the root alone whose names are committed twice, by the hand that has them.
ghost use Rattle.std.specs.Prelude.{ℕ, ◌≡◌, ◌<◌, ◌+◌, [], length};
ghost use Rattle.ufs_dir_tree.specs.DirTable.{dir_at, no_dir};
ghost use Rattle.ufs_layout.specs.Areas.{IsGeometry};
ghost use Rattle.ufs_model.specs.PosixTree.{root_alone};
ghost use Rattle.ufs_names.specs.NamesPart.{IsNamesPart};
ghost use Rattle.ufs_store.specs.State.{geometry_of_store};
ghost use Rattle.ufs_joint.specs.Cells.{NamesCell};
ghost use Rattle.ufs_joint_tests.specs.Small.{all_free, small, small_start};
ghost use Rattle.ufs_turns.specs.NamesLent.{LendsNames};

use std::alloc::Global;
use std::marker::Brand;
use std::sync::ledger::{Blank, Ledger, Share};
use ufs_disk::Disk;
use ufs_joint::{Begun, Hand, HandTable, Naming, Opened};
use ufs_joint_tests::{mounted, small_parts};
use ufs_layout::Geometry;
use ufs_model::PartName;
use ufs_names::{Names, notes_are_beside};
use ufs_store::{Door, StoreFault};
use ufs_turns::{Direct, HeldStore, Turns};

/// The entries of the session, and how the commits went.
#[derive(Debug, PartialEq, Drop)]
pub struct Commits {
    pub tickets: u64,
    pub first: Result<(), StoreFault>,
    pub second: Result<(), StoreFault>,
}

/// The commits of a session over this disk, where nothing was noted.
pub fn commit_names_of<D: Disk + Drop>(alloc: Global, disk: D) -> Option<Commits> {
    let Ok(mut names) = Names::new(alloc, 32) else {
        return None;
    };
    names.begin_notes();
    notes_are_beside();
    let store = mounted(alloc, disk)?;
    commits_on(alloc, &mut names, store)
}

// The same over this store.
fn commits_on<D: Door + Drop>(alloc: Global, names: &mut Names, store: D) -> Option<Commits>
    requires plain { D.stamps → ⊥ }
    requires part { IsNamesPart names.old root_alone }
    requires counted { length names.old.tree.dirs.dirs ≡ 32 + 1 }
    requires bare { (i : ℕ) → dir_at names.old.tree.dirs i ≡ no_dir }
    requires formed { geometry_of_store (D.store store) ≡ small }
    requires free { (D.store store).unassigned ≡ all_free }
{
    let geometry = store.geometry();
    let parts = small_parts::<Brand, D>(names, &store);
    let Ok(opened) = Opened::open(alloc, parts) else {
        return None;
    };
    let blank = Blank::new(1);
    Some(run_commits::<Brand, D, Brand>(alloc, opened, &geometry, names, store, blank))
}

fn run_commits<N: Naming, D: Door + Drop, L: Ledger>(
    alloc: Global,
    opened: Opened,
    geometry: &Geometry,
    names: &mut Names,
    store: D,
    blank: Blank,
) -> Commits
    requires plain { D.stamps → ⊥ }
    requires ledger { blank.name ≡ L.name }
    requires parts { blank.parts ≡ L.parts }
    requires one { blank.parts ≡ 1 }
    requires name { (opened.table ≡ N.table) × (opened.start ≡ N.start) }
    requires start { N.start ≡ small_start names.old (D.store store) }
    requires formed { geometry_of_store (D.store store) ≡ small }
    requires part { IsNamesPart names.old root_alone }
    requires limits { IsGeometry geometry.now }
    requires its { geometry.now ≡ N.start.geometry }
{
    let Begun { table, mut hand } = opened.named::<N>();
    let (book, share) = blank.open::<L>();
    let own = hand.split(&table, PartName::Store);
    let held = HeldStore::new(own, store, book);
    let (first, second, held) = commit_twice(alloc, &table, held, &mut hand, names, share);
    let (own, store) = held.into_parts();
    drop(store);
    hand.join(&table, own);
    let tickets = hand.close(table, geometry);
    Commits {
        tickets,
        first,
        second,
    }
}

// Whichever way a commit goes, the hand has the names, of the same files.
fn commit_twice<N: Naming, D: Door, L: Ledger>(
    alloc: Global,
    table: &HandTable<N>,
    held: HeldStore<N, D, L>,
    hand: &mut Hand<N>,
    names: &mut Names,
    share: Share<L>,
) -> (
    Result<(), StoreFault>,
    Result<(), StoreFault>,
    HeldStore<N, D, L>,
)
    requires part { 0 < share.parts }
    requires lent { (cell : NamesCell) × LendsNames cell hand.old × (cell.value ≡ names.old) × (cell.fresh ≡ []) }
    ensures lent { (cell : NamesCell) × LendsNames cell hand.new × (cell.value.held ≡ names.old.held) }
    ensures clients { hand.new.clients ≡ hand.old.clients }
    ensures pools { hand.new.pools ≡ hand.old.pools }
{
    let mut fresh: Vec<u32> = Vec::new(alloc);
    let mut door = Direct { table, held, share };
    let first = door.commit_names(hand, names, &mut fresh);
    let second = door.commit_names(hand, names, &mut fresh);
    (first, second, door.held)
}
