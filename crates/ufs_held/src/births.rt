// A file is told its birth, by a hand that lends the names to the file's.
ghost use Rattle.std.specs.Prelude.{ℕ, ◌≡◌, ◌≤◌, ◌∷◌, ◌||◌, [], true, IsSome};
ghost use Rattle.std.specs.FinMap as fin;
ghost use Rattle.std.specs.FinSet as set;
ghost use Rattle.ufs_file_commits.specs.State.{state_of};
ghost use Rattle.ufs_layout.specs.Areas.{IsGeometry};
ghost use Rattle.ufs_joint.specs.Cells.{NamesCell};
ghost use Rattle.ufs_joint.specs.Known.{Knows};
ghost use Rattle.ufs_held.specs.Births.{HasStill, told_view};
ghost use Rattle.ufs_held.specs.Held.{IsHeld, first_cell};

use std::marker::Brand;
use ufs_file::FileHand;
use ufs_file_commits::FileCommits;
use ufs_joint::{Event, Hand, HandTable, Naming};
use ufs_layout::Geometry;
use ufs_model::PartName;

// The file's hand has the names meanwhile.
pub(crate) fn tell_lent<N: Naming>(
    table: &HandTable<N>,
    right: &mut Hand<N>,
    file: &FileHand,
    commits: &FileCommits,
    names: &mut Hand<N>,
    geometry: &Geometry,
)
    requires held { IsHeld (state_of file.now commits.now) right.old }
    requires calm { right.old.faults ≡ [] }
    requires formed { IsGeometry geometry.now }
    requires its { geometry.now ≡ N.start.geometry }
    requires names { (cell : NamesCell) × (names.old.names ≡ (tt, cell) ∷ []) }
    ensures held { IsHeld (state_of file.now commits.now) right.new }
    ensures calm { right.new.faults ≡ [] }
    ensures told { (cell : NamesCell) → names.old.names ≡ (tt, cell) ∷ [] → first_cell (state_of file.now commits.now) right.new.files
        ≡ record (first_cell (state_of file.now commits.now) right.old.files) { born = (first_cell (state_of file.now commits.now) right.old.files).born || set.contains cell.named file.now.file } }
    ensures live { (cell : NamesCell) → names.old.names ≡ (tt, cell) ∷ [] → IsSome (fin.get cell.value.held file.now.file) }
    ensures still { HasStill names.old names.new }
{
    // For the prover alone.
    let _ = file;
    let _ = commits;
    let lent = names.split(table, PartName::Names);
    right.join(table, lent);
    tell::<N, Brand>(table, right, geometry);
    let lent = right.split(table, PartName::Names);
    names.join(table, lent);
}

// The hand's files are told what its names know.
fn tell<N: Naming, E: Event>(table: &HandTable<N>, hand: &mut Hand<N>, geometry: &Geometry) -> u64
    requires leaves { E.leaves ≡ (λ n. told_view hand.old) }
    requires formed { IsGeometry geometry.now }
    requires its { geometry.now ≡ N.start.geometry }
    requires names { (cell : NamesCell) × (hand.old.names ≡ (tt, cell) ∷ []) }
    ensures cells { hand.new ≡ told_view hand.old }
    ensures knows { Knows N.start result hand.old }
{
    hand.mark::<E>(table, geometry)
}
