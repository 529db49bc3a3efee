// What the names' hand knows of their files, by a look at the tickets.
ghost use Rattle.std.specs.Prelude.{ℕ, ◌≡◌, ◌<◌, ◌≤◌, ◌+◌, ◌*◌, [], Some, IsSome};
ghost use Rattle.std.specs.FinMap as fin;
ghost use Rattle.ufs_bitmap.specs.Blocks.{BlockSet};
ghost use Rattle.ufs_hand_laws.specs.Parts.{ClientPart};
ghost use Rattle.ufs_held.specs.Asking.{IsGuest};
ghost use Rattle.ufs_held.specs.Births.{HasStill};
ghost use Rattle.ufs_held_names.specs.Asked.{IsNeeded};
ghost use Rattle.ufs_held_names.specs.Asking.{IsToldBy};
ghost use Rattle.ufs_model.specs.Asks.{file_in};
ghost use Rattle.ufs_held_names.specs.HeldNames.{HoldsNames, first_names};

use ufs_joint::{Hand, HandTable, Naming};
use ufs_model::{Ask, PartName};
use ufs_noted::NotedNames;

// Each live file has a lower number than the next one will have.
pub(crate) fn see_numbers<N: Naming>(table: &HandTable<N>, right: &mut Hand<N>, noted: &NotedNames)
    requires held { HoldsNames noted.now right.old }
    requires calm { right.old.faults ≡ [] }
    ensures held { HoldsNames noted.now right.new }
    ensures calm { right.new.faults ≡ [] }
    ensures same { first_names noted.now right.new.names ≡ first_names noted.now right.old.names }
    ensures below { (file : ℕ) → IsSome (fin.get noted.now.names.held file) → file < noted.now.names.next }
{
    // For the prover alone.
    let _ = noted;
    right.look(table);
}

// What the names and this client's descriptors tell of each other.
pub(crate) fn see_asked<N: Naming>(
    table: &HandTable<N>,
    right: &mut Hand<N>,
    noted: &NotedNames,
    ask: &Ask,
    guest: &mut Hand<N>,
)
    requires held { HoldsNames noted.now right.old }
    requires calm { right.old.faults ≡ [] }
    requires guest { (part : ClientPart) × (n : ℕ) × (pool : BlockSet) × IsGuest ask.now.client part n pool guest.old × IsToldBy part ask.now }
    ensures held { HoldsNames noted.now right.new }
    ensures calm { right.new.faults ≡ [] }
    ensures same { first_names noted.now right.new.names ≡ first_names noted.now right.old.names }
    ensures still { HasStill guest.old guest.new }
    ensures needed { (file : ℕ) → IsNeeded noted.now.names ask.now (Some file) → IsSome (fin.get noted.now.names.held file) }
    ensures opened { (file : ℕ) → file_in ask.now.desc ≡ Some file → IsSome (fin.get noted.now.names.held file) }
    ensures below { (file : ℕ) → IsSome (fin.get noted.now.names.held file) → file < noted.now.names.next }
    ensures few { noted.now.names.next ≤ N.start.tree.next + 16 * 65536 }
{
    // For the prover alone.
    let _ = noted;
    let _ = ask;
    let own = right.split(table, PartName::Names);
    guest.join(table, own);
    guest.look(table);
    let own = guest.split(table, PartName::Names);
    right.join(table, own);
}
