// What the table of owners tells, and how it goes on as letters go.
ghost use Rattle.std.specs.Prelude.{ℕ, ◌≡◌, cond};
ghost use Rattle.ufs_home.specs.Letters.{gone_from};
ghost use Rattle.ufs_home.specs.Owning.{AreKnown};

use ufs_owner::{Owner, OwnerTable};

// The file went: where it was going, it is the worker's; one that was recalled meanwhile is coming, still.
fn depart(owners: &mut OwnerTable, file: u32)
    ensures { owners.new.files ≡ gone_from owners.old.files file }
{
    match owners.owner_of(file) {
        Owner::Going { .. } => owners.left(file),
        Owner::Primary => {}
        Owner::Worker(_) => {}
        Owner::Coming { .. } => {}
    }
}

/// A letter of this file went, and maybe the file with it.
pub(crate) fn leave(owners: &mut OwnerTable, file: u32, goes: bool)
    ensures owners { owners.new.files ≡ cond goes (gone_from owners.old.files file) owners.old.files }
    ensures known { (workers : ℕ) → AreKnown workers owners.old.files → AreKnown workers owners.new.files }
{
    if !goes {
        return;
    }
    depart(owners, file);
}
