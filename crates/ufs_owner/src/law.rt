// What a file's change means for it and for the others, each a law that an empty function's contract states.
ghost use Rattle.std.specs.Prelude.{◌≡◌, ◌≢◌, ℕ, List, true};
ghost use Rattle.ufs_owner.specs.Owners.{Files, standing_at, owner_at, note_at, waiting_at, is_coming, with_standing, with_owner, with_waiting, count_out};
ghost use Rattle.ufs_owner.specs.declared.owner.Owner.{Owner};
ghost use Rattle.ufs_owner.specs.declared.owner.Owner.TheVariants.{Primary};
ghost use Rattle.ufs_owner.specs.declared.owner.Standing.{Standing};

/// A change of one file leaves what is known of the others.
pub fn other_files_stay()
    ensures { (files : Files) (file other : ℕ) (standing : Standing) → other ≢ file → standing_at (with_standing files file standing) other ≡ standing_at files other }
{}

/// A file that gets an owner has it, and those that wait for it still do.
pub fn a_file_has_its_owner()
    ensures owner { (files : Files) (file : ℕ) (owner : Owner) (note : ℕ) → owner_at (with_owner files file owner note) file ≡ owner }
    ensures note { (files : Files) (file : ℕ) (owner : Owner) (note : ℕ) → is_coming owner ≡ true → note_at (with_owner files file owner note) file ≡ note }
    ensures waiting { (files : Files) (file : ℕ) (owner : Owner) (note : ℕ) → waiting_at (with_owner files file owner note) file ≡ waiting_at files file }
{}

/// Those that are to wait for a file do, and its owner stays.
pub fn a_file_has_those_that_wait()
    ensures waiting { (files : Files) (file : ℕ) (clients : List ℕ) → waiting_at (with_waiting files file clients) file ≡ clients }
    ensures owner { (files : Files) (file : ℕ) (clients : List ℕ) → owner_at (with_waiting files file clients) file ≡ owner_at files file }
{}

/// Where no file is counted as out, each is at the primary.
pub fn no_file_is_out()
    ensures { (files : Files) (file : ℕ) → count_out files ≡ 0 → owner_at files file ≡ Primary }
{}
