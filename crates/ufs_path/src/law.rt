// What ties components to whole paths, each a law that an empty function's contract states.
ghost use Rattle.std.specs.Prelude.{◌≡◌, ◌≤◌, ℕ, List, All, None, length};
ghost use Rattle.ufs_model.specs.Paths.{components, whole_path, text_refusal, IsWhole};
ghost use Rattle.ufs_path.specs.Names.{IsName};

/// The whole path of some names has these names as its components.
pub fn names_stay_in_whole_paths()
    ensures { (names : List (List ℕ)) → All IsName names → components (whole_path names) ≡ names }
{}

/// The whole path of some names may stand in a tree, whatever its length.
pub fn whole_paths_may_stand()
    ensures { (names : List (List ℕ)) → All IsName names → IsWhole (whole_path names) }
{}

/// The whole path of some names is never refused while it isn't too long.
pub fn short_whole_paths_are_allowed()
    ensures { (names : List (List ℕ)) → All IsName names → length (whole_path names) ≤ 1023 → text_refusal (whole_path names) ≡ None }
{}
