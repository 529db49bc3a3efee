// What is proved of every plan.
ghost use Rattle.std.specs.Prelude.{◌<◌, ℕ, List};
ghost use Rattle.ufs_model.specs.declared.data.Load.{Load};
ghost use Rattle.ufs_load.specs.declared.moves.Move.{Move};
ghost use Rattle.ufs_load.specs.Plan.{load_of, after, IsNextMove, IsPlan, Lead};
ghost use Rattle.ufs_load.specs.Laws.{AreOfFiles, squares, IsBound};

/// Each move of a plan lowers the sum of the squares of the workers' loads.
pub fn a_move_lowers_the_squares()
    ensures { (loads : List Load) (workers : ℕ) (m : Move) → AreOfFiles loads → IsNextMove loads workers m → squares (load_of (after loads m)) workers < squares (load_of loads) workers }
{}

/// A bound of the workers' loads is one of those that a plan leaves: the greatest load never rises.
pub fn a_plan_never_raises_the_greatest_load()
    ensures { (loads : List Load) (workers : ℕ) (limit : ℕ) (moves : List Move) (most : ℕ) → AreOfFiles loads → IsBound loads workers most → (p : IsPlan loads workers limit moves) → IsBound p.left workers most }
{}
