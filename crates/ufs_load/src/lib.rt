//! The load manager's plan: which files to move from loaded workers to others.
#![tactic(auto)]

mod choice;
mod laws;
mod moves;
mod planning;
mod totals;

pub use laws::{a_move_lowers_the_squares, a_plan_never_raises_the_greatest_load};
pub use moves::{Move, MoveList};
pub use planning::plan;
