//! Which blocks are free: of the whole data area, and of one server's pool.
#![tactic(auto)]

mod free_space;
mod own_pool;
mod taking;
mod word_set;

pub use free_space::Bitmap;
pub use own_pool::Pool;
pub use taking::{a_pool_gives_in_one_way, give_runs, owners_stay_apart, take_runs};
