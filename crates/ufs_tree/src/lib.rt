//! The tree that one thread would have: a plain program of the file calls.
#![tactic(auto)]

mod answer;
mod change;
mod counts;
mod desc_map;
mod fd_map;
mod legal;
mod node_map;
mod path;
mod path_map;
mod refusal;
mod serving;
mod start;
mod tree;

pub use serving::serve;
pub use tree::Tree;
