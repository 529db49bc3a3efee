//! Schedule words that give turns to actors.
#![tactic(auto)]

mod actors;

pub use actors::actors_of;
