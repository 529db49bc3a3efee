//! Loads that workers told, the last one of each file, and the plan over them.
#![tactic(auto)]

mod loads;
mod noted;

pub use loads::Loads;
pub use noted::Noted;
