//! The benchmark's workload and its schedule, made of a seed, and the summary of how it was answered.
#![tactic(auto)]

mod clients;
mod laws;
mod replies;
mod schedule;

pub use clients::{bench_geometry, workload};
pub use laws::{
    a_schedule_has_two_hundred_thousand_words, a_workload_has_sixteen_thousand_requests,
    the_schedule_takes_the_words_behind_those_of_the_clients,
};
pub use replies::{Kind, summary};
pub use schedule::bench_script;
