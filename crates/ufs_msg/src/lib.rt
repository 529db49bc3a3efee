//! What goes between clients and servers, each with its hand, and the posts that carry it.
#![tactic(auto)]

mod addressed;
mod answer;
mod letter;
mod plain;
mod post;
mod request;
mod rows;
mod ruled;
mod servers;
mod shared;

pub use answer::{Answer, Redirected, Served};
pub use letter::Letter;
pub use plain::PlainPost;
pub use post::{ClientPost, ServerPost};
pub use request::{Hinted, Request};
pub use ruled::{Inbox, RuledClientPost, RuledServerPost};
pub use servers::PerServer;
pub use shared::SharedRings;
