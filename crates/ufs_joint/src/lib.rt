//! The sound state of all hands over the values that they have: the laws of its steps, and of single events by what is known as
//! committed; the hands themselves; and how a session on them begins over an image.
#![tactic(auto)]

mod events;
mod first;
mod hand;
mod laws;
mod rule;
mod view;

pub use events::{
    ack_law, beside_law, blocks_law, draw_law, file_fetch_law, file_law, file_moments_law,
    forgetting_law, lent_law, more_law, names_draw_law, pool_law, sync_law,
};
pub use first::first_hand_law;
pub use hand::{Begun, Hand, HandTable, Opened};
pub use laws::{
    a_checkpoint_ends, a_commit_of_names_ends, a_directory_is_acknowledged, a_failed_commit_ends,
    a_file_is_committed, a_file_is_fetched, a_file_request_is_drawn, a_hand_knows, a_hand_looks,
    a_names_excuse_is_drawn, a_names_request_is_drawn, a_session_is_whole, a_sync_is_acknowledged,
    a_turn_is_made, an_acknowledgement_is_drawn, an_entry_is_drawn, an_excuse_is_drawn,
    births_are_told, dropped_blocks_come_back, free_blocks_move, hands_are_split_and_joined,
};
pub use rule::{Drawing, Event, Leaving, Naming, Opening, Parts};
pub use view::Knowledge;
