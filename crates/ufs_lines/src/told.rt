use ufs_model::{Actor, Excuse};

/// Why a request is excused, as a line of a trace tells it. Want of memory stands apart, so that no excuse of that
/// kind is made here.
#[derive(Clone, Copy)]
pub enum Why {
    /// It isn't excused.
    Served,
    /// By want of memory.
    Starved,
    /// By another excuse.
    Excused(Excuse),
}

/// What a line of a trace tells of an entry: whose request it was, who served it, and why it is excused.
#[derive(Clone, Copy)]
pub struct Told {
    pub client: u8,
    pub seq: u32,
    pub by: Actor,
    pub why: Why,
}
