use crate::Via;
use ufs_model::Entry;

/// An answer, and the servers to which the request went before the one that answered it.
#[derive(Drop)]
pub struct Told {
    pub entry: Entry,
    pub via: Via,
}
