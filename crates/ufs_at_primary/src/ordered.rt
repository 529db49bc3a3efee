use ufs_home::Moved;
use ufs_store::StoreFault;

/// What an order to move a file comes to.
#[derive(Clone, Copy, PartialEq, Eq, Debug, Drop)]
pub enum Ordered {
    Moved(Moved),
    /// The commit of the file's birth was refused: nothing is done.
    Dropped(StoreFault),
}
