// Room for what comes back at the end of a session.
ghost use Rattle.std.specs.Prelude.{◌≡◌, ◌≤◌, []};
ghost use Rattle.std.specs.Vec.{vec_capacity};
ghost use Rattle.ufs_msg.specs.There.{client_count};

use std::alloc::Global;
use ufs_base::Memory;
use ufs_caller::Told;
use ufs_joint::{Hand, Naming};

/// Room for what comes back at the end of a session: its clients' hands, and what each of them was answered. So no memory is wanting
/// there.
#[derive(Drop)]
pub struct EndRoom<N: Naming> {
    pub(crate) hands: Vec<Hand<N>>,
    pub(crate) told: Vec<Vec<Told>>,
    pub(crate) ghost no_hand: { hands.items ≡ [] },
    pub(crate) ghost none_told: { told.items ≡ [] },
    pub(crate) ghost room: { client_count N.start ≤ vec_capacity hands },
    pub(crate) ghost told_room: { client_count N.start ≤ vec_capacity told },
}

impl<N: Naming> EndRoom<N> {
    pub(crate) fn make(alloc: Global, clients: usize) -> Result<EndRoom<N>, Memory>
        requires { client_count N.start ≤ clients }
    {
        let hands = Vec::with_capacity(alloc, clients)?;
        let told = Vec::with_capacity(alloc, clients)?;
        Ok(EndRoom { hands, told })
    }
}
