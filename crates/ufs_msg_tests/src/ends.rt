// The ends that actors have of shared rings.
ghost use Rattle.std.specs.Prelude.{◌≡◌};
ghost use Rattle.ufs_msg.specs.There.{IsClientThere, IsServerThere};

use std::alloc::AllocGlobal;
use std::process::Abort;
use std::sync::Wait;
use ufs_joint::Naming;
use ufs_model::Actor;
use ufs_msg::{RuledClientPost, RuledServerPost, SharedRings};

pub(crate) fn server_end<'a, N: Naming, R: Abort + AllocGlobal + Wait>(
    rt: &'a R,
    rings: &'a SharedRings<N, u32>,
    server: Actor,
) -> RuledServerPost<'a, N, u32, R>
    requires { IsServerThere N.start server }
    ensures { result.me ≡ server }
{
    rings
        .server_post(rt, rt.alloc(), server)
        .expect(rt, "memory")
}

pub(crate) fn client_end<'a, N: Naming, R: Abort + AllocGlobal + Wait>(
    rt: &'a R,
    rings: &'a SharedRings<N, u32>,
    client: u8,
) -> RuledClientPost<'a, N, R>
    requires { IsClientThere N.start client }
{
    rings
        .client_post(rt, rt.alloc(), client)
        .expect(rt, "memory")
}
