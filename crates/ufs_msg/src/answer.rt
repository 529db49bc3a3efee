// An answer on its way.
ghost use Rattle.std.specs.Prelude.{◌≡◌};
ghost use Rattle.ufs_msg.specs.Answers.{IsSent, IsTold};
ghost use Rattle.ufs_msg.specs.There.{IsClientThere};

use crate::Request;
use std::marker::Model;
use ufs_joint::{Hand, Naming};
use ufs_model::{Actor, Desc, Entry, Lease};

/// A request that was served, with the hand of its client: the entry, what its descriptor stands for afterwards, who owns the
/// file, and a lease that was granted.
#[derive(Drop)]
pub struct Served<N: Naming> {
    hand: Hand<N>,
    entry: Entry,
    desc: Option<Desc>,
    owner: Option<Actor>,
    lease: Option<Lease>,
}

impl<N: Naming> Model for Served<N> {
    ghost use Rattle.ufs_msg.specs.Answers.{IsTold, Told, told_code};

    ghost Value = { Told };

    ghost coded = { told_code };

    ghost view = { λ s. record { hand = s.hand; entry = s.entry; desc = s.desc; owner = s.owner; lease = s.lease } };

    ghost invariant = { λ s. IsTold N.start s.entry s.desc s.owner s.lease s.hand };
}

impl<N: Naming> Served<N> {
    pub fn new(
        hand: Hand<N>,
        entry: Entry,
        desc: Option<Desc>,
        owner: Option<Actor>,
        lease: Option<Lease>,
    ) -> Served<N>
        requires { IsTold N.start entry desc owner lease hand }
        ensures { result ≡ record { hand = hand; entry = entry; desc = desc; owner = owner; lease = lease } }
    {
        Served {
            hand,
            entry,
            desc,
            owner,
            lease,
        }
    }

    pub fn into_parts(self) -> (Hand<N>, Entry, Option<Desc>, Option<Actor>, Option<Lease>)
        ensures same { record { hand = result.0; entry = result.1; desc = result.2; owner = result.3; lease = result.4 } ≡ self }
        ensures told { IsTold N.start result.1 result.2 result.3 result.4 result.0 }
    {
        let Served {
            hand,
            entry,
            desc,
            owner,
            lease,
        } = self;
        (hand, entry, desc, owner, lease)
    }

    pub fn client(&self) -> u8
        ensures is { result ≡ self.now.entry.client }
        ensures there { IsClientThere N.start result }
    {
        self.entry.client
    }
}

/// A request as it was sent, and the server to which it is to go.
#[derive(Drop)]
pub struct Redirected<N: Naming> {
    request: Request<N>,
    to: Actor,
}

impl<N: Naming> Model for Redirected<N> {
    ghost use Rattle.ufs_msg.specs.Answers.{IsSent, Sent, sent_code};

    ghost Value = { Sent };

    ghost coded = { sent_code };

    ghost view = { λ r. record { request = r.request; to = r.to } };

    ghost invariant = { λ r. IsSent N.start r.request r.to };
}

impl<N: Naming> Redirected<N> {
    pub fn new(request: Request<N>, to: Actor) -> Redirected<N>
        requires { IsSent N.start request to }
        ensures { result ≡ record { request = request; to = to } }
    {
        Redirected { request, to }
    }

    pub fn into_parts(self) -> (Request<N>, Actor)
        ensures same { record { request = result.0; to = result.1 } ≡ self }
        ensures sent { IsSent N.start result.0 result.1 }
    {
        let Redirected { request, to } = self;
        (request, to)
    }

    pub fn client(&self) -> u8
        ensures is { result ≡ self.now.request.ask.client }
        ensures there { IsClientThere N.start result }
    {
        self.request.client()
    }
}

/// What a server answers a request.
#[derive(Drop)]
pub enum Answer<N: Naming> {
    Served(Served<N>),
    Redirect(Redirected<N>),
}
