// A request on its way.
ghost use Rattle.std.specs.Prelude.{◌≡◌};
ghost use Rattle.ufs_msg.specs.Requests.{IsAsked, asked_of};
ghost use Rattle.ufs_msg.specs.There.{IsByHint, IsClientThere};

use std::marker::Model;
use ufs_joint::{Hand, Naming};
use ufs_model::Ask;

/// A request, with the hand of the client that asked it and has no answer yet. Whether its client gave leases back for it
/// is told with it.
#[derive(Drop)]
pub struct Request<N: Naming> {
    hand: Hand<N>,
    ask: Ask,
    leases_back: bool,
}

impl<N: Naming> Model for Request<N> {
    ghost use Rattle.ufs_msg.specs.Requests.{Asked, IsAsked, asked_code, asked_of};

    ghost Value = { Asked };

    ghost coded = { asked_code };

    ghost view = { λ r. asked_of r.hand r.ask r.leases_back };

    ghost invariant = { λ r. IsAsked N.start r.ask r.hand };
}

impl<N: Naming> Request<N> {
    pub fn new(hand: Hand<N>, ask: Ask, leases_back: bool) -> Request<N>
        requires { IsAsked N.start ask hand }
        ensures { result ≡ asked_of hand ask leases_back }
    {
        Request {
            hand,
            ask,
            leases_back,
        }
    }

    pub fn into_parts(self) -> (Hand<N>, Ask, bool)
        ensures same { asked_of result.0 result.1 result.2 ≡ self }
        ensures asked { IsAsked N.start result.1 result.0 }
    {
        let Request {
            hand,
            ask,
            leases_back,
        } = self;
        (hand, ask, leases_back)
    }

    pub fn client(&self) -> u8
        ensures is { result ≡ self.now.ask.client }
        ensures there { IsClientThere N.start result }
    {
        self.ask.client
    }
}

/// A request that goes by a hint: what a worker's ring has.
#[derive(Drop)]
pub struct Hinted<N: Naming> {
    request: Request<N>,
}

impl<N: Naming> Model for Hinted<N> {
    ghost use Rattle.ufs_msg.specs.Requests.{Asked, asked_code};
    ghost use Rattle.ufs_msg.specs.There.{IsByHint};

    ghost Value = { Asked };

    ghost coded = { asked_code };

    ghost view = { λ h. h.request };

    ghost invariant = { λ h. IsByHint h.request.ask };
}

impl<N: Naming> Hinted<N> {
    pub fn new(request: Request<N>) -> Hinted<N>
        requires { IsByHint request.ask }
        ensures { result ≡ request }
    {
        Hinted { request }
    }

    pub fn into_request(self) -> Request<N>
        ensures same { result ≡ self }
        ensures hinted { IsByHint result.ask }
    {
        let Hinted { request } = self;
        request
    }
}
