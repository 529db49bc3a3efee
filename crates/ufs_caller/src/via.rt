// The servers to which a request went.
ghost use Rattle.std.specs.Prelude.{◌≡◌, []};
ghost use Rattle.ufs_model.specs.declared.data.Actor.TheVariants.{Primary};
ghost use Rattle.ufs_caller.specs.Lists.{IsListed};

use smallvec::SmallVec;
use std::alloc::Global;
use std::marker::Model;
use ufs_model::Actor;

/// A server in a list.
#[derive(Drop)]
pub struct Server {
    actor: Actor,
}

impl Model for Server {
    ghost use Rattle.ufs_caller.specs.Lists.{actor_code};
    ghost use Rattle.ufs_model.specs.declared.data.Actor.{Actor};

    ghost Value = { Actor };

    ghost coded = { actor_code };

    ghost view = { λ s. s.actor };
}

impl Default for Server {
    ghost is_default = { λ s. s ≡ Primary };

    fn default() -> Self {
        Server {
            actor: Actor::Primary,
        }
    }
}

impl Server {
    pub fn actor(&self) -> Actor
        ensures { result ≡ self.now }
    {
        self.actor
    }
}

/// Servers, in the order in which a request went to them. There is room for 8 in the value; only further ones take memory.
#[derive(Drop)]
pub struct Via {
    servers: SmallVec<Server, 8>,
}

impl Model for Via {
    ghost use Rattle.std.specs.Prelude.{List, ◌≤◌};
    ghost use Rattle.ufs_caller.specs.Lists.{actors_code};
    ghost use Rattle.ufs_model.specs.declared.data.Actor.{Actor};

    ghost Value = { List Actor };

    ghost coded = { actors_code };

    ghost view = { λ v. v.servers.items };

    ghost invariant = { λ v. 8 ≤ v.servers.capacity };
}

impl Via {
    /// No server.
    pub fn new(alloc: Global) -> Via
        ensures { result ≡ [] }
    {
        Via {
            servers: SmallVec::new(alloc),
        }
    }

    /// Lists the server behind the others. Where 8 are listed already it may be left out, for want of memory.
    pub fn list(&mut self, server: Actor)
        ensures { IsListed self.old server self.new }
    {
        let _ = self.servers.push(Server { actor: server });
    }

    pub fn as_slice(&self) -> &[Server]
        ensures { result.now ≡ self.now }
    {
        self.servers.as_slice()
    }
}
