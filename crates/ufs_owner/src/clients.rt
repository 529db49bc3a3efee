use std::alloc::Global;
use std::marker::Model;
use ufs_base::Memory;

/// Clients in the order in which they came.
#[derive(Drop)]
pub struct ClientList {
    clients: Vec<u8>,
}

impl Model for ClientList {
    ghost use Rattle.std.specs.Prelude.{List, ℕ};

    ghost Value = { List ℕ };

    ghost view = { λ l. l.clients.items };
}

impl ClientList {
    ghost use Rattle.std.specs.Prelude.{◌≡◌, ◌↔◌, ◌++◌, ◌∷◌, [], IsTrue, OnErr, OnOk, filter};
    ghost use Rattle.ufs_owner.specs.Clients.{is_another};

    /// Takes no memory.
    pub fn new(alloc: Global) -> Self
        ensures { result ≡ [] }
    {
        ClientList {
            clients: Vec::new(alloc),
        }
    }

    pub fn is_empty(&self) -> bool
        ensures { IsTrue result ↔ (self.now ≡ []) }
    {
        self.clients.is_empty()
    }

    pub fn push(&mut self, client: u8) -> Result<(), Memory>
        ensures ok { OnOk result (self.new ≡ self.old ++ client ∷ []) }
        ensures err { OnErr result (self.new ≡ self.old) }
    {
        self.clients.push(client)?;
        Ok(())
    }

    pub fn remove(&mut self, client: u8)
        ensures { self.new ≡ filter (is_another client) self.old }
    {
        self.clients.retain(|other| *other != client);
    }
}
