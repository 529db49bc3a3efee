// Who holds a file.
ghost use Rattle.std.specs.Prelude.{◌≡◌};

/// How many clients there may be.
pub const CLIENTS: usize = 16;

/// A file's inode, whether a path names it, and which clients have it open.
#[derive(Clone, Copy, Debug, PartialEq, Eq)]
pub struct Holding {
    pub inode: u32,
    pub linked: bool,
    pub clients: [bool; 16],
}

impl Holding {
    ghost use Rattle.std.specs.Prelude.{◌≡◌, ◌<◌};
    ghost use Rattle.ufs_names.specs.NamesPart.{unheld, with_holder, without_holder, without_name, is_kept};

    /// No path names it, and no client has it open.
    pub fn none() -> Holding
        ensures { result ≡ unheld }
    {
        Holding {
            inode: 0,
            linked: false,
            clients: [false; 16],
        }
    }

    pub fn with(self, client: u8) -> Holding
        requires { client < 16 }
        ensures { result ≡ with_holder self client }
    {
        let mut clients = self.clients;
        clients[usize::from(client)] = true;
        Holding { clients, ..self }
    }

    pub fn without(self, client: u8) -> Holding
        requires { client < 16 }
        ensures { result ≡ without_holder self client }
    {
        let mut clients = self.clients;
        clients[usize::from(client)] = false;
        Holding { clients, ..self }
    }

    /// The path that named it is gone.
    pub fn without_name(self) -> Holding
        ensures { result ≡ without_name self }
    {
        Holding {
            linked: false,
            ..self
        }
    }

    /// Whether a path names it or a client has it open.
    pub fn is_kept(self) -> bool
        ensures { result ≡ is_kept self }
    {
        self.linked || self.clients.iter().any(|open| *open)
    }
}
