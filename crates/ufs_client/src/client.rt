// One client: its requests as a server is told them, and its descriptors.
ghost use Rattle.std.specs.Prelude.{◌≡◌, ℕ};
ghost use Rattle.ufs_model.specs.Asks.{IsDescAfter, desc_of_fd, fd_named, fd_asked, fd_opened, fd_told, is_last};
ghost use Rattle.ufs_model.specs.PosixTree.{Fds};
ghost use Rattle.ufs_fds.specs.Descriptors.{AreOf};
ghost use Rattle.ufs_client.specs.Clients.{AreRanged};

use ufs_base::{FIRST_FD, LAST_FD};
use ufs_calls::fd_named;
use ufs_fds::FdTable;
use ufs_model::{Ask, Desc, Entry, Op, Reply};

// The descriptor of a request that was answered: the one that it names, or the one that it opened.
fn fd_told(op: &Op, reply: &Reply) -> Option<u64>
    ensures { result ≡ fd_told op.now reply.now }
{
    match op {
        Op::OpenFile { .. } => match reply {
            Reply::Fd(fd) => Some(u64::from(*fd)),
            _ => None,
        },
        _ => fd_named(op),
    }
}

// What the request's descriptor stands for.
fn desc_named(fds: &FdTable, op: &Op) -> Option<Desc>
    ensures { (all : Fds) (client : ℕ) → AreOf all client fds.now → result ≡ desc_of_fd all client (fd_named op.now) }
{
    match fd_named(op) {
        Some(fd) => fds.get(fd),
        None => None,
    }
}

// The lowest free descriptor for an `open`, and 0 for any other request, and where none is free.
fn fd_asked(fds: &FdTable, op: &Op) -> u32
    ensures { (all : Fds) (client : ℕ) → AreOf all client fds.now → result ≡ fd_asked all client op.now }
{
    match op {
        Op::OpenFile { .. } => fds.lowest().unwrap_or(0),
        _ => 0,
    }
}

// Whether the request is a `close` that ends the client's hold of a file.
fn is_last(fds: &FdTable, op: &Op) -> bool
    ensures { (all : Fds) (client : ℕ) → AreOf all client fds.now → result ≡ is_last all client op.now }
{
    match op {
        Op::Close { fd } => fds.is_last(*fd),
        _ => false,
    }
}

/// The request as a server is told it.
pub fn ask(fds: &FdTable, client: u8, seq: u32, op: Op) -> Ask
    ensures client { result.client ≡ client }
    ensures seq { result.seq ≡ seq }
    ensures asked { result.op ≡ op }
    ensures desc { (all : Fds) (c : ℕ) → AreOf all c fds.now → result.desc ≡ desc_of_fd all c (fd_named op) }
    ensures fd { (all : Fds) (c : ℕ) → AreOf all c fds.now → result.fd ≡ fd_asked all c op }
    ensures last { (all : Fds) (c : ℕ) → AreOf all c fds.now → result.last ≡ is_last all c op }
{
    let desc = desc_named(fds, &op);
    let fd = fd_asked(fds, &op);
    let last = is_last(fds, &op);
    Ask {
        client,
        seq,
        op,
        desc,
        fd,
        last,
    }
}

/// Keeps what the request's descriptor stands for afterwards.
pub fn keep(fds: &mut FdTable, entry: &Entry, desc: Option<Desc>)
    ensures { (old new : Fds) (client : ℕ) → AreOf old client fds.old → IsDescAfter old new client (fd_told entry.now.op entry.now.reply) desc
        → AreRanged old client → AreRanged new client → AreOf new client fds.new }
{
    let Some(fd) = fd_told(&entry.op, &entry.reply) else {
        return;
    };
    if fd < FIRST_FD as u64 || fd > LAST_FD as u64 {
        return;
    }
    match desc {
        Some(desc) => fds.set(fd as u32, desc),
        None => {
            if fds.is_open(fd) {
                fds.close(fd as u32);
            }
        }
    }
}
