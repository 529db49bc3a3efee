// What the rows share: a pool, a file that is open, and one request on it.
ghost use Rattle.std.specs.Prelude.{◌≡◌, ◌+◌, ◌≤◌, ◌<◌, Some, length, true};
ghost use Rattle.std.specs.FinSet as set;
ghost use Rattle.ufs_bitmap.specs.Taking.{IsApart, set_of};
ghost use Rattle.ufs_extent.specs.Runs.{blocks_of};
ghost use Rattle.ufs_model.specs.Bounds.{IsBounded, max_transfer};
ghost use Rattle.ufs_model.specs.FileCalls.{is_on_file};

use std::alloc::{AllocGlobal, Global};
use std::process::Abort;
use ufs_base::Memory;
use ufs_bitmap::Pool;
use ufs_extent::Run;
use ufs_file::{Applied, FileHand};
use ufs_model::{Actor, Ask, Bytes, Desc, Entry, Errno, Excuse, Op, Reply};

/// A descriptor of the file with leave to read and write, at its start.
pub fn open_on(file: u32) -> Desc
    ensures { result.file ≡ Some file }
{
    Desc {
        file: Some(file),
        at: 0,
        read: true,
        write: true,
        append: false,
    }
}

/// So many blocks from the first on.
pub fn pool_of(alloc: Global, start: u32, length: u32) -> Result<Pool, Memory>
    requires some { 1 ≤ length }
    requires inside { start + length ≤ 65536 }
{
    let mut pool = Pool::make(alloc)?;
    pool.give(Run { start, length });
    Ok(pool)
}

/// Bytes that are all alike.
pub fn filled<R: Abort + AllocGlobal>(rt: &R, byte: u8, count: usize) -> Bytes
    ensures { length result ≡ count }
{
    Bytes::from_vec(vec![in rt.alloc(); byte; count].expect(rt, "memory"))
}

/// What the request, on a descriptor, is answered: where a block that it needs isn't in memory, that memory ran out.
pub fn applied(file: &mut FileHand, pool: &mut Pool, op: Op, desc: Desc) -> Reply
    requires kind { is_on_file op ≡ true }
    requires bounded { IsBounded op }
    requires named { desc.file ≡ Some file.old.file }
    requires apart { IsApart pool.old (blocks_of file.old.extents) }
    ensures number { file.new.file ≡ file.old.file }
    ensures apart { IsApart pool.new (blocks_of file.new.extents) }
    ensures together { set.union pool.new (set_of file.new.extents) ≡ set.union pool.old (set_of file.old.extents) }
{
    if !file.is_ready(&op, desc) {
        drop(op);
        return Reply::Excused(Excuse::Memory);
    }
    let ask = Ask {
        client: 0,
        seq: 0,
        op,
        desc: Some(desc),
        fd: 0,
        last: false,
    };
    let Applied { entry, .. } = file.apply(ask, Actor::Primary, 0, pool);
    let Entry { op, reply, .. } = entry;
    drop(op);
    reply
}

pub fn is_count(reply: Reply, count: u32) -> bool {
    matches!(reply, Reply::Count(n) if n == count)
}

pub fn is_done(reply: Reply) -> bool {
    matches!(reply, Reply::Done)
}

pub fn is_at(reply: Reply, place: u64) -> bool {
    matches!(reply, Reply::At(at) if at == place)
}

pub fn is_refused(reply: Reply, errno: Errno) -> bool {
    matches!(reply, Reply::Refused(found) if found == errno)
}

pub fn is_excused(reply: Reply, excuse: Excuse) -> bool {
    matches!(reply, Reply::Excused(found) if found == excuse)
}

pub fn gave(reply: Reply, bytes: &[u8]) -> bool {
    matches!(&reply, Reply::Got(got) if got.as_slice() == bytes)
}
