// What a record does to the sector that it changes.
ghost use Rattle.std.specs.Prelude.{◌≡◌, ◌+◌, ◌*◌, ◌≤◌, ◌++◌, length, take, drop, IsTrue};
ghost use Rattle.ufs_layout.specs.InodeForm.{is_inode};
ghost use Rattle.ufs_layout.specs.DentryForm.{dentry_bytes, is_dentry};
ghost use Rattle.ufs_layout.specs.Records.{is_record};
ghost use Rattle.ufs_image.specs.Images.{with_slot};
ghost use Rattle.ufs_image.specs.Fold.{after_delta};
ghost use Rattle.ufs_overlay.specs.Steps.{form_of, stepped};

use ufs_layout::{Dentry, Extent, Inode, LogRecord, get_inode, put_dentry, put_inode};

const NO_EXTENT: Extent = Extent {
    start: 0,
    length: 0,
};

// A free inode that contains commits up to this number.
fn free_inode(number: u64) -> Inode
    ensures value { result ≡ Rattle.ufs_layout.specs.InodeForm.free_inode number }
    ensures form { IsTrue (is_inode result) }
{
    Inode::from_extents(0, &[], 0, number)
}

/// The inode that a sector is read as: a free one with number 0, where it is off its form.
pub fn read_inode(sector: &[u8]) -> Inode
    requires { length sector.now ≡ 512 }
    ensures value { result ≡ form_of sector.now }
    ensures form { IsTrue (is_inode result) }
{
    match get_inode(sector) {
        Some(inode) => inode,
        None => free_inode(0),
    }
}

fn put_extents(places: &mut [Extent], at: usize, extents: &[Extent])
    requires { at + length extents.now ≤ length places.old }
    ensures { places.new ≡ take at places.old ++ extents.now ++ drop (at + length extents.now) places.old }
{
    places[at..at + extents.len()].copy_from_slice(extents);
}

// The inode after a delta: its first extents stay, and the given ones follow.
fn changed_inode(
    inode: &Inode,
    number: u64,
    kind: u8,
    size: u64,
    keep: u8,
    given: &[Extent],
) -> Inode
    requires { keep + length given.now ≤ 56 }
    ensures { result ≡ after_delta inode.now number kind size keep given.now }
{
    let used = inode.used_extents();
    let count = used.len().min(usize::from(keep));
    let end = count + given.len();
    let mut extents = [NO_EXTENT; 56];
    put_extents(&mut extents, 0, &used[..count]);
    put_extents(&mut extents, count, given);
    Inode::from_extents(kind, &extents[..end], size, number)
}

fn put_slot(sector: &mut [u8], slot: u8, dentry: &Dentry)
    requires sized { length sector.old ≡ 512 }
    requires there { slot ≤ 7 }
    requires form { IsTrue (is_dentry dentry.now) }
    ensures { sector.new ≡ with_slot slot (dentry_bytes dentry.now) sector.old }
{
    let at = 64 * usize::from(slot);
    put_dentry(&mut sector[at..at + 64], dentry);
}

/// Changes the sector as the record of a transaction with this number has it. An inode is changed only
/// where the transaction is newer than what the sector contains.
pub fn step(sector: &mut [u8], is_newer: bool, number: u64, change: &LogRecord)
    requires sized { length sector.old ≡ 512 }
    requires form { IsTrue (is_record change.now) }
    ensures { sector.new ≡ stepped is_newer number change.now sector.old }
{
    match change {
        LogRecord::Place { slot, dentry, .. } => put_slot(sector, *slot, dentry),
        LogRecord::Delta {
            kind,
            size,
            keep,
            extents,
            ..
        } => {
            if is_newer {
                let inode = read_inode(sector);
                let extents = extents.as_slice();
                put_inode(
                    sector,
                    &changed_inode(&inode, number, *kind, *size, *keep, extents),
                );
            }
        }
        LogRecord::Free { .. } => {
            if is_newer {
                put_inode(sector, &free_inode(number));
            }
        }
    }
}
