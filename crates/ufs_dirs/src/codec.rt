ghost use Rattle.std.specs.Prelude.{◌≡◌, ◌+◌, ◌*◌, ◌≤◌, ◌++◌, length, take, drop, All, IsTrue, flat_map};
ghost use Rattle.ufs_layout.specs.DentryForm.{dentry_bytes, is_dentry};

use ufs_base::SLOT;
use ufs_layout::{Dentry, put_dentry};

/// Writes slots in a row, `SLOT` bytes each.
pub(crate) fn put_slots(buf: &mut [u8], slots: &[Dentry])
    requires sized { length buf.old ≡ SLOT * length slots.now }
    requires forms { All (λ e. IsTrue (is_dentry e)) slots.now }
    ensures { buf.new ≡ flat_map dentry_bytes slots.now }
{
    for (k, entry) in slots.iter().enumerate() {
        put_slot(buf, k, entry);
    }
}

// Writes slot k of the row.
fn put_slot(buf: &mut [u8], k: usize, entry: &Dentry)
    requires room { SLOT * k + SLOT ≤ length buf.old }
    requires form { IsTrue (is_dentry entry.now) }
    ensures size { length (dentry_bytes entry.now) ≡ SLOT }
    ensures spelling { buf.new ≡ take (SLOT * k) buf.old ++ dentry_bytes entry.now ++ drop (SLOT * k + SLOT) buf.old }
{
    put_dentry(&mut buf[SLOT * k..SLOT * k + SLOT], entry);
}
