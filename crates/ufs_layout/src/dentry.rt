ghost use Rattle.std.specs.Prelude.{◌≡◌, ◌+◌, ◌≤◌, ◌&&◌, ◌||◌, ◌==◌, nat_lt, length, take, drop, IsTrue, IfSome, Some};
ghost use Rattle.ufs_layout.specs.Words.{is_zeros, padded};
ghost use Rattle.ufs_layout.specs.DentryForm.{dentry_bytes, dentry_of, is_dentry};

use crate::bytes::{found, has_only_zeros, put, put_u32, u32_at};
use std::marker::Model;
use ufs_base::MAX_NAME;

/// A name in a directory: the first `length` bytes of `name`, with zeros behind them. A free slot is 0
/// everywhere. Contracts see the name alone.
#[derive(Clone, Copy, Debug, PartialEq, Eq)]
pub struct Dentry {
    pub inode: u32,
    pub kind: u8,
    pub length: u8,
    pub name: [u8; MAX_NAME],
}

impl Model for Dentry {
    ghost use Rattle.std.specs.Prelude.{take};
    ghost use Rattle.ufs_base.specs.declared.sizes.TheConstants.{MAX_NAME};
    ghost use Rattle.ufs_layout.specs.DentryForm.{DentryForm};
    ghost use Rattle.ufs_layout.specs.Words.{IsPadded, padded, count_of};
    ghost use Rattle.ufs_layout.specs.Padded.{count_of-take, padded-take};

    ghost Value = { DentryForm };

    ghost view = { λ d. record { inode = d.inode; kind = d.kind; name = take d.length d.name } };

    ghost invariant = { λ d. IsPadded 0 MAX_NAME d.length d.name };

    ghost inverse = { λ f. record { inode = f.inode; kind = f.kind; length = count_of f.name; name = padded 0 MAX_NAME f.name } };

    ghost inverse_ok = { λ a h i. record { inode = a.inode; kind = a.kind; length = count_of-take 0 MAX_NAME a.length a.name h i; name = padded-take 0 MAX_NAME a.length a.name h i } };
}

impl Dentry {
    /// Takes a name of at most `MAX_NAME` bytes.
    pub fn from_name(inode: u32, kind: u8, name: &[u8]) -> Dentry
        requires { length name.now ≤ MAX_NAME }
        ensures { result ≡ record { inode = inode; kind = kind; name = name.now } }
    {
        let mut field = [0; MAX_NAME];
        put(&mut field, 0, name);
        Dentry {
            inode,
            kind,
            length: name.len() as u8,
            name: field,
        }
    }

    pub fn name_bytes(&self) -> &[u8]
        ensures { result.now ≡ self.now.name }
    {
        &self.name[..usize::from(self.length)]
    }
}

/// Writes the one spelling of a dentry.
pub fn put_dentry(slot: &mut [u8], value: &Dentry)
    requires sized { length slot.old ≡ 64 }
    requires form { IsTrue (is_dentry value.now) }
    ensures spelling { slot.new ≡ dentry_bytes value.now }
    ensures read_back { dentry_of slot.new ≡ Some value.now }
{
    put_u32(slot, 0, value.inode);
    put(slot, 4, &[value.kind, value.length]);
    put(slot, 6, &value.name);
}

// The first `count` bytes of the field, with zeros behind them.
fn read_name(field: &[u8], count: usize) -> [u8; MAX_NAME]
    requires few { count ≤ MAX_NAME }
    requires room { length field.now ≡ MAX_NAME }
    ensures { result ≡ padded 0 MAX_NAME (take count field.now) }
{
    let mut name = [0; MAX_NAME];
    put(&mut name, 0, &field[..count]);
    name
}

// A slot with no name has 0 everywhere.
fn is_form(inode: u32, kind: u8, count: u8) -> bool
    ensures { result ≡ (nat_lt 0 count || inode == 0 && kind == 0) }
{
    count > 0 || inode == 0 && kind == 0
}

/// The dentry whose one spelling the slot is; `None` where it is none's.
pub fn get_dentry(slot: &[u8]) -> Option<Dentry>
    requires { length slot.now ≡ 64 }
    ensures value { result ≡ dentry_of slot.now }
    ensures spelling { IfSome result (λ v. slot.now ≡ dentry_bytes v) }
    ensures form { IfSome result (λ v. IsTrue (is_dentry v)) }
{
    let count = slot[5];
    let used = usize::from(count);
    if used > MAX_NAME {
        return None;
    }
    let end = 6 + used;
    let inode = u32_at(slot, 0);
    let kind = slot[4];
    let value = Dentry {
        inode,
        kind,
        length: count,
        name: read_name(&slot[6..], used),
    };
    found(
        is_form(inode, kind, count),
        has_only_zeros(&slot[end..]),
        value,
    )
}
