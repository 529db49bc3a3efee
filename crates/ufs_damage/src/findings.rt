// What was read of an image's inodes and directories.
ghost use Rattle.std.specs.Prelude.{◌≡◌, ◌<◌, ◌^◌, length, IfOk};
ghost use Rattle.std.specs.List.{enumerate_from};

use std::marker::Model;
use ufs_layout::{Dentry, Inode};

/// A directory and the slots of its blocks, those of its first block first, `None` where a slot is off its
/// form. Contracts see each slot beside its place, which counts 64 a block.
#[derive(Drop)]
pub struct ReadDir {
    inode: u32,
    slots: Vec<Option<Dentry>>,
}

impl Model for ReadDir {
    ghost use Rattle.std.specs.Prelude.{◌<◌, ◌^◌, length};
    ghost use Rattle.std.specs.List.{enumerate_from};
    ghost use Rattle.ufs_image.specs.Nodes.{Dir};

    ghost Value = { Dir };

    ghost view = { λ d. record { inode = d.inode; slots = enumerate_from 0 d.slots.items } };

    ghost invariant = { λ d. length d.slots.items < 2 ^ 32 };
}

impl ReadDir {
    /// Takes no memory.
    pub fn from_slots(inode: u32, slots: Vec<Option<Dentry>>) -> ReadDir
        requires { length slots.items < 2 ^ 32 }
        ensures { result ≡ record { inode = inode; slots = enumerate_from 0 slots.items } }
    {
        ReadDir { inode, slots }
    }

    /// The directory's inode.
    pub fn inode(&self) -> u32
        ensures { result ≡ self.now.inode }
    {
        self.inode
    }

    /// The slots by rising place.
    pub fn slots(&self) -> &[Option<Dentry>]
        ensures { enumerate_from 0 result.now ≡ self.now.slots }
    {
        self.slots.as_slice()
    }

    // The same, which a place can count.
    pub(crate) fn counted_slots(&self) -> &[Option<Dentry>]
        ensures places { enumerate_from 0 result.now ≡ self.now.slots }
        ensures few { length result.now < 2 ^ 32 }
    {
        self.slots.as_slice()
    }
}

/// The form of inode 1, 2, .. in order, `None` where its sector is off its form, and the directories among
/// the sound inodes by rising inode.
#[derive(Drop)]
pub struct Findings {
    forms: Vec<Option<Inode>>,
    dirs: Vec<ReadDir>,
}

impl Model for Findings {
    ghost use Rattle.ufs_damage.specs.Findings.{CatalogRead};

    ghost Value = { CatalogRead };

    ghost view = { λ f. record { forms = f.forms.items; dirs = f.dirs.items } };
}

impl Findings {
    /// Takes no memory.
    pub fn from_parts(forms: Vec<Option<Inode>>, dirs: Vec<ReadDir>) -> Findings
        ensures { result ≡ record { forms = forms.items; dirs = dirs.items } }
    {
        Findings { forms, dirs }
    }

    /// The forms of the inodes, that of inode 1 first.
    pub fn forms(&self) -> &[Option<Inode>]
        ensures { result.now ≡ self.now.forms }
    {
        self.forms.as_slice()
    }

    /// The directories, by rising inode.
    pub fn dirs(&self) -> &[ReadDir]
        ensures { result.now ≡ self.now.dirs }
    {
        self.dirs.as_slice()
    }
}
