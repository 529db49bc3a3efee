ghost use Rattle.std.specs.Prelude.{◌≡◌, ◌++◌, ◌∷◌, [], map, OnOk, OnErr};
ghost use Rattle.std.specs.Option.{option_map, option_to_list};
ghost use Rattle.ufs_damage.specs.Meaning.{meaning};

use std::alloc::Global;
use std::marker::Model;
use ufs_base::Memory;

/// What is wrong in an image. A slot counts 64 a block of its directory, by the block's place.
#[derive(Clone, Copy, Debug, PartialEq, Eq)]
pub enum Damage {
    /// The inode's sector is off its form, or inode 1 is no directory.
    BadInode { inode: u32 },
    /// An extent of the inode leaves the data area.
    BadExtent { inode: u32 },
    /// Two inodes hold the block, or one holds it twice; the two lowest are named.
    SharedBlock { block: u32, first: u32, second: u32 },
    /// A file's size is above its blocks, or a directory's isn't theirs.
    ShortExtents { inode: u32 },
    /// The slot is off its form, or has a name that no path can have.
    BadDentry { dir: u32, slot: u32 },
    /// The inode that the slot names is out of range, free or of another kind.
    FreeInode { dir: u32, slot: u32, inode: u32 },
    /// An earlier slot of the directory has the name.
    NameTwice { dir: u32, slot: u32 },
    /// Two names name the inode, or one names inode 1.
    TwoNames { inode: u32 },
    /// The block's bit in the bitmap of a clean image isn't what the inodes say.
    BitmapDiffers { block: u32 },
}

/// A list of damage.
#[derive(Drop)]
pub struct DamageList {
    items: Vec<Damage>,
}

impl Model for DamageList {
    ghost use Rattle.std.specs.Prelude.{List, map};
    ghost use Rattle.ufs_image.specs.Damage.{Damage};

    ghost Value = { List Damage };

    ghost use Rattle.ufs_damage.specs.Meaning.{meaning};

    ghost view = { λ l. map meaning l.items.items };
}

impl DamageList {
    /// No damage.
    pub fn new(alloc: Global) -> DamageList
        ensures { result ≡ [] }
    {
        DamageList {
            items: Vec::new(alloc),
        }
    }

    /// Takes no memory.
    pub fn from_items(items: Vec<Damage>) -> DamageList
        ensures { result ≡ map meaning items.items }
    {
        DamageList { items }
    }

    /// The damage, in the list's order.
    pub fn as_slice(&self) -> &[Damage]
        ensures { map meaning result.now ≡ self.now }
    {
        self.items.as_slice()
    }

    fn push(&mut self, damage: Damage) -> Result<(), Memory>
        ensures ok { OnOk result (self.new ≡ self.old ++ meaning damage ∷ []) }
        ensures err { OnErr result (self.new ≡ self.old) }
    {
        self.items.push(damage)?;
        Ok(())
    }

    // Puts the damage behind the others, where there is some.
    pub(crate) fn push_some(&mut self, damage: Option<Damage>) -> Result<(), Memory>
        ensures { OnOk result (self.new ≡ self.old ++ option_to_list (option_map meaning damage)) }
    {
        match damage {
            Some(damage) => self.push(damage),
            None => Ok(()),
        }
    }
}
