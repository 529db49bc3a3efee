use ufs_base::{Lack, Memory};
use ufs_metadata::RecoverFault;

/// Why a server can't begin with an image.
#[derive(Clone, Copy, Debug, PartialEq, Eq)]
pub enum StartFault {
    /// The image isn't read, or it stands for no tree.
    Image(RecoverFault),
    /// Names stand in the directory of this inode, and no path leads to it from the root.
    Unreached { inode: u32 },
    /// The file of this inode has no name.
    Unnamed { inode: u32 },
    /// The file of this inode has more blocks than its size wants.
    ExtraBlocks { inode: u32 },
}

impl From<RecoverFault> for StartFault {
    ghost use Rattle.std.specs.Prelude.{◌≡◌};
    ghost use Rattle.ufs_start.specs.declared.fault.StartFault.TheVariants as fault;

    ghost from_gives = { λ f e. e ≡ fault.Image f };

    fn from(fault: RecoverFault) -> StartFault {
        StartFault::Image(fault)
    }
}

impl From<Memory> for StartFault {
    ghost use Rattle.std.specs.Prelude.{◌≡◌};
    ghost use Rattle.ufs_base.specs.declared.lack.Lack.TheVariants as lack;
    ghost use Rattle.ufs_metadata.specs.declared.fault.RecoverFault.TheVariants as image;
    ghost use Rattle.ufs_start.specs.declared.fault.StartFault.TheVariants as fault;

    ghost from_gives = { λ m e. e ≡ fault.Image (image.Lack (lack.Memory m)) };

    fn from(memory: Memory) -> StartFault {
        StartFault::Image(RecoverFault::Lack(Lack::Memory(memory)))
    }
}

impl From<Lack> for StartFault {
    ghost use Rattle.std.specs.Prelude.{◌≡◌};
    ghost use Rattle.ufs_metadata.specs.declared.fault.RecoverFault.TheVariants as image;
    ghost use Rattle.ufs_start.specs.declared.fault.StartFault.TheVariants as fault;

    ghost from_gives = { λ l e. e ≡ fault.Image (image.Lack l) };

    fn from(lack: Lack) -> StartFault {
        StartFault::Image(RecoverFault::Lack(lack))
    }
}
