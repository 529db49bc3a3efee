// The check of a disk: a new image, one bit of its bitmap changed, and a disk of zeros.
ghost use Rattle.std.specs.Prelude.{◌≡◌};

use crate::found::small;
use std::alloc::Global;
use std::test::Fail;
use ufs_base::SECTOR;
use ufs_check::check;
use ufs_damage::Damage;
use ufs_disk::{Disk, PlainDisk};
use ufs_metadata::RecoverFault;
use ufs_recover::format;

fn has_damage(alloc: Global, disk: &mut PlainDisk, wanted: &[Damage]) -> bool
    ensures { disk.new.sectors ≡ disk.old.sectors }
{
    match check(alloc, disk) {
        Ok(list) => list.as_slice() == wanted,
        Err(_) => false,
    }
}

#[test]
fn a_new_image_is_clean_until_a_bit_changes(rt: HostRuntime) -> Result<(), Fail> {
    let mut disk = PlainDisk::zeros(rt.alloc(), 512)?;
    assert!(rt; format(&mut disk, &small()).is_ok());
    assert!(rt; has_damage(rt.alloc(), &mut disk, &[]));
    let mut bits = [0; SECTOR];
    bits[0] = 255;
    bits[1] = 31;
    assert!(rt; disk.sectors() == 512 && disk.write(8, &bits).is_ok());
    assert!(rt;
        has_damage(
            rt.alloc(),
            &mut disk,
            &[Damage::BitmapDiffers { block: 12 }]
        )
    );
    Ok(())
}

#[test]
fn a_disk_of_zeros_has_no_superblock(rt: HostRuntime) -> Result<(), Fail> {
    let mut disk = PlainDisk::zeros(rt.alloc(), 512)?;
    match check(rt.alloc(), &mut disk) {
        Ok(_) => assert!(rt; false),
        Err(fault) => assert!(rt; fault == RecoverFault::NoSuperblock),
    }
    Ok(())
}
