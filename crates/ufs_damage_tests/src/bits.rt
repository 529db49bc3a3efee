// The bitmap beside the used blocks.
use crate::found::{found, free, named, node, root, small, unnamed};
use std::test::Fail;
use ufs_damage::{Damage, DamageList, taken_blocks};

#[test]
fn bits_that_differ_are_told(rt: HostRuntime) -> Result<(), Fail> {
    let a = named(b"f", 2, 1);
    let findings = found(
        rt.alloc(),
        (root(), node(1, 14, 1, 0), free()),
        a,
        unnamed(),
    )?;
    let taken = taken_blocks(rt.alloc(), &small(), &findings)?;
    assert!(rt; taken.is_taken(11));
    assert!(rt; taken.is_taken(12));
    assert!(rt; !taken.is_taken(13));
    assert!(rt; taken.is_taken(14));
    let mut bits = [0; 512];
    bits[0] = 255;
    bits[1] = 63;
    bits[8] = 1;
    let mut list = DamageList::new(rt.alloc());
    list.compare_bitmap(&taken, 0, &bits)?;
    let wanted = [
        Damage::BitmapDiffers { block: 13 },
        Damage::BitmapDiffers { block: 14 },
        Damage::BitmapDiffers { block: 64 },
    ];
    assert!(rt; list.as_slice() == wanted.as_slice());
    Ok(())
}
