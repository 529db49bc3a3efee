// One set of findings for each kind of damage.
use crate::found::{found, free, named, node, root, small, unnamed};
use std::alloc::Global;
use std::test::Fail;
use ufs_damage::{Damage, Findings, damage_of};

// The findings have this damage, and this is the lowest inode that is blamed.
fn tells(alloc: Global, findings: &Findings, wanted: &[Damage], lowest: Option<u32>) -> bool {
    let geometry = small();
    if findings.forms().len() != 16 {
        return false;
    }
    match damage_of(alloc, &geometry, findings) {
        Ok(list) => list.as_slice() == wanted && list.lowest_blamed(&geometry) == lowest,
        Err(_) => false,
    }
}

#[test]
fn a_whole_tree_has_no_damage(rt: HostRuntime) -> Result<(), Fail> {
    let a = named(b"f", 2, 1);
    let b = named(b"g", 3, 1);
    let findings = found(
        rt.alloc(),
        (root(), node(1, 13, 1, 10), node(1, 14, 2, 0)),
        a,
        b,
    )?;
    assert!(rt; tells(rt.alloc(), &findings, &[], None));
    Ok(())
}

#[test]
fn a_root_off_its_form_is_a_bad_inode(rt: HostRuntime) -> Result<(), Fail> {
    let findings = found(rt.alloc(), (None, free(), free()), unnamed(), unnamed())?;
    assert!(rt;
        tells(
            rt.alloc(),
            &findings,
            &[Damage::BadInode { inode: 1 }],
            Some(1)
        )
    );
    Ok(())
}

#[test]
fn an_extent_past_the_last_block_is_bad(rt: HostRuntime) -> Result<(), Fail> {
    let a = named(b"f", 2, 1);
    let findings = found(
        rt.alloc(),
        (root(), node(1, 63, 2, 0), free()),
        a,
        unnamed(),
    )?;
    assert!(rt;
        tells(
            rt.alloc(),
            &findings,
            &[Damage::BadExtent { inode: 2 }],
            Some(2)
        )
    );
    Ok(())
}

#[test]
fn a_block_of_two_files_names_both(rt: HostRuntime) -> Result<(), Fail> {
    let a = named(b"f", 2, 1);
    let b = named(b"g", 3, 1);
    let findings = found(
        rt.alloc(),
        (root(), node(1, 13, 2, 0), node(1, 14, 1, 0)),
        a,
        b,
    )?;
    let shared = Damage::SharedBlock {
        block: 14,
        first: 2,
        second: 3,
    };
    assert!(rt; tells(rt.alloc(), &findings, &[shared], Some(2)));
    Ok(())
}

#[test]
fn a_file_longer_than_its_blocks_is_short(rt: HostRuntime) -> Result<(), Fail> {
    let a = named(b"f", 2, 1);
    let findings = found(
        rt.alloc(),
        (root(), node(1, 13, 1, 4_097), free()),
        a,
        unnamed(),
    )?;
    assert!(rt;
        tells(
            rt.alloc(),
            &findings,
            &[Damage::ShortExtents { inode: 2 }],
            Some(2)
        )
    );
    Ok(())
}

#[test]
fn slots_off_their_form_and_dots_are_bad(rt: HostRuntime) -> Result<(), Fail> {
    let a = named(b"..", 2, 1);
    let findings = found(rt.alloc(), (root(), node(1, 13, 1, 0), free()), a, None)?;
    let first = Damage::BadDentry { dir: 1, slot: 0 };
    let second = Damage::BadDentry { dir: 1, slot: 1 };
    assert!(rt; tells(rt.alloc(), &findings, &[first, second], Some(1)));
    Ok(())
}

#[test]
fn a_name_of_a_free_inode_is_told(rt: HostRuntime) -> Result<(), Fail> {
    let a = named(b"f", 2, 1);
    let b = named(b"g", 17, 1);
    let findings = found(rt.alloc(), (root(), free(), free()), a, b)?;
    let first = Damage::FreeInode {
        dir: 1,
        slot: 0,
        inode: 2,
    };
    let second = Damage::FreeInode {
        dir: 1,
        slot: 1,
        inode: 17,
    };
    assert!(rt; tells(rt.alloc(), &findings, &[first, second], Some(1)));
    Ok(())
}

#[test]
fn a_second_slot_with_the_name_is_told(rt: HostRuntime) -> Result<(), Fail> {
    let a = named(b"f", 2, 1);
    let b = named(b"f", 3, 1);
    let findings = found(
        rt.alloc(),
        (root(), node(1, 13, 1, 0), node(1, 14, 1, 0)),
        a,
        b,
    )?;
    assert!(rt;
        tells(
            rt.alloc(),
            &findings,
            &[Damage::NameTwice { dir: 1, slot: 1 }],
            Some(1)
        )
    );
    Ok(())
}

#[test]
fn two_names_of_a_file_and_one_of_the_root(rt: HostRuntime) -> Result<(), Fail> {
    let a = named(b"f", 2, 1);
    let b = named(b"g", 2, 1);
    let twice = found(rt.alloc(), (root(), node(1, 13, 1, 0), free()), a, b)?;
    assert!(rt;
        tells(
            rt.alloc(),
            &twice,
            &[Damage::TwoNames { inode: 2 }],
            Some(2)
        )
    );
    let c = named(b"f", 1, 2);
    let once = found(rt.alloc(), (root(), free(), free()), c, unnamed())?;
    assert!(rt; tells(rt.alloc(), &once, &[Damage::TwoNames { inode: 1 }], Some(1)));
    Ok(())
}
