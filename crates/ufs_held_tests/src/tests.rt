use crate::asserts::same;
use crate::session::{Synced, Told, synced_by_hand};
use std::rt::HostRuntime;
use ufs_disk::{Fuse, FuseDisk};
use ufs_joint_tests::SECTORS;
use ufs_model::Excuse;
use ufs_store::StoreFault;

// Nothing was noted, so a disk that serves no more calls than a mount makes, which are two, isn't asked.
#[test]
fn names_are_committed_by_their_hand(rt: HostRuntime) {
    let bytes = vec![in rt.alloc(); 0; 1_048_576].expect(&rt, "memory");
    let disk = FuseDisk::new(rt.alloc(), SECTORS, bytes, Fuse { passes: 2 }).expect(&rt, "no disk");
    let wanted = Some(Told {
        tickets: 1,
        next: 0,
        born: false,
        made: None,
        synced: Synced::Done,
        first: Ok(()),
        second: Ok(()),
    });
    same(&rt, synced_by_hand(rt.alloc(), disk, false), wanted);
}

// A checkpoint asks it, and fails: the store stops at that fault, and all that comes behind is told so.
#[test]
fn a_sync_behind_a_stop_is_excused_by_it(rt: HostRuntime) {
    let bytes = vec![in rt.alloc(); 0; 1_048_576].expect(&rt, "memory");
    let disk = FuseDisk::new(rt.alloc(), SECTORS, bytes, Fuse { passes: 2 }).expect(&rt, "no disk");
    let wanted = Some(Told {
        tickets: 1,
        next: 0,
        born: false,
        made: Some(Err(StoreFault::Device { fault: 1 })),
        synced: Synced::Excused(Excuse::Stopped { fault: 1 }),
        first: Err(StoreFault::Stopped { fault: 1 }),
        second: Err(StoreFault::Stopped { fault: 1 }),
    });
    same(&rt, synced_by_hand(rt.alloc(), disk, true), wanted);
}
