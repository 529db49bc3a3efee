// A mount makes two calls of the disk.
use crate::asserts::same;
use crate::names::{Commits, commit_names_of};
use crate::session::{Ended, Told, behind_a_lock, straight};
use crate::threads::{Shared, by_four_threads};
use std::alloc::Global;
use std::rt::HostRuntime;
use ufs_disk::{Fuse, FuseDisk, PlainDisk};
use ufs_joint_tests::SECTORS;
use ufs_store::StoreFault;

fn served() -> Option<Ended> {
    Some(Ended {
        tickets: 0,
        told: Told {
            lacks: Err(StoreFault::NoSpace {
                need: 1_000,
                had: 242,
            }),
            given: 67,
            left: 0,
            made: Ok(()),
        },
    })
}

// How the checkpoint went over a disk that serves so many calls.
fn made_within(alloc: Global, passes: u64) -> Option<Result<(), StoreFault>> {
    let bytes = vec![in alloc; 0; 1_048_576].ok()?;
    let disk = FuseDisk::new(alloc, SECTORS, bytes, Fuse { passes }).ok()?;
    let ended = straight(alloc, disk)?;
    Some(ended.told.made)
}

#[test]
fn blocks_go_and_come_back(rt: HostRuntime) {
    let disk = PlainDisk::zeros(rt.alloc(), SECTORS).expect(&rt, "no disk");
    same(&rt, straight(rt.alloc(), disk), served());
}

#[test]
fn so_they_do_behind_a_lock(rt: HostRuntime) {
    let disk = PlainDisk::zeros(rt.alloc(), SECTORS).expect(&rt, "no disk");
    same(&rt, behind_a_lock(&rt, rt.alloc(), disk), served());
}

#[test]
fn so_they_do_by_four_threads(rt: HostRuntime) {
    let disk = PlainDisk::zeros(rt.alloc(), SECTORS).expect(&rt, "no disk");
    let wanted = Some(Shared {
        tickets: 0,
        passed: true,
    });
    same(&rt, by_four_threads(&rt, rt.alloc(), disk), wanted);
}

#[test]
fn a_checkpoint_tells_the_fault(rt: HostRuntime) {
    let wanted = Some(Err(StoreFault::Device { fault: 1 }));
    same(&rt, made_within(rt.alloc(), 2), wanted);
}

// Nothing was noted, so a disk that serves no more calls than a mount makes isn't asked.
#[test]
fn names_are_committed_without_a_call(rt: HostRuntime) {
    let bytes = vec![in rt.alloc(); 0; 1_048_576].expect(&rt, "memory");
    let disk = FuseDisk::new(rt.alloc(), SECTORS, bytes, Fuse { passes: 2 }).expect(&rt, "no disk");
    let wanted = Some(Commits {
        tickets: 0,
        first: Ok(()),
        second: Ok(()),
    });
    same(&rt, commit_names_of(rt.alloc(), disk), wanted);
}
