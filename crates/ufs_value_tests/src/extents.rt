use crate::asserts::same;
use ufs_base::Memory;
use ufs_extent::{Extents, Full56, Run, Runs};

const FILE: [Run; 3] = [
    Run {
        start: 40,
        length: 2,
    },
    Run {
        start: 7,
        length: 1,
    },
    Run {
        start: 100,
        length: 3,
    },
];

#[test]
fn a_run_that_follows_is_joined(rt: HostRuntime) {
    let mut extents = Extents::make(rt.alloc()).expect(&rt, "memory");
    for (start, length) in [(14, 1), (15, 1), (14, 2), (2, 3)] {
        same(&rt, extents.append(Run { start, length }), Ok(()));
    }
    let want = [
        Run {
            start: 14,
            length: 2,
        },
        Run {
            start: 14,
            length: 2,
        },
        Run {
            start: 2,
            length: 3,
        },
    ];
    same(&rt, extents.as_slice(), want.as_slice());
    same(&rt, extents.count_with(&FILE), 6);
}

#[test]
fn blocks_and_extents_by_place(rt: HostRuntime) {
    let extents = Extents::from_runs(rt.alloc(), &FILE).expect(&rt, "memory");
    same(&rt, extents.block_count(), 6);
    for (place, block) in [(0, 40), (1, 41), (2, 7), (3, 100), (5, 102)] {
        same(&rt, extents.block_of(place), Some(block));
    }
    same(&rt, extents.block_of(6), None);
    same(&rt, extents.run_at(2), Some(FILE[2]));
    same(&rt, extents.run_at(3), None);
}

#[test]
fn a_cut_splits_a_run(rt: HostRuntime) {
    let mut extents = Extents::from_runs(rt.alloc(), &FILE).expect(&rt, "memory");
    let rest = extents.cut(4).expect(&rt, "memory");
    let kept = [
        FILE[0],
        FILE[1],
        Run {
            start: 100,
            length: 1,
        },
    ];
    let given = [Run {
        start: 101,
        length: 2,
    }];
    same(&rt, extents.as_slice(), kept.as_slice());
    same(&rt, rest.as_slice(), given.as_slice());
    same(
        &rt,
        extents.cut(4).expect(&rt, "memory").as_slice().len(),
        0,
    );
    same(
        &rt,
        extents.cut(0).expect(&rt, "memory").as_slice(),
        kept.as_slice(),
    );
    same(&rt, extents.block_count(), 0);
}

#[test]
fn the_fifty_seventh_run_is_refused(rt: HostRuntime) {
    let mut extents = Extents::make(rt.alloc()).expect(&rt, "memory");
    for place in 0..56 {
        same(
            &rt,
            extents.append(Run {
                start: 2 * place,
                length: 1,
            }),
            Ok(()),
        );
    }
    same(
        &rt,
        extents.append(Run {
            start: 0,
            length: 1,
        }),
        Err(Full56),
    );
    same(
        &rt,
        extents.append(Run {
            start: 111,
            length: 1,
        }),
        Ok(()),
    );
    same(&rt, extents.as_slice().len(), 56);
    same(&rt, extents.block_count(), 57);
}

#[test]
fn a_run_has_a_block_below_65536(rt: HostRuntime) {
    for (start, length, valid) in [
        (0, 0, false),
        (0, 1, true),
        (65_535, 1, true),
        (65_536, 0, false),
        (65_535, 2, false),
        (1, u32::MAX, false),
    ] {
        assert_eq!(rt; Run { start, length }.is_valid(), valid, "{start} {length}");
    }
}

#[test]
fn a_list_of_runs(rt: HostRuntime) {
    let mut runs = Runs::new(rt.alloc());
    for run in FILE {
        runs.push(run).expect(&rt, "memory");
    }
    let runs = Runs::from_vec(runs.into_vec());
    same(&rt, runs.as_slice(), FILE.as_slice());
}
