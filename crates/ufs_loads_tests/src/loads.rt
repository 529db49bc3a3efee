use crate::asserts::same;
use std::process::Abort;
use ufs_loads::Loads;
use ufs_model::Load;

// A report of these rows: each a file, a worker and a count.
fn note(rt: &impl Abort, loads: &mut Loads, rows: &[(u32, u8, u32); 2]) {
    let [first, second] = rows;
    let report = [load(*first), load(*second)];
    loads.note(&report).expect(rt, "memory");
}

fn load(row: (u32, u8, u32)) -> Load {
    let (file, worker, count) = row;
    Load {
        file,
        worker,
        count,
    }
}

// Asserts which moves are planned between two workers, as the files with where they go from and to.
fn moves(rt: &impl Abort, loads: &Loads, limit: u32, wanted: &[(u32, u8, u8)]) {
    let moves = loads.plan(2, limit).expect(rt, "memory");
    let moves = moves.as_slice();
    same(rt, moves.len(), wanted.len());
    for (next, row) in moves.iter().zip(wanted) {
        same(rt, (next.file, next.from, next.to), *row);
    }
}

#[test]
fn a_report_takes_the_place_of_what_was_noted_of_its_files(rt: HostRuntime) {
    let mut loads = Loads::new(rt.alloc());
    moves(&rt, &loads, 4, &[]);

    // Worker 1 has 64, worker 2 none: file 1 goes, and then 24 is to 40.
    note(&rt, &mut loads, &[(1, 1, 40), (2, 1, 24)]);
    moves(&rt, &loads, 4, &[(1, 1, 2)]);
    moves(&rt, &loads, 0, &[]);

    // File 1 is at worker 2 now: 24 to 35. Of its files 3 counts less than 11.
    note(&rt, &mut loads, &[(1, 2, 30), (3, 2, 5)]);
    moves(&rt, &loads, 4, &[(3, 2, 1)]);

    // A report that names a file twice: the last one stays. 60 to 35.
    note(&rt, &mut loads, &[(2, 1, 5), (2, 1, 60)]);
    moves(&rt, &loads, 4, &[]);
}
