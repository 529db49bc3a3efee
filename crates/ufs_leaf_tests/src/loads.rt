ghost use Rattle.std.specs.Prelude.{IfOk, ◌<◌, ◌^◌, length};
ghost use Rattle.ufs_load.specs.Laws.{AreOfFiles};

use crate::asserts::same;
use std::alloc::{AllocError, AllocGlobal, Global};
use std::process::Abort;
use ufs_load::plan;
use ufs_model::{Load, LoadList};

// Loads of the files 0, 1 and so on, each as its worker and its count.
fn numbered(alloc: Global, rows: &[(u8, u32)]) -> Result<LoadList, AllocError>
    requires { length rows.now < 2 ^ 32 }
    ensures { IfOk result AreOfFiles }
{
    let mut loads = Vec::new(alloc);
    for i in 0..rows.len() {
        let (worker, count) = rows[i];
        loads.push(Load {
            file: i as u32,
            worker,
            count,
        })?;
    }
    Ok(LoadList::from_vec(loads))
}

// Asserts which moves are planned, as the files with where they go from and to.
fn moves<R: Abort + AllocGlobal>(
    rt: &R,
    rows: &[(u8, u32)],
    workers: u8,
    limit: u32,
    wanted: &[(u32, u8, u8)],
)
    requires { length rows.now < 2 ^ 32 }
{
    let loads = numbered(rt.alloc(), rows).expect(rt, "memory");
    let moves = plan(rt.alloc(), &loads, workers, limit).expect(rt, "memory");
    let moves = moves.as_slice();
    same(rt, moves.len(), wanted.len());
    for (next, row) in moves.iter().zip(wanted) {
        same(rt, (next.file, next.from, next.to), *row);
    }
}

#[test]
fn the_greatest_load_below_the_difference_goes(rt: HostRuntime) {
    let rows = [(1, 5), (1, 3), (2, 0)];
    moves(&rt, &rows, 2, 1, &[(0, 1, 2)]);

    // After that the loads are 3 and 5: nothing below 2 can go.
    moves(&rt, &rows, 2, 4, &[(0, 1, 2)]);
    moves(&rt, &rows, 2, 0, &[]);
    moves(&rt, &rows, 1, 4, &[]);
    moves(&rt, &rows, 0, 4, &[]);
}

#[test]
fn lowest_numbers_go_first(rt: HostRuntime) {
    // Workers 2 and 3 have as much, and so do the files 1 and 2; 0 and 9 are no workers.
    let rows = [(0, 90), (2, 4), (2, 4), (3, 4), (3, 4), (9, 50)];
    moves(&rt, &rows, 4, 4, &[(1, 2, 1), (3, 3, 4)]);
    moves(&rt, &rows, 4, 1, &[(1, 2, 1)]);
}
