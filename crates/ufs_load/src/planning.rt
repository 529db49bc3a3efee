ghost use Rattle.std.specs.Prelude.{◌≡◌, ◌<◌, ◌≤◌, ◌^◌, length, map, All, IfOk, OnOk};
ghost use Rattle.ufs_load.specs.Plan.{IsNextMove, IsPlan, on_worker};
ghost use Rattle.ufs_load.specs.Laws.{AreOfFiles};
ghost use Rattle.ufs_load.specs.Steps.{IsMoveOf};

use crate::choice::chosen;
use crate::moves::{Move, MoveList};
use crate::totals::{least_loaded, most_loaded, totals_of};
use std::alloc::Global;
use ufs_base::Memory;
use ufs_model::{Load, LoadList};

/// The moves, at most `limit`, each from the worker that is then most loaded to the one least loaded, the lowest
/// numbers first: of the files whose count is positive and below the difference of the two loads, the one with the
/// greatest count, the lowest file first. Where there is none, the plan ends. Loads of workers that aren't one of 1 to
/// `workers` are left out. Each move takes one look at each load.
pub fn plan(alloc: Global, loads: &LoadList, workers: u8, limit: u32) -> Result<MoveList, Memory>
    requires { AreOfFiles loads.now }
    ensures { IfOk result (IsPlan loads.now workers limit) }
{
    let mut left = copied(alloc, loads.as_slice())?;
    let mut moves = Vec::new(alloc);
    for _made in 0..limit {
        let Some(next) = next_move(&left, workers) else {
            return Ok(MoveList::from_vec(moves));
        };
        moves.push(next)?;
        make_move(&mut left, next);
    }
    Ok(MoveList::from_vec(moves))
}

// The same loads. As their files are distinct, there are no more of them than there are files.
fn copied(alloc: Global, loads: &[Load]) -> Result<Vec<Load>, Memory>
    ensures same { IfOk result (λ v. v.items ≡ loads.now) }
    ensures files { OnOk result (All (λ l. l.file < 2 ^ 32) loads.now) }
{
    let mut copy = Vec::with_capacity(alloc, loads.len())?;
    for load in loads {
        let file = file_of(*load);
        copy.push(Load { file, ..*load })?;
    }
    Ok(copy)
}

fn file_of(load: Load) -> u32
    ensures value { result ≡ load.file }
    ensures fits { result < 2 ^ 32 }
{
    load.file
}

fn next_move(loads: &[Load], workers: u8) -> Option<Move>
    requires { length loads.now ≤ 2 ^ 32 }
    ensures { IsMoveOf loads.now workers result }
{
    if workers == 0 {
        return None;
    }
    let totals = totals_of(loads);
    let from = most_loaded(&totals, workers);
    let to = least_loaded(&totals, workers);
    match chosen(loads, from, totals[from as usize] - totals[to as usize]) {
        Some(load) => Some(Move {
            file: load.file,
            from,
            to,
        }),
        None => None,
    }
}

fn make_move(loads: &mut [Load], next: Move)
    ensures { loads.new ≡ map (on_worker next.file next.to) loads.old }
{
    for load in loads.iter_mut() {
        *load = moved(*load, next);
    }
}

fn moved(load: Load, next: Move) -> Load
    ensures { result ≡ on_worker next.file next.to load }
{
    if load.file == next.file {
        Load {
            worker: next.to,
            ..load
        }
    } else {
        load
    }
}
