// The workers' loads, and the most and the least loaded of them.
ghost use Rattle.std.specs.Prelude.{◌≡◌, ℕ, ◌+◌, ◌<◌, ◌≤◌, ◌^◌, ◌==◌, if◌then◌else◌, length, slice_index};
ghost use Rattle.ufs_load.specs.Plan.{load_of, IsMost, IsLeast};

use ufs_model::Load;

/// The load of each number that a worker can have.
pub(crate) type Totals = [u64; 256];

/// Every worker's load, by one look at each load.
pub(crate) fn totals_of(loads: &[Load]) -> Totals
    requires { length loads.now ≤ 2 ^ 32 }
    ensures { (w : ℕ) → w < 256 → slice_index result w ≡ load_of loads.now w }
{
    let mut totals = no_totals();
    for load in loads {
        add(&mut totals, load.worker, load.count);
    }
    totals
}

fn no_totals() -> Totals
    ensures { (w : ℕ) → slice_index result w ≡ 0 }
{
    [0; 256]
}

fn add(totals: &mut Totals, worker: u8, count: u32)
    requires { slice_index totals.old worker + count < 2 ^ 64 }
    ensures { (w : ℕ) → slice_index totals.new w ≡ slice_index totals.old w + (if worker == w then count else 0) }
{
    totals[worker as usize] += count as u64;
}

/// The worker with the greatest load, the lowest number first.
pub(crate) fn most_loaded(totals: &Totals, workers: u8) -> u8
    requires { 1 ≤ workers }
    ensures { IsMost (λ w. slice_index totals.now w) workers result }
{
    let mut most = 1;
    for worker in 2..workers as usize + 1 {
        if totals[worker] > totals[most] {
            most = worker;
        }
    }
    most as u8
}

/// The worker with the least load, the lowest number first.
pub(crate) fn least_loaded(totals: &Totals, workers: u8) -> u8
    requires { 1 ≤ workers }
    ensures { IsLeast (λ w. slice_index totals.now w) workers result }
{
    let mut least = 1;
    for worker in 2..workers as usize + 1 {
        if totals[worker] < totals[least] {
            least = worker;
        }
    }
    least as u8
}
