// Which of a worker's files is to go.
ghost use Rattle.std.specs.Prelude.{◌≡◌, MatchOption, IsTrue, ◌↔◌};
ghost use Rattle.ufs_load.specs.Plan.{MayGo, IsChosen};
ghost use Rattle.ufs_load.specs.Choice.{IsBestOf, IsFit, Beats};

use ufs_model::Load;

/// The load of the worker that counts most of those below the limit, the lowest file first.
pub(crate) fn chosen(loads: &[Load], from: u8, limit: u64) -> Option<Load>
    ensures { IsBestOf loads.now from limit result }
{
    let mut best: Option<Load> = None;
    for load in loads {
        if is_fit(load, from, limit) {
            best = Some(better(best, *load));
        }
    }
    best
}

fn is_fit(load: &Load, from: u8, limit: u64) -> bool
    ensures { IsTrue result ↔ IsFit from limit load.now }
{
    load.worker == from && load.count > 0 && (load.count as u64) < limit
}

// The load that counts more, or has the lower file.
fn better(best: Option<Load>, load: Load) -> Load
    ensures { Beats best load result }
{
    match best {
        Some(other) => {
            if load.count > other.count || (load.count == other.count && load.file < other.file) {
                load
            } else {
                other
            }
        }
        None => load,
    }
}
