// Where an inode's blocks lie.
ghost use Rattle.std.specs.Prelude.{◌≡◌, ◌++◌, ◌∷◌, [], map, IfOk, OnOk};
ghost use Rattle.ufs_extent.specs.Runs as runs;
ghost use Rattle.ufs_extent.specs.Runs.{IsRun};
ghost use Rattle.ufs_image.specs.Nodes as nodes;
ghost use Rattle.ufs_start.specs.Extents.{HasRuns, run_of};

use std::alloc::Global;
use ufs_base::Memory;
use ufs_extent::{Extents, Run, Runs};
use ufs_layout::{Extent, Inode};

/// The blocks of an inode, in the order of its bytes.
pub(crate) fn extents_in(alloc: Global, form: &Inode) -> Result<Extents, Memory>
    requires { HasRuns form.now }
    ensures runs { IfOk result (λ e. e ≡ map run_of form.now.extents) }
    ensures blocks { IfOk result (λ e. runs.blocks_of e ≡ nodes.blocks_of form.now) }
{
    let mut runs = Runs::new(alloc);
    for extent in form.used_extents() {
        push_run(&mut runs, extent)?;
    }
    Extents::from_runs(alloc, runs.as_slice())
}

fn push_run(runs: &mut Runs, extent: &Extent) -> Result<(), Memory>
    requires { IsRun (run_of extent.now) }
    ensures { OnOk result (runs.new ≡ runs.old ++ run_of extent.now ∷ []) }
{
    runs.push(Run {
        start: extent.start,
        length: extent.length,
    })
}
