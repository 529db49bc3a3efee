// Laws of the definitions, each the contract of a function that does nothing.
ghost use Rattle.ufs_layout.specs.Areas.{IsGeometry};
ghost use Rattle.ufs_names_commit.specs.Laws.{AllAreThere, BarriersAreExplained, BarriersFail, CheckpointsFail, CheckpointsFailKept, CheckpointsMayLeave, DroppedIsReclaimed, DroppedIsReclaimedKept, NamesAreExplained, NamesAreThere, NamesCommit, NamesMayLeave, NamesStop, NamesWait, ReclaimedIsPart, ReclaimedIsSound, ZerosAreExplained, ZerosBegin, ZerosGoOn, ZerosMayLeave, ZerosSettle, ZerosStay, ZerosStop};

use ufs_crash_laws::a_history_goes_by_its_changes;
use ufs_layout::Geometry;
use ufs_ledger::{form_law, promise_law};
use ufs_model::a_request_keeps_the_tree;
use ufs_promise_laws::{
    always_law, files_law, names_commit_law, names_go_on_law, ready_law, stopping_law,
};

/// The blocks that directories took are made ready for a commit of names.
pub fn zeros_law(geometry: &Geometry)
    requires { IsGeometry geometry.now }
    ensures begin { ZerosBegin }
    ensures write { ZerosGoOn geometry.now }
    ensures write_fails { ZerosStop geometry.now }
    ensures barrier { ZerosSettle geometry.now }
    ensures barrier_fails { BarriersFail geometry.now }
    ensures write_may_leave { ZerosMayLeave geometry.now }
    ensures write_moments { ZerosAreExplained geometry.now }
    ensures barrier_moments { BarriersAreExplained geometry.now }
    ensures rest { ZerosStay geometry.now }
{
    form_law();
    always_law(geometry);
    ready_law(geometry);
    stopping_law(geometry);
}

/// The names are committed.
pub fn names_law(geometry: &Geometry)
    requires { IsGeometry geometry.now }
    ensures commit { NamesCommit geometry.now }
    ensures stop { NamesStop geometry.now }
    ensures memory { NamesWait geometry.now }
    ensures nothing { NamesAreThere geometry.now }
    ensures may_leave { NamesMayLeave geometry.now }
    ensures moments { NamesAreExplained geometry.now }
{
    form_law();
    always_law(geometry);
    promise_law(geometry);
    ready_law(geometry);
    stopping_law(geometry);
    names_commit_law(geometry);
    a_history_goes_by_its_changes();
    files_law(geometry);
    names_go_on_law(geometry);
}

/// All changes of each live file stand on the disk.
pub fn all_law(geometry: &Geometry)
    requires { IsGeometry geometry.now }
    ensures { AllAreThere geometry.now }
{
    promise_law(geometry);
    a_request_keeps_the_tree();
    a_history_goes_by_its_changes();
}

/// Where everything is committed, a checkpoint brings back what directories and removed files dropped.
pub fn reclaim_law(geometry: &Geometry)
    requires { IsGeometry geometry.now }
    ensures reclaimed { DroppedIsReclaimed geometry.now }
    ensures known { DroppedIsReclaimedKept geometry.now }
    ensures may_leave { CheckpointsMayLeave geometry.now }
    ensures fails { CheckpointsFail geometry.now }
    ensures failed { CheckpointsFailKept geometry.now }
    ensures sound { ReclaimedIsSound }
    ensures parts { ReclaimedIsPart }
{
    form_law();
    always_law(geometry);
    ready_law(geometry);
    stopping_law(geometry);
}
