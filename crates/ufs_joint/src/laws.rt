// Laws of the steps of hands. Each law is the contract of a function that does nothing.
ghost use Rattle.ufs_layout.specs.Areas.{IsGeometry};
ghost use Rattle.ufs_joint.specs.Checkpoints.{CheckpointsGoOn, CheckpointsMayEnd};
ghost use Rattle.ufs_joint.specs.FileHands.{AcknowledgementsMayDraw, ExcusesMayDraw, FileCommitsGoOn, FileCommitsMayEnd, FileFailuresGoOn, FileFailuresMayEnd, FileFetchesGoOn, FileFetchesMayEnd, FileRequestsMayDraw};
ghost use Rattle.ufs_joint.specs.NamesHands.{DirAcknowledgementsMayDraw, NamesExcusesMayDraw, NamesRequestsMayDraw, SyncsMayDraw};
ghost use Rattle.ufs_joint.specs.NamesTurns.{NamesCommitsGoOn, NamesCommitsMayEnd, NamesFailuresGoOn, NamesFailuresMayEnd};
ghost use Rattle.ufs_joint.specs.Reclaims.{ReclaimFailuresMayEnd, ReclaimsGoOn, ReclaimsMayEnd};
ghost use Rattle.ufs_joint.specs.Laws.{AskKeeps, BeginIsSound, BlocksMoveKeeps, CloseIsWhole, DrawKeeps, HandsKnow, JoinKeeps, LookKeeps, SplitKeeps, TellKeeps, TurnBeginKeeps, TurnEndKeeps};

use crate::{
    ack_law, beside_law, draw_law, file_fetch_law, file_law, file_moments_law, lent_law,
    names_draw_law, sync_law,
};
use ufs_layout::Geometry;
use ufs_ledger::promise_law;
use ufs_names::a_file_request_keeps_the_names;
use ufs_names_commit::reclaim_law;
use ufs_promise_laws::{always_law, fetch_law, ready_law, served_names_law};

/// The first hand, with every cell, is sound; and what the last one knows, with every cell again.
pub fn a_session_is_whole()
    ensures begin { BeginIsSound }
    ensures close { CloseIsWhole }
{}

/// A hand knows of one history from which its cells come, and with the store's cell what the disk keeps.
pub fn a_hand_knows()
    ensures { HandsKnow }
{}

/// A hand is split and two are joined.
pub fn hands_are_split_and_joined()
    ensures split { SplitKeeps }
    ensures join { JoinKeeps }
{}

/// A client asks, and an entry is drawn on the cells that a hand has.
pub fn an_entry_is_drawn()
    ensures ask { AskKeeps }
    ensures draw { DrawKeeps }
{}

/// A turn of the store begins and ends, and others draw entries meanwhile.
pub fn a_turn_is_made()
    ensures begin { TurnBeginKeeps }
    ensures end { TurnEndKeeps }
{}

/// A hand looks at the tickets.
pub fn a_hand_looks()
    ensures { LookKeeps }
{}

/// Free blocks go between the pools and the store.
pub fn free_blocks_move()
    ensures { BlocksMoveKeeps }
{}

/// Files are told their births by a hand that has the names.
pub fn births_are_told()
    ensures { TellKeeps }
{}

/// A request on a file is drawn by a hand with a client, the file and a pool alone.
pub fn a_file_request_is_drawn()
    ensures { FileRequestsMayDraw }
{
    draw_law();
    a_file_request_keeps_the_names();
}

/// A request of the names is drawn by a hand with a client, the names, a pool, and the files that it touches.
pub fn a_names_request_is_drawn(geometry: &Geometry)
    requires { IsGeometry geometry.now }
    ensures { NamesRequestsMayDraw geometry.now }
{
    names_draw_law(geometry);
    served_names_law();
    lent_law();
    beside_law();
}

/// A request of the names is excused.
pub fn a_names_excuse_is_drawn()
    ensures { NamesExcusesMayDraw }
{
    draw_law();
}

/// A request on a file is excused.
pub fn an_excuse_is_drawn()
    ensures { ExcusesMayDraw }
{
    draw_law();
}

/// An `fsync` of a file of which all is known as committed is acknowledged by a hand without the store, also once that has stopped.
pub fn an_acknowledgement_is_drawn()
    ensures { AcknowledgementsMayDraw }
{
    ack_law();
}

/// An `fsync` of a directory is acknowledged by a hand with the names, where all that changed of them is known as committed.
pub fn a_directory_is_acknowledged()
    ensures { DirAcknowledgementsMayDraw }
{
    ack_law();
}

/// A `sync` is acknowledged by a hand with the names and each live file, where all that changed is known as committed.
pub fn a_sync_is_acknowledged(geometry: &Geometry)
    requires { IsGeometry geometry.now }
    ensures { SyncsMayDraw geometry.now }
{
    sync_law(geometry);
}

/// Blocks of a file are read in a turn. Of a disk that isn't visible what was read narrows the trees with which the session may have
/// begun.
pub fn a_file_is_fetched(geometry: &Geometry)
    requires { IsGeometry geometry.now }
    ensures may { FileFetchesMayEnd geometry.now }
    ensures on { FileFetchesGoOn geometry.now }
{
    fetch_law(geometry);
    file_fetch_law();
}

/// Where the commit fails the turn may end too.
pub fn a_failed_commit_ends(geometry: &Geometry)
    requires { IsGeometry geometry.now }
    ensures may { FileFailuresMayEnd geometry.now }
    ensures on { FileFailuresGoOn geometry.now }
{
    file_law(geometry);
    file_moments_law(geometry);
}

/// A file is committed in a turn, by a hand with the store and the file alone.
pub fn a_file_is_committed(geometry: &Geometry)
    requires { IsGeometry geometry.now }
    ensures may { FileCommitsMayEnd geometry.now }
    ensures on { FileCommitsGoOn geometry.now }
{
    file_law(geometry);
    file_moments_law(geometry);
}

/// The names are committed in a turn, with the zeros of the blocks that directories took, by a hand with the store and the names alone;
/// or that fails.
pub fn a_commit_of_names_ends()
    ensures may { NamesCommitsMayEnd }
    ensures on { NamesCommitsGoOn }
    ensures failed { NamesFailuresMayEnd }
    ensures failed_on { NamesFailuresGoOn }
{}

/// A checkpoint is made in a turn, or fails, by a hand with the store alone.
pub fn a_checkpoint_ends(geometry: &Geometry)
    requires { IsGeometry geometry.now }
    ensures may { CheckpointsMayEnd geometry.now }
    ensures on { CheckpointsGoOn geometry.now }
{
    promise_law(geometry);
    ready_law(geometry);
    always_law(geometry);
}

/// A checkpoint is made in a turn by a hand with the store, the names and each live file, where nothing of the names is left to commit
/// and each file keeps the blocks that it has on the disk: what the names dropped is unassigned then. Where it fails all stays.
pub fn dropped_blocks_come_back(geometry: &Geometry)
    requires { IsGeometry geometry.now }
    ensures may { ReclaimsMayEnd geometry.now }
    ensures on { ReclaimsGoOn geometry.now }
    ensures failed { ReclaimFailuresMayEnd geometry.now }
{
    reclaim_law(geometry);
    promise_law(geometry);
    ready_law(geometry);
    always_law(geometry);
}
