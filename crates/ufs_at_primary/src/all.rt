// A `sync`.
ghost use Rattle.std.specs.Prelude.{◌≡◌, ◌<◌, ◌^◌, is_some};
ghost use Rattle.ufs_baton.specs.Baton.{IsToldSince};
ghost use Rattle.ufs_bitmap.specs.Blocks.{BlockSet};
ghost use Rattle.ufs_joint.specs.FirstHand.{HasPoolAlone, pool_of};
ghost use Rattle.ufs_held_names.specs.SyncAll.{AreAllLive};
ghost use Rattle.ufs_joint.specs.Cells.{FileCell};
ghost use Rattle.ufs_layout.specs.Areas.{IsGeometry};
ghost use Rattle.ufs_model.specs.declared.data.Op.TheVariants as op;
ghost use Rattle.ufs_msg.specs.Answers.{Told};
ghost use Rattle.ufs_msg.specs.declared.answer.Answer.TheVariants as answer;
ghost use Rattle.ufs_at_primary.specs.All.{IsAllSynced};
ghost use Rattle.ufs_hand_laws.specs.Owned.{Has};

use ufs_held::HeldFile;
use ufs_held_names::{HeldNames, NamesSynced};
use ufs_joint::{Hand, HandTable, Naming};
use ufs_layout::Geometry;
use ufs_model::Actor;
use ufs_msg::{Answer, Request, Served};
use ufs_serving::{lend_pool, pool_number, take_pool};
use ufs_turns::Turns;

/// Serves a `sync`, with every live file, and says what its client is answered: the names are committed, and then each file in the order
/// of the list, each in a turn of the store.
pub fn serve_sync_all<N: Naming, T: Turns<N>>(
    table: &HandTable<N>,
    names: &mut HeldNames<N>,
    geometry: &Geometry,
    files: &mut [HeldFile<N>],
    request: Request<N>,
    right: &mut Hand<N>,
    door: &mut T,
) -> Answer<N>
    requires formed { IsGeometry geometry.now }
    requires its { geometry.now ≡ N.start.geometry }
    requires pool { (pool : BlockSet) × HasPoolAlone (pool_of 0) pool right.old }
    requires sync { request.ask.op ≡ op.Sync }
    requires all { AreAllLive names.old.value files.old }
    requires low { (c : FileCell) → Has c files.old → c.value.file.file < 2 ^ 31 }
    ensures pool { (pool : BlockSet) → HasPoolAlone (pool_of 0) pool right.old → HasPoolAlone (pool_of 0) pool right.new }
    ensures served { (told : Told) × (result ≡ answer.Served told) × IsAllSynced N.start.is_visible (T.tells door.old) (T.tells door.new) names.old names.new files.old files.new request.ask told }
    ensures drawn { IsToldSince request.hand.seen result }
    ensures telling { is_some (T.tells door.new) ≡ is_some (T.tells door.old) }
{
    let (client, ask, _leases_back) = request.into_parts();
    let guest = lend_pool(table, right, client);
    let NamesSynced { entry, guest } = names.sync(
        table,
        ask,
        guest,
        Actor::Primary,
        files,
        door,
        geometry,
    );
    let guest = take_pool(table, right, guest, pool_number(0));
    Answer::Served(Served::new(guest, entry, None, None, None))
}
