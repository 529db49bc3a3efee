// An `fsync` of a descriptor that its client doesn't have.
ghost use Rattle.std.specs.Prelude.{ℕ, ◌≡◌, ◌≤◌, suc};
ghost use Rattle.ufs_bitmap.specs.Blocks.{BlockSet};
ghost use Rattle.ufs_file.specs.Hand.{IsEntryOf};
ghost use Rattle.ufs_held.specs.Asking.{IsGuest};
ghost use Rattle.ufs_held_names.specs.Dirs.{AsksUnopened, answered};
ghost use Rattle.ufs_model.specs.declared.data.Errno.TheVariants.{Ebadf};
ghost use Rattle.ufs_model.specs.declared.data.Reply.TheVariants as reply;
ghost use Rattle.ufs_hand_laws.specs.Parts.{ClientPart};
ghost use Rattle.ufs_joint.specs.Servers.{IsServer};

use crate::held_names::NamesSynced;
use ufs_held::draw_reply;
use ufs_joint::{Hand, HandTable, Naming, draw_law};
use ufs_model::{Actor, Ask, Errno, Reply};

/// Refuses an `fsync` of a descriptor that its client doesn't have with EBADF. A client refuses such a request itself and sends none; the
/// type of a request doesn't say so.
pub fn refuse_unopened<N: Naming>(
    table: &HandTable<N>,
    ask: Ask,
    mut guest: Hand<N>,
    by: Actor,
) -> NamesSynced<N>
    requires guest { (part : ClientPart) × (n : ℕ) × (pool : BlockSet) × IsGuest ask.client part n pool guest × AsksUnopened part ask }
    requires server { IsServer by }
    ensures entry { IsEntryOf ask by result.entry.ticket result.entry }
    ensures replied { result.entry.reply ≡ reply.Refused Ebadf }
    ensures guest { (part : ClientPart) (n : ℕ) (pool : BlockSet) → IsGuest ask.client part n pool guest → IsGuest ask.client (answered part result.entry) n pool result.guest }
    ensures faults { result.guest.faults ≡ guest.faults }
    ensures later { guest.seen ≤ result.entry.ticket }
    ensures seen { result.guest.seen ≡ suc result.entry.ticket }
{
    draw_law();
    let entry = draw_reply(table, &mut guest, ask, by, Reply::Refused(Errno::Ebadf));
    NamesSynced { entry, guest }
}
