// Steps of a session of clients over the root alone, of whose disk nothing is said.
ghost use Rattle.std.specs.Prelude.{ℕ, ◌≡◌};
ghost use Rattle.ufs_joint.specs.Marks.{asking};
ghost use Rattle.ufs_joint_tests.specs.Small.{all_left, answered, back, small_start};
ghost use Rattle.ufs_layout.specs.Areas.{IsGeometry};
ghost use Rattle.ufs_model.specs.declared.data.Op.TheVariants.{Sync};
ghost use Rattle.ufs_hand_laws.specs.Owned.{Has};
ghost use Rattle.ufs_hand_laws.specs.Whole.{idle_asked, idle_client};

use ufs_hand_laws::Fresh;
use ufs_joint::{Event, Hand, HandTable, Leaving, Naming};
use ufs_layout::Geometry;
use ufs_model::{Actor, Excuse, Op, Reply};
use ufs_names::Names;
use ufs_store::Door;

// A client that has asked nothing asks for a `sync`.
pub(crate) fn ask<N: Naming, E: Event>(
    table: &HandTable<N>,
    hand: &mut Hand<N>,
    geometry: &Geometry,
    client: u8,
) -> u64
    requires formed { IsGeometry geometry.now }
    requires its { geometry.now ≡ N.start.geometry }
    requires idle { Has (client, idle_client) hand.old.clients }
    requires before { Has (client, idle_asked) hand.old.asked }
    requires event { E.leaves ≡ (λ n. asking n client Sync idle_client hand.old) }
    ensures { hand.new ≡ asking result client Sync idle_client hand.old }
{
    let _ = client;
    hand.mark::<E>(table, geometry)
}

// Its request is excused.
pub(crate) fn excuse<N: Naming, D: Door, L: Leaving>(
    table: &HandTable<N>,
    hand: &mut Hand<N>,
    names: &Names,
    store: &D,
) -> u64
    requires start { N.start ≡ small_start names.now (D.store store.now) }
    requires view { (tickets : ℕ) × (hand.old ≡ back names.now (D.store store.now) tickets) }
    requires leaves { L.leaves ≡ (λ n. all_left names.now) }
    ensures { (tickets : ℕ) → hand.old ≡ back names.now (D.store store.now) tickets → hand.new ≡ answered names.now (D.store store.now) tickets result }
{
    let _ = names;
    let _ = store;
    let fresh = Fresh {
        client: 0,
        seq: 0,
        by: Actor::Primary,
        op: Op::Sync,
        reply: Reply::Excused(Excuse::Memory),
    };
    hand.draw::<L>(table, &fresh)
}
