// What a client does with its hand: it asks, sends its part away, sees it by, and takes it back.
ghost use Rattle.std.specs.Prelude.{ℕ, ◌≡◌, ◌<◌, ◌≤◌, false, [], None, Option, Some, length};
ghost use Rattle.ufs_client.specs.Own.{is_own};
ghost use Rattle.ufs_joint.specs.Cells.{kept_of};
ghost use Rattle.ufs_layout.specs.Areas.{IsGeometry};
ghost use Rattle.ufs_model.specs.Asks.{IsAsk};
ghost use Rattle.ufs_model.specs.Bounds.{IsBounded};
ghost use Rattle.ufs_model.specs.PosixTree.{PosixTree, desc_at};
ghost use Rattle.ufs_model.specs.declared.data.Actor.{Actor};
ghost use Rattle.ufs_model.specs.declared.data.Lease.{Lease};
ghost use Rattle.ufs_model.specs.declared.data.Op.{Op};
ghost use Rattle.ufs_model.specs.declared.data.PartName.TheVariants as part;
ghost use Rattle.ufs_msg.specs.Answers.{IsTold};
ghost use Rattle.ufs_msg.specs.There.{IsClientThere};
ghost use Rattle.ufs_hand_laws.specs.Parts.{AskedPart, ClientPart};
ghost use Rattle.std.specs.FinMap as fin;
ghost use Rattle.ufs_caller.specs.Hands.{HasAskedAlone, HasBoth, IsAskFor, IsBack, IsHome, IsIdleIn, IsLeft, IsStillAsked, asked_view};

use std::marker::Brand;
use ufs_joint::{Event, Hand, HandTable, Naming};
use ufs_layout::Geometry;
use ufs_model::{Ask, Desc, Entry, PartName};
use ufs_msg::Request;

/// The hand of a client that has asked nothing, out of one that has all parts.
pub fn client_hand<N: Naming>(table: &HandTable<N>, whole: &mut Hand<N>, client: u8) -> Hand<N>
    requires idle { IsIdleIn client whole.old }
    requires closed { (fd : ℕ) → desc_at N.start.tree client fd ≡ None }
    ensures home { IsHome client [] fin.empty result }
    ensures kept { whole.new ≡ kept_of (part.Asked client) (kept_of (part.Client client) whole.old) }
{
    let mut hand = whole.split(table, PartName::Client(client));
    let asked = whole.split(table, PartName::Asked(client));
    hand.join(table, asked);
    hand
}

/// The client asks the request.
pub fn mark_asked<N: Naming, E: Event>(
    table: &HandTable<N>,
    geometry: &Geometry,
    hand: &mut Hand<N>,
    ask: &Ask,
)
    requires formed { IsGeometry geometry.now }
    requires its { geometry.now ≡ N.start.geometry }
    requires leaves { E.leaves ≡ asked_view ask.now.client ask.now.op hand.old }
    requires both { (self : ClientPart) × (before : AskedPart) × HasBoth ask.now.client self before hand.old × (self.asked ≡ None) × (length self.entries < 65536) }
    ensures later { hand.old.seen ≤ hand.new.seen }
    ensures left { (self : ClientPart) (before : AskedPart) → HasBoth ask.now.client self before hand.old → IsLeft ask.now.client ask.now.op self hand.new }
{
    // For the prover alone.
    let _ = ask;
    hand.mark::<E>(table, geometry);
}

/// The request leaves with the client's part. The hand has what was asked.
pub fn send_off<N: Naming>(
    table: &HandTable<N>,
    geometry: &Geometry,
    hand: &mut Hand<N>,
    ask: Ask,
) -> Request<N>
    requires formed { IsGeometry geometry.now }
    requires its { geometry.now ≡ N.start.geometry }
    requires there { IsClientThere N.start ask.client }
    requires low { ask.client < 16 }
    requires few { ask.seq < 65536 }
    requires bounded { IsBounded ask.op }
    requires both { (self : ClientPart) × (before : AskedPart) × HasBoth ask.client self before hand.old × IsAskFor ask self × (self.copies ≡ []) }
    requires sent { (t : PosixTree) → IsAsk t ask → is_own t ask.client ask.op ≡ false }
    ensures away { (self : ClientPart) (before : AskedPart) → HasBoth ask.client self before hand.old
        → (after : AskedPart) × HasAskedAlone ask.client after hand.new × (after.entries ≡ self.entries) × (after.fds ≡ self.fds) × (after.asked ≡ Some ask.op) × (hand.old.seen ≤ after.tickets) }
    ensures request { result.ask ≡ ask }
{
    mark_asked::<N, Brand>(table, geometry, hand, &ask);
    let own = hand.split(table, PartName::Client(ask.client));
    Request::new(own, ask, false)
}

/// The client's part comes by with its request, which is to go on: it is the one that was asked.
pub fn see_by<N: Naming>(
    table: &HandTable<N>,
    hand: &mut Hand<N>,
    request: Request<N>,
) -> Request<N>
    requires away { (before : AskedPart) × (asked : Op) × HasAskedAlone request.ask.client before hand.old × (before.asked ≡ Some asked) }
    ensures away { (before : AskedPart) → HasAskedAlone request.ask.client before hand.old → HasAskedAlone request.ask.client before hand.new }
    ensures still { (before : AskedPart) (asked : Op) → HasAskedAlone request.ask.client before hand.old → before.asked ≡ Some asked → IsStillAsked before request.ask }
    ensures request { result.ask ≡ request.ask }
{
    let (back, ask, leases_back) = request.into_parts();
    hand.join(table, back);
    hand.look(table);
    let own = hand.split(table, PartName::Client(ask.client));
    Request::new(own, ask, leases_back)
}

/// The client's part comes back with the entry that answers what was asked.
pub fn take_home<N: Naming>(
    table: &HandTable<N>,
    hand: &mut Hand<N>,
    back: Hand<N>,
    entry: &Entry,
    desc: Option<Desc>,
)
    requires told { (owner : Option Actor) × (lease : Option Lease) × IsTold N.start entry.now desc owner lease back }
    ensures { (before : AskedPart) (request : Op) → HasAskedAlone entry.now.client before hand.old → before.asked ≡ Some request → ((fd : ℕ) → desc_at N.start.tree entry.now.client fd ≡ None)
        → IsBack before entry.now desc hand.new }
{
    // For the prover alone.
    let _ = entry;
    let _ = desc;
    hand.join(table, back);
    hand.look(table);
}
