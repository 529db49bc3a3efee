// A client answers a request itself.
ghost use Rattle.std.specs.Prelude.{ℕ, ◌≡◌, ◌<◌, ◌≤◌, ◌++◌, ◌∷◌, [], None, false, true, length};
ghost use Rattle.ufs_baton.specs.Baton.{IsDrawnWith};
ghost use Rattle.ufs_client.specs.Own.{IsOwnAnswer, is_own};
ghost use Rattle.ufs_layout.specs.Areas.{IsGeometry};
ghost use Rattle.ufs_model.specs.Asks.{IsAsk, fd_told};
ghost use Rattle.ufs_model.specs.History.{is_excused};
ghost use Rattle.ufs_model.specs.PosixTree.{PosixTree};
ghost use Rattle.ufs_model.specs.Posix.{posix};
ghost use Rattle.ufs_model.specs.declared.data.Entry.{Entry};
ghost use Rattle.std.specs.Vec.{vec_capacity, vec_len};
ghost use Rattle.ufs_fds.specs.Descriptors.{AreInRange, AreOf};
ghost use Rattle.ufs_caller.specs.Callers.{entries_in};
ghost use Rattle.ufs_joint.specs.Draws.{drawn};
ghost use Rattle.ufs_joint.specs.Rule.{MayDrawAny};
ghost use Rattle.ufs_hand_laws.specs.Parts.{AskedPart, ClientPart};
ghost use Rattle.ufs_caller.specs.Hands.{HasBoth, IsAskFor, IsHome};
ghost use Rattle.ufs_caller.specs.Own.{IsMadeBy, left_by, with_desc};
ghost use Rattle.ufs_caller.specs.Tied.{AreMadeThere};

use crate::hands::mark_asked;
use crate::{Told, Via};
use std::alloc::Global;
use std::marker::Brand;
use ufs_baton::Baton;
use ufs_client::{OwnAnswer, keep};
use ufs_fds::FdTable;
use ufs_hand_laws::Fresh;
use ufs_joint::{Hand, HandTable, Leaving, Naming, beside_law, draw_law};
use ufs_layout::Geometry;
use ufs_model::{Actor, Ask, Desc, Entry};

/// The client answers the request itself: its transcript has the entry, and its descriptors go on as POSIX's. The entry is behind all
/// that the baton has seen, and then the baton has seen it.
pub fn answer_itself<N: Naming>(
    table: &HandTable<N>,
    baton: &mut Baton<N>,
    geometry: &Geometry,
    hand: &mut Hand<N>,
    fds: &mut FdTable,
    told: &mut Vec<Told>,
    ask: Ask,
    answer: OwnAnswer,
    alloc: Global,
)
    requires formed { IsGeometry geometry.now }
    requires its { geometry.now ≡ N.start.geometry }
    requires low { ask.client < 16 }
    requires few { ask.seq < 65536 }
    requires room { vec_len told.old < vec_capacity told.old }
    requires home { IsHome ask.client (entries_in told.old.items) fds.old hand.old }
    requires ranged { AreInRange fds.old }
    requires seq { ask.seq ≡ length told.old.items }
    requires next { (t : PosixTree) → AreOf t.fds ask.client fds.old → IsAsk t ask }
    requires own { (t : PosixTree) → IsAsk t ask → is_own t ask.client ask.op ≡ true }
    requires posix { (t : PosixTree) → IsAsk t ask → IsOwnAnswer t ask.client ask.op answer.reply answer.desc }
    requires plain { is_excused answer.reply ≡ false }
    requires made { AreMadeThere N.start ask.client told.old.items }
    ensures home { IsHome ask.client (entries_in told.new.items) fds.new hand.new }
    ensures ranged { AreInRange fds.new }
    ensures told { (entry : Entry) × (told.new.items ≡ told.old.items ++ record { entry = entry; via = [] } ∷ []) × IsMadeBy ask answer.reply entry × (hand.old.seen ≤ entry.ticket) × (entry.ticket < hand.new.seen) × IsDrawnWith baton.old baton.new entry }
    ensures fds { (t : PosixTree) → AreOf t.fds ask.client fds.old → AreOf (posix t ask.client ask.op).0.fds ask.client fds.new }
    ensures made { AreMadeThere N.start ask.client told.new.items }
    ensures capacity { vec_capacity told.new ≡ vec_capacity told.old }
{
    let desc = answer.desc;
    baton.tell(table, hand);
    let entry = draw_own(table, geometry, hand, ask, answer);
    baton.see(table, hand);
    keep(fds, &entry, desc);
    told.push_reserved(Told {
        entry,
        via: Via::new(alloc),
    });
}

// The entry of a request that the client answers itself.
fn draw_own<N: Naming>(
    table: &HandTable<N>,
    geometry: &Geometry,
    hand: &mut Hand<N>,
    ask: Ask,
    answer: OwnAnswer,
) -> Entry
    requires formed { IsGeometry geometry.now }
    requires its { geometry.now ≡ N.start.geometry }
    requires low { ask.client < 16 }
    requires few { ask.seq < 65536 }
    requires both { (self : ClientPart) × (before : AskedPart) × HasBoth ask.client self before hand.old × IsAskFor ask self }
    requires own { (t : PosixTree) → IsAsk t ask → is_own t ask.client ask.op ≡ true }
    requires posix { (t : PosixTree) → IsAsk t ask → IsOwnAnswer t ask.client ask.op answer.reply answer.desc }
    requires plain { is_excused answer.reply ≡ false }
    ensures made { IsMadeBy ask answer.reply result }
    ensures later { hand.old.seen ≤ result.ticket }
    ensures within { result.ticket < hand.new.seen }
    ensures hand { (self : ClientPart) (before : AskedPart) → HasBoth ask.client self before hand.old
        → (after : AskedPart) × HasBoth ask.client (record self { entries = self.entries ++ result ∷ []; fds = with_desc self.fds (fd_told ask.op answer.reply) answer.desc; asked = None }) after hand.new }
{
    draw_law();
    beside_law();
    mark_asked::<N, Brand>(table, geometry, hand, &ask);
    let Ask {
        client,
        seq,
        op,
        desc: _,
        fd: _,
        last: _,
    } = ask;
    let OwnAnswer { reply, desc } = answer;
    let fresh = Fresh {
        client,
        seq,
        by: Actor::Client(client),
        op,
        reply,
    };
    let ticket = draw_with::<N, Brand>(table, hand, &fresh, desc);
    let Fresh {
        client,
        seq,
        by,
        op,
        reply,
    } = fresh;
    Entry {
        ticket,
        client,
        seq,
        by,
        op,
        reply,
    }
}

// Of all that the hand has, the draw changes the request's descriptor alone.
fn draw_with<N: Naming, L: Leaving>(
    table: &HandTable<N>,
    hand: &mut Hand<N>,
    fresh: &Fresh,
    desc: Option<Desc>,
) -> u64
    requires leaves { L.leaves ≡ left_by fresh.now desc hand.old }
    requires may { MayDrawAny N.start hand.old fresh.now (left_by fresh.now desc hand.old) }
    ensures later { hand.old.seen ≤ result }
    ensures cells { hand.new ≡ drawn result fresh.now (left_by fresh.now desc hand.old result) hand.old }
{
    // For the prover alone.
    let _ = desc;
    hand.draw::<L>(table, fresh)
}
