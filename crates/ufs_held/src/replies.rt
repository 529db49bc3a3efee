// The entry of a request is drawn with a reply that leaves all as it is.
ghost use Rattle.std.specs.Prelude.{ℕ, ◌≡◌, ◌≤◌};
ghost use Rattle.ufs_file.specs.Hand.{IsEntryOf};
ghost use Rattle.ufs_hand_laws.specs.Draws.{entry_of};
ghost use Rattle.ufs_joint.specs.Draws.{drawn};
ghost use Rattle.ufs_joint.specs.Rule.{MayDrawAny};
ghost use Rattle.ufs_held.specs.Drawn.{fresh_of, replied_to};
ghost use Rattle.ufs_held.specs.Together.{still_of};

use crate::still::draw_still;
use ufs_hand_laws::Fresh;
use ufs_joint::{Hand, HandTable, Naming};
use ufs_model::{Actor, Ask, Entry, Reply};

/// Draws the entry of a request with this reply, which its hand may draw. All cells stay, but that the client has its answer.
pub fn draw_reply<N: Naming>(
    table: &HandTable<N>,
    hand: &mut Hand<N>,
    ask: Ask,
    by: Actor,
    reply: Reply,
) -> Entry
    requires may { MayDrawAny N.start hand.old (replied_to ask by reply) (λ n. still_of hand.old) }
    ensures entry { IsEntryOf ask by result.ticket result }
    ensures replied { result.reply ≡ reply }
    ensures cells { hand.new ≡ drawn result.ticket (fresh_of result) (still_of hand.old) hand.old }
    ensures later { hand.old.seen ≤ result.ticket }
{
    let fresh = reply_to(ask, by, reply);
    let ticket = draw_still(table, hand, &fresh);
    entry_at(ticket, fresh)
}

/// The entry of a request with this reply, before it has a ticket.
pub fn reply_to(ask: Ask, by: Actor, reply: Reply) -> Fresh
    ensures { result ≡ replied_to ask by reply }
{
    let Ask {
        client,
        seq,
        op,
        desc: _,
        fd: _,
        last: _,
    } = ask;
    Fresh {
        client,
        seq,
        by,
        op,
        reply,
    }
}

/// The entry with its ticket.
pub fn entry_at(ticket: u64, fresh: Fresh) -> Entry
    ensures { result ≡ entry_of ticket fresh }
{
    let Fresh {
        client,
        seq,
        by,
        op,
        reply,
    } = fresh;
    Entry {
        ticket,
        client,
        seq,
        by,
        op,
        reply,
    }
}
