// One client opens a file, gets a lease on it, and reads under the lease. The disk isn't visible.
ghost use Rattle.std.specs.Prelude.{ℕ, ◌≡◌, []};
ghost use Rattle.ufs_hand_laws.specs.FileSession.{small_path};
ghost use Rattle.ufs_hand_tests.specs.Leased.{one_file, opens, reads, lease, opened_by, granted, read_asked};

use std::alloc::{AllocError, Global};
use std::marker::Brand;
use ufs_hand::{Begun, Drawn, Event, Hand, HandTable, Naming, Opened, Parts};
use ufs_hand_laws::Fresh;
use ufs_model::{
    Actor, Bytes, Fact, Lease, Op, PartName, Reply, a_request_keeps_the_tree, a_start_is_a_tree,
};

const STEP: u64 = 1 << 40;

/// How the draw of the read went.
pub fn read_under_a_lease(alloc: Global) -> Result<Drawn, AllocError> {
    a_request_keeps_the_tree();
    a_start_is_a_tree();
    let path = Bytes::from_vec(b"/a".to_vec(alloc)?);
    let nothing = Bytes::from_vec(Vec::new(alloc));
    let none_read = Bytes::from_vec(Vec::new(alloc));
    let open = opening(path);
    let read = reading(none_read);
    let lease = whole_file(nothing);
    let parts = Parts::picked::<Brand>();
    let opened = Opened::open(alloc, parts)?;
    Ok(session::<Brand>(opened, &open, &read, &lease))
}

fn opening(path: Bytes) -> Fresh
    requires { path ≡ small_path }
    ensures { result ≡ opens }
{
    Fresh {
        client: 0,
        seq: 0,
        by: Actor::Primary,
        op: Op::OpenFile {
            path,
            read: true,
            write: true,
            creat: false,
            excl: false,
            trunc: false,
            append: false,
        },
        reply: Reply::Fd(3),
    }
}

fn reading(none: Bytes) -> Fresh
    requires { none ≡ [] }
    ensures { result ≡ reads }
{
    Fresh {
        client: 0,
        seq: 1,
        by: Actor::Client(0),
        op: Op::Pread { fd: 3, n: 4, at: 0 },
        reply: Reply::Got(none),
    }
}

fn whole_file(bytes: Bytes) -> Lease
    requires { bytes ≡ [] }
    ensures { result ≡ lease }
{
    Lease {
        client: 0,
        part: PartName::File(0),
        until: 5,
        fact: Fact::Holds {
            first: 0,
            size: 0,
            bytes,
        },
    }
}

fn session<N: Naming>(opened: Opened, open: &Fresh, read: &Fresh, whole: &Lease) -> Drawn
    requires name { (opened.table ≡ N.table) × (opened.start ≡ N.start) }
    requires start { N.start ≡ one_file }
    requires open { open.now ≡ opens }
    requires read { read.now ≡ reads }
    requires lease { whole.now ≡ lease }
{
    let Begun { table, mut hand } = opened.named::<N>();
    let asked = hand.mark::<Brand>(&table) % STEP;
    let ticket = hand.draw::<Brand>(&table, open);
    grant::<N, Brand>(&table, &mut hand, asked, ticket);
    ask::<N, Brand>(&table, &mut hand, asked, ticket);
    let drawn = hand.draw_local::<Brand>(&table, whole, read);
    hand.close(table);
    drawn
}

fn grant<N: Naming, E: Event>(table: &HandTable<N>, hand: &mut Hand<N>, asked: u64, ticket: u64)
    requires start { N.start ≡ one_file }
    requires view { hand.old ≡ opened_by asked ticket }
    requires event { E.leaves ≡ granted asked ticket }
    ensures { (at : ℕ) × (hand.new ≡ granted asked ticket at) }
{
    hand.mark::<E>(table);
}

fn ask<N: Naming, E: Event>(table: &HandTable<N>, hand: &mut Hand<N>, asked: u64, ticket: u64)
    requires start { N.start ≡ one_file }
    requires view { (at : ℕ) × (hand.old ≡ granted asked ticket at) }
    requires event { E.leaves ≡ read_asked asked ticket }
    ensures { (at : ℕ) × (hand.new ≡ read_asked asked ticket at) }
{
    hand.mark::<E>(table);
}

#[cfg(test)]
mod tests {
    use super::read_under_a_lease;
    use std::alloc::AllocError;
    use std::rt::HostRuntime;
    use ufs_hand::Drawn;

    #[test]
    fn a_read_under_a_lease_is_drawn(rt: HostRuntime) -> Result<(), AllocError> {
        let Drawn::Ticket(ticket) = read_under_a_lease(rt.alloc())? else {
            assert!(rt; false);
            return Ok(());
        };
        assert_eq!(rt; ticket, 1);
        Ok(())
    }
}
