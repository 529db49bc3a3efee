// Which leases stand against a change.
ghost use Rattle.std.specs.Prelude.{◌<◌, ◌^◌, IfOk};

use crate::asserts::{holds, same};
use std::alloc::{AllocError, AllocGlobal, Global};
use std::process::Abort;
use ufs_lease::LeaseTable;
use ufs_model::{Bytes, Fact, Lease, PartName};

fn read_lease(alloc: Global, client: u8, until: u32) -> Lease
    requires { until < 2 ^ 24 }
    ensures { result.until < 2 ^ 24 }
{
    Lease {
        client,
        part: PartName::File(1),
        until,
        fact: Fact::Holds {
            first: 0,
            size: 0,
            bytes: Bytes::from_vec(Vec::new(alloc)),
        },
    }
}

fn name_lease(alloc: Global, client: u8, until: u32, path: &[u8]) -> Result<Lease, AllocError>
    requires { until < 2 ^ 24 }
    ensures { IfOk result (λ lease. lease.until < 2 ^ 24) }
{
    Ok(Lease {
        client,
        part: PartName::Names,
        until,
        fact: Fact::Resolves {
            path: Bytes::from_vec(path.to_vec(alloc)?),
            file: 1,
        },
    })
}

// Grants a lease to read.
fn grant<R: Abort + AllocGlobal>(rt: &R, table: &mut LeaseTable, client: u8, until: u32)
    requires { until < 2 ^ 24 }
{
    let lease = read_lease(rt.alloc(), client, until);
    table.grant(lease).expect(rt, "memory");
}

// A client, a time, and whether its change waits then, where client 1 has a lease until 9 and client 2 until 5.
const WAITS: [(u8, u32, bool); 7] = [
    (0, 0, true),
    (0, 8, true),
    (0, 9, false),
    (1, 4, true),
    (1, 5, false),
    (2, 5, true),
    (2, 9, false),
];

#[test]
fn a_change_waits_for_the_leases_of_others(rt: HostRuntime) {
    let mut table = LeaseTable::new(rt.alloc());
    same(&rt, table.earliest(), None);
    holds(&rt, !table.blocks_change(0, 0));
    grant(&rt, &mut table, 1, 9);
    grant(&rt, &mut table, 2, 5);
    for (client, clock, blocked) in WAITS {
        same(&rt, table.blocks_change(client, clock), blocked);
    }
    holds(&rt, !table.blocks_path(0, b"/f", 0));
    same(&rt, table.earliest(), Some(5));
    table.give_back(2);
    same(&rt, table.earliest(), Some(9));
    holds(&rt, table.blocks_change(2, 5));
    holds(&rt, !table.blocks_change(1, 5));
}

// Asserts whether a lease on one path stands against a removal of the other.
fn stands<R: Abort + AllocGlobal>(rt: &R, leased: &[u8], path: &[u8], blocked: bool) {
    let mut table = LeaseTable::new(rt.alloc());
    let lease = name_lease(rt.alloc(), 0, 5, leased).expect(rt, "memory");
    table.grant(lease).expect(rt, "memory");
    same(rt, table.blocks_path(1, path, 4), blocked);
    holds(rt, !table.blocks_path(1, path, 5));
    holds(rt, !table.blocks_path(0, path, 4));
}

#[test]
fn a_removal_waits_for_the_leases_on_its_path_and_below(rt: HostRuntime) {
    let rows: [(&[u8], &[u8], bool); 9] = [
        (b"/f", b"/f", true),
        (b"/d/f", b"/d", true),
        (b"//d///f", b"/d/f", true),
        (b"/d/f", b"//d", true),
        (b"/d/f", b"/", true),
        (b"/d", b"/d/f", false),
        (b"/df", b"/d", false),
        (b"/d/f", b"/f", false),
        (b"/d/f", b"/d/g", false),
    ];
    for (leased, path, blocked) in rows {
        stands(&rt, leased, path, blocked);
    }
}

// A lease as the walk keeps it: its client, and when it ends.
type Plain = (u8, u32);

// How many leases of other clients end behind a time.
fn count_against(leases: &[Plain], client: u8, clock: u32) -> usize {
    leases
        .iter()
        .filter(|lease| lease.0 != client && clock < lease.1)
        .count()
}

// Grants a lease or gives a client's back, as the word has it, in both.
fn turn<R: Abort + AllocGlobal>(
    rt: &R,
    table: &mut LeaseTable,
    plain: &mut Vec<Plain>,
    word: u32,
) -> u8 {
    let client = ((word >> 24) % 4) as u8;
    let until = (word >> 16) % 16;
    if (word >> 28) % 4 == 0 {
        table.give_back(client);
        plain.retain(|lease| lease.0 != client);
    } else {
        grant(rt, table, client, until);
        plain.push((client, until)).expect(rt, "memory");
    }
    client
}

fn agree<R: Abort>(rt: &R, table: &LeaseTable, plain: &[Plain], client: u8) {
    for clock in 0..16u32 {
        let against = count_against(plain, client, clock);
        same(rt, table.blocks_change(client, clock), against > 0);
    }
    let earliest = plain.iter().map(|lease| lease.1).min();
    same(rt, table.earliest(), earliest);
}

#[test]
fn a_walk_agrees_with_a_plain_list(rt: HostRuntime) {
    let mut table = LeaseTable::new(rt.alloc());
    let mut plain: Vec<Plain> = Vec::new(rt.alloc());
    let mut word: u32 = 1;
    for _ in 0..300 {
        word = word.wrapping_mul(1_664_525).wrapping_add(1_013_904_223);
        let client = turn(&rt, &mut table, &mut plain, word);
        agree(&rt, &table, plain.as_slice(), client);
    }
}
