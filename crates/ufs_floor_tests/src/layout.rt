// Vectors of the format, and each call once.
ghost use Rattle.std.specs.Prelude.{◌≡◌, IfSome, IsTrue};
ghost use Rattle.std.specs.List.{list_all};
ghost use Rattle.ufs_layout.specs.Records.{is_record, records_bytes};

use crate::asserts::{holds, same};
use std::alloc::AllocGlobal;
use std::process::Abort;
use ufs_layout::{
    Committed, CommittedList, Dentry, Extent, ExtentList, Geometry, Header, Inode, LogRecord,
    Records, Super, count_fitting, get_dentry, get_header, get_inode, get_records, get_super,
    put_dentry, put_header, put_inode, put_records, put_super, super_version,
};

const SUPER: [u8; 41] = [
    0x75, 0x46, 0x53, 0x49, 0x4d, 0x47, 0x30, 0x31, 1, 0, 0, 0, 0, 1, 0, 0, 0x20, 0, 0, 0, 0x40, 0,
    0, 0, 1, 0, 0, 0, 0, 0, 0, 0, 1, 0, 0, 0, 0, 0, 0, 0, 1,
];

// The birth of `/f`: the root's delta, the file's, and the dentry set without its last 57 zeros.
const BIRTH: [u8; 53] = [
    1, 1, 0, 0, 0, 2, 0, 0x10, 0, 0, 0, 0, 0, 0, 0, 1, 0x0e, 0, 0, 0, 1, 0, 0, 0, 1, 2, 0, 0, 0, 1,
    0, 0, 0, 0, 0, 0, 0, 0, 0, 0, 2, 0x70, 0, 0, 0, 0, 2, 0, 0, 0, 1, 1, 0x66,
];

// The number of the refusal, 0 for none.
fn refusal(blocks: u32, inodes: u32, journal: u32) -> u8 {
    match Geometry::make(blocks, inodes, journal) {
        Ok(_) => 0,
        Err(bad) => bad.number(),
    }
}

// Asserts the number of a geometry's refusal, and tells the geometry where it is another.
fn refuses(rt: &impl Abort, blocks: u32, inodes: u32, journal: u32, number: u8) {
    assert_eq!(rt;
        refusal(blocks, inodes, journal),
        number,
        "{blocks} {inodes} {journal}"
    );
}

#[test]
fn geometries(rt: HostRuntime) {
    let rows = [
        (256, 32, 64, 0),
        (65_536, 4_096, 4_096, 0),
        (63, 15, 63, 1),
        (65_537, 32, 64, 1),
        (64, 15, 63, 2),
        (64, 16, 4_097, 3),
        (64, 512, 64, 4),
    ];
    for (blocks, inodes, journal, number) in rows {
        refuses(&rt, blocks, inodes, journal, number);
    }
}

#[test]
fn superblock_of_a_small_image(rt: HostRuntime) {
    let value = Super {
        version: 1,
        blocks: 256,
        inodes: 32,
        journal: 64,
        epoch: 1,
        next: 1,
        clean: true,
    };
    let mut sector = [7; 512];
    put_super(&mut sector, &value);
    holds(&rt, &sector[..41] == SUPER.as_slice());
    holds(&rt, sector[41..].iter().all(|b| *b == 0));
    same(&rt, get_super(&sector), Some(value));
    sector[511] = 1;
    holds(&rt, get_super(&sector).is_none());
    same(&rt, super_version(&sector), Some(1));
}

fn an_inode_is_read_back(rt: &impl Abort) {
    let extents = [Extent {
        start: 14,
        length: 1,
    }];
    let inode = Inode::from_extents(2, &extents, 4_096, 9);
    let mut sector = [7; 512];
    put_inode(&mut sector, &inode);
    holds(rt, &sector[..4] == [2, 1, 1, 0].as_slice());
    holds(rt, &sector[64..72] == [14, 0, 0, 0, 1, 0, 0, 0].as_slice());
    holds(rt, get_inode(&sector) == Some(inode));
}

fn a_dentry_is_read_back(rt: &impl Abort) {
    let dentry = Dentry::from_name(2, 1, b"f");
    let mut slot = [7; 64];
    put_dentry(&mut slot, &dentry);
    holds(rt, get_dentry(&slot) == Some(dentry));
}

fn a_header_is_read_back(rt: &impl Abort) {
    let header = Header {
        epoch: 1,
        txn: 1,
        index: 0,
        kind: 1,
        used: 110,
    };
    let mut head = [7; 24];
    put_header(&mut head, &header);
    holds(rt, &head[14..18] == [1, 0, 110, 0].as_slice());
    holds(rt, get_header(&head) == Some(header));
}

#[test]
fn forms_are_read_back(rt: HostRuntime) {
    an_inode_is_read_back(&rt);
    a_dentry_is_read_back(&rt);
    a_header_is_read_back(&rt);
}

// The records that these bytes spell, if any.
fn found<R: Abort + AllocGlobal>(rt: &R, content: &[u8; 110]) -> Option<Records>
    ensures spelling { IfSome result (λ records. content.now ≡ records_bytes records) }
    ensures form { IfSome result (λ records. IsTrue (list_all is_record records)) }
{
    get_records(rt.alloc(), content).expect(rt, "memory")
}

fn places_f(record: Option<&LogRecord>) -> bool {
    match record {
        Some(LogRecord::Place { sector, dentry, .. }) => {
            *sector == 112 && dentry.name_bytes() == b"f".as_slice()
        }
        _ => false,
    }
}

#[test]
fn records_of_a_birth(rt: HostRuntime) {
    let mut content = [0; 110];
    content[..53].copy_from_slice(&BIRTH);
    let records = found(&rt, &content).expect(&rt, "the birth is no list of records");
    let list = records.as_slice();
    same(&rt, list.len(), 3);
    same(&rt, count_fitting(list, 109), 2);
    holds(&rt, places_f(list.last()));
    let mut again = [7; 110];
    same(&rt, put_records(&mut again, list), 110);
    holds(&rt, again == content);
    content[0] = 4;
    holds(&rt, found(&rt, &content).is_none());
    let all = vec![in rt.alloc(); Committed { number: 1, records }].expect(&rt, "memory");
    let _all = CommittedList::from_vec(all);
}

#[test]
fn list_of_extents(rt: HostRuntime) {
    let extents = [Extent {
        start: 14,
        length: 1,
    }];
    let list = ExtentList::from_vec(extents.to_vec(rt.alloc()).expect(&rt, "memory"));
    same(&rt, list.as_slice().len(), 1);
    let records = Records::from_vec(Vec::new(rt.alloc()));
    holds(&rt, records.as_slice().is_empty());
    same(&rt, list.into_vec().len(), 1);
}
