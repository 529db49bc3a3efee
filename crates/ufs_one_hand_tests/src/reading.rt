// A client opens the first of two files and reads its byte, over a disk that isn't visible: the code has another byte than the
// history. The hand has both files, or the second is apart in a hand of its own until the end.
ghost use Rattle.std.specs.FinMap as map;
ghost use Rattle.std.specs.Prelude.{◌≡◌, ◌∷◌, [], None, length};
ghost use Rattle.ufs_one_hand.specs.Apart.{FileViews, HasEachFile};
ghost use Rattle.ufs_one_hand.specs.OneHand.{HasSession};
ghost use Rattle.ufs_one_hand_tests.specs.TwoFiles.{file_path, opens, reads, two_files};
ghost use Rattle.ufs_hand_laws.specs.Draws.{entry_of};

use crate::asserts::same;
use std::alloc::AllocGlobal;
use std::marker::Brand;
use std::process::Abort;
use std::rt::HostRuntime;
use ufs_hand::{Naming, Opened, Parts};
use ufs_hand_laws::Fresh;
use ufs_model::{Actor, Bytes, Op, PartName, Reply};
use ufs_one_hand::{OneHand, starts_can_begin};

#[test]
fn another_byte_is_read(rt: HostRuntime) {
    let (opened, path, byte) = (open(&rt), path(&rt), byte(&rt));
    same(&rt, together::<Brand>(opened, path, byte), 2);
}

#[test]
fn another_file_is_apart(rt: HostRuntime) {
    let (opened, path, byte) = (open(&rt), path(&rt), byte(&rt));
    same(&rt, apart::<Brand>(opened, path, byte), 2);
}

fn open<R: Abort + AllocGlobal>(rt: &R) -> Opened
    ensures { result.start ≡ two_files }
{
    starts_can_begin();
    let parts = Parts::picked::<Brand>();
    Opened::open(rt.alloc(), parts).expect(rt, "memory")
}

fn path<R: Abort + AllocGlobal>(rt: &R) -> Bytes
    ensures { result ≡ file_path }
{
    Bytes::from_vec(Vec::from_array(rt.alloc(), [47, 102]).expect(rt, "memory"))
}

fn byte<R: Abort + AllocGlobal>(rt: &R) -> Bytes
    ensures { length result ≡ 1 }
{
    Bytes::from_vec(Vec::from_array(rt.alloc(), [98]).expect(rt, "memory"))
}

// How many entries there are at the end.
fn together<N: Naming>(opened: Opened, path: Bytes, byte: Bytes) -> u64
    requires name { (opened.table ≡ N.table) × (opened.start ≡ N.start) }
    requires start { N.start ≡ two_files }
    requires path { path ≡ file_path }
    requires byte { length byte ≡ 1 }
    ensures entries { result ≡ 2 }
{
    let mut hand = OneHand::<N>::begin(opened);
    let first = open_file(&mut hand, path);
    read_file(&mut hand, first, byte);
    hand.close()
}

// The same, where the second file is apart meanwhile.
fn apart<N: Naming>(opened: Opened, path: Bytes, byte: Bytes) -> u64
    requires name { (opened.table ≡ N.table) × (opened.start ≡ N.start) }
    requires start { N.start ≡ two_files }
    requires path { path ≡ file_path }
    requires byte { length byte ≡ 1 }
    ensures entries { result ≡ 2 }
{
    let mut hand = OneHand::<N>::begin(opened);
    let other = hand.split(PartName::File(1));
    let first = open_file(&mut hand, path);
    read_file(&mut hand, first, byte);
    hand.join(other);
    hand.close()
}

fn open_file<N: Naming>(hand: &mut OneHand<N>, path: Bytes) -> u64
    requires start { N.start ≡ two_files }
    requires session { HasSession N.start [] None hand.old }
    requires path { path ≡ file_path }
    ensures session { HasSession N.start (entry_of result opens ∷ []) None hand.new }
    ensures apart { (files : FileViews) → HasEachFile N.start [] hand.old files → HasEachFile N.start (entry_of result opens ∷ []) hand.new files }
{
    let op = Op::OpenFile {
        path,
        read: true,
        write: false,
        creat: false,
        excl: false,
        trunc: false,
        append: false,
    };
    let fresh = Fresh {
        client: 0,
        seq: 0,
        by: Actor::Primary,
        op,
        reply: Reply::Fd(3),
    };
    hand.ask(0, &fresh.op);
    hand.draw::<Brand>(&fresh)
}

fn read_file<N: Naming>(hand: &mut OneHand<N>, first: u64, byte: Bytes) -> u64
    requires start { N.start ≡ two_files }
    requires session { HasSession N.start (entry_of first opens ∷ []) None hand.old }
    requires file { (files : FileViews) × (map.get files 0 ≡ None) × HasEachFile N.start (entry_of first opens ∷ []) hand.old files }
    requires byte { length byte ≡ 1 }
    ensures session { HasSession N.start (entry_of first opens ∷ entry_of result reads ∷ []) None hand.new }
    ensures apart { (files : FileViews) → HasEachFile N.start (entry_of first opens ∷ []) hand.old files → HasEachFile N.start (entry_of first opens ∷ entry_of result reads ∷ []) hand.new files }
{
    let fresh = Fresh {
        client: 0,
        seq: 1,
        by: Actor::Primary,
        op: Op::Pread { fd: 3, n: 1, at: 0 },
        reply: Reply::Got(byte),
    };
    hand.ask(0, &fresh.op);
    hand.draw::<Brand>(&fresh)
}
