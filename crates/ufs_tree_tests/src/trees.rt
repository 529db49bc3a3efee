// What no clause says: that the calls succeed where there is memory.
ghost use Rattle.std.specs.Prelude.{◌≡◌, ◌≤◌, ◌<◌, ◌+◌, ◌^◌, length};
ghost use Rattle.ufs_model.specs.Bounds.{IsBounded, max_transfer};

use crate::asserts::holds;
use std::alloc::AllocGlobal;
use std::process::Abort;
use ufs_model::{Actor, Bytes, Entry, Excuse, Op, PathTree, Reply};
use ufs_tree::Tree;

fn some_bytes<R: Abort + AllocGlobal>(rt: &R, bytes: &[u8]) -> Bytes
    ensures { length result ≡ length bytes.now }
{
    Bytes::from_vec(bytes.to_vec(rt.alloc()).expect(rt, "memory"))
}

fn opening<R: Abort + AllocGlobal>(rt: &R) -> Op
    ensures { IsBounded result }
{
    Op::OpenFile {
        path: some_bytes(rt, b"/f"),
        read: true,
        write: true,
        creat: true,
        excl: false,
        trunc: false,
        append: false,
    }
}

fn writing<R: Abort + AllocGlobal>(rt: &R, fd: u64, bytes: &[u8]) -> Op
    requires { length bytes.now ≤ max_transfer }
    ensures { IsBounded result }
{
    Op::Write {
        fd,
        bytes: some_bytes(rt, bytes),
    }
}

fn making<R: Abort + AllocGlobal>(rt: &R, path: &[u8]) -> Op
    ensures { IsBounded result }
{
    Op::Mkdir {
        path: some_bytes(rt, path),
    }
}

fn at_root<R: Abort + AllocGlobal>(rt: &R) -> Tree
    ensures { result.next ≡ 0 }
{
    let paths = PathTree::root_alone(rt.alloc()).expect(rt, "memory");
    Tree::start(rt.alloc(), &paths).expect(rt, "memory")
}

// Whether the tree takes the reply to the request. With the clauses that the tests rest on alone.
fn told(rt: &impl Abort, tree: &mut Tree, op: Op, reply: Reply) -> bool
    requires bounded { IsBounded op }
    requires numbers { tree.old.next < 2 ^ 31 }
    ensures { tree.new.next ≤ tree.old.next + 1 }
{
    let entry = Entry {
        ticket: 0,
        client: 1,
        seq: 0,
        by: Actor::Primary,
        op,
        reply,
    };
    let told = tree.legal_step(&entry).expect(rt, "memory");
    drop(entry);
    told
}

#[test]
fn an_open_is_told_rightly_or_wrongly(rt: HostRuntime) {
    let mut tree = at_root(&rt);
    let excuse = Reply::Excused(Excuse::Inodes);
    holds(&rt, told(&rt, &mut tree, opening(&rt), excuse));
    holds(&rt, !told(&rt, &mut tree, opening(&rt), Reply::Fd(4)));
    holds(&rt, told(&rt, &mut tree, opening(&rt), Reply::Fd(3)));
}

// A tree in which descriptor 3 is open for `/f`.
fn with_file<R: Abort + AllocGlobal>(rt: &R) -> Tree
    ensures { result.next ≤ 1 }
{
    let mut tree = at_root(rt);
    let _opened = told(rt, &mut tree, opening(rt), Reply::Fd(3));
    tree
}

// Whether the tree takes these bytes as what a read of the whole file gives.
fn reads<R: Abort + AllocGlobal>(rt: &R, tree: &mut Tree, bytes: &[u8]) -> bool
    requires { tree.old.next < 2 ^ 31 }
    ensures { tree.new.next ≤ tree.old.next + 1 }
{
    let read = Op::Pread { fd: 3, n: 9, at: 0 };
    told(rt, tree, read, Reply::Got(some_bytes(rt, bytes)))
}

#[test]
fn a_write_is_told_rightly_or_wrongly(rt: HostRuntime) {
    let mut tree = with_file(&rt);
    holds(
        &rt,
        !told(&rt, &mut tree, writing(&rt, 3, b"ab"), Reply::Count(3)),
    );
    holds(
        &rt,
        told(&rt, &mut tree, writing(&rt, 3, b"ab"), Reply::Count(2)),
    );
    holds(&rt, reads(&rt, &mut tree, b"ab"));
    holds(&rt, !reads(&rt, &mut tree, b"ba"));
}

// Whether a write of two bytes to a descriptor, with nothing written before, may have this excuse.
fn fits_a_write<R: Abort + AllocGlobal>(rt: &R, fd: u64, excuse: Excuse) -> bool {
    let mut tree = with_file(rt);
    told(
        rt,
        &mut tree,
        writing(rt, fd, b"ab"),
        Reply::Excused(excuse),
    )
}

#[test]
fn an_excuse_of_blocks_tells_what_is_needed(rt: HostRuntime) {
    for (fd, need, had, fits) in [
        (3, 1, 0, true),
        (3, 2, 0, false),
        (3, 1, 1, false),
        (4, 1, 0, false),
    ] {
        assert!(rt; fits_a_write(&rt, fd, Excuse::Blocks { need, had }) == fits);
    }
}

#[test]
fn an_excuse_of_extents_is_above_the_most_by_the_blocks(rt: HostRuntime) {
    for (need, fits) in [(56, false), (57, true), (58, false)] {
        assert!(rt; fits_a_write(&rt, 3, Excuse::Extents { need }) == fits);
    }
}

// A directory needs a block for a name only where its entries are a multiple of 64.
#[test]
fn a_name_needs_a_block_where_the_directory_may_be_full(rt: HostRuntime) {
    let mut tree = at_root(&rt);
    let excuse = Reply::Excused(Excuse::Blocks { need: 1, had: 0 });
    holds(&rt, told(&rt, &mut tree, making(&rt, b"/a"), excuse));
    holds(&rt, told(&rt, &mut tree, making(&rt, b"/a"), Reply::Done));
    let excuse = Reply::Excused(Excuse::Blocks { need: 1, had: 0 });
    holds(&rt, !told(&rt, &mut tree, making(&rt, b"/b"), excuse));
}
