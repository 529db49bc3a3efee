// What no clause says: that the calls succeed where there is memory.
ghost use Rattle.std.specs.Prelude.{◌≡◌, [], ◌∷◌, IfOk, codes};
ghost use Rattle.ufs_model.specs.History.{joined, tickets_of};
ghost use Rattle.ufs_model.specs.PathEntries.{pairs_of};
ghost use Rattle.ufs_model.specs.declared.data.PathNode.TheVariants as path_node;

use crate::asserts::{holds, same};
use std::alloc::{AllocGlobal, Global};
use std::process::Abort;
use ufs_base::Memory;
use ufs_model::{
    Actor, Bytes, Entry, EntryList, Errno, NameList, Op, PathEntry, PathNode, PathTree, Reply,
    merge,
};

fn dir(alloc: Global, path: &[u8]) -> Result<PathEntry, Memory>
    ensures { IfOk result (λ e. e ≡ record { path = path.now; node = path_node.Dir }) }
{
    let path = Bytes::from_vec(path.to_vec(alloc)?);
    Ok(PathEntry {
        path,
        node: PathNode::Dir,
    })
}

fn file(alloc: Global, path: &[u8], bytes: &[u8]) -> Result<PathEntry, Memory>
    ensures { IfOk result (λ e. e ≡ record { path = path.now; node = path_node.File bytes.now }) }
{
    let path = Bytes::from_vec(path.to_vec(alloc)?);
    let bytes = Bytes::from_vec(bytes.to_vec(alloc)?);
    Ok(PathEntry {
        path,
        node: PathNode::File(bytes),
    })
}

fn some_paths(alloc: Global) -> Result<Vec<PathEntry>, Memory>
    ensures { IfOk result (λ v. pairs_of v.items ≡ (codes "/", path_node.Dir)
        ∷ (codes "/a", path_node.Dir)
        ∷ (codes "/a/f", path_node.File (codes "abc"))
        ∷ (codes "/g", path_node.File [])
        ∷ []) }
{
    let mut entries = Vec::new(alloc);
    entries.push(dir(alloc, b"/")?)?;
    entries.push(dir(alloc, b"/a")?)?;
    entries.push(file(alloc, b"/a/f", b"abc")?)?;
    entries.push(file(alloc, b"/g", b"")?)?;
    Ok(entries)
}

#[test]
fn the_root_alone_has_one_entry(rt: HostRuntime) {
    let paths = PathTree::root_alone(rt.alloc()).expect(&rt, "memory");
    let entries = paths.into_vec();
    holds(&rt, entries.len() == 1);
    same(&rt, entries[0].path.as_slice(), b"/".as_slice());
}

#[test]
fn a_path_tree_gives_its_entries_back(rt: HostRuntime) {
    let entries = some_paths(rt.alloc()).expect(&rt, "memory");
    holds(&rt, PathTree::are_rising(entries.as_slice()));
    let paths = PathTree::from_vec(entries);
    same(&rt, paths.as_slice().len(), 4);
    let back = paths.into_vec();
    let names = ["/", "/a", "/a/f", "/g"];
    same(&rt, back.len(), names.len());
    for (entry, name) in back.iter().zip(names) {
        same(&rt, entry.path.as_slice(), name.as_bytes());
    }
}

fn closed(ticket: u64, client: u8) -> Entry
    ensures { result.ticket ≡ ticket }
{
    Entry {
        ticket,
        client,
        seq: 0,
        by: Actor::Client(client),
        op: Op::Close { fd: 3 },
        reply: Reply::Refused(Errno::Ebadf),
    }
}

fn some_bytes<R: Abort + AllocGlobal>(rt: &R, bytes: &[u8]) -> Bytes {
    Bytes::from_vec(bytes.to_vec(rt.alloc()).expect(rt, "memory"))
}

fn names_of<R: Abort + AllocGlobal>(rt: &R, texts: &[&str]) -> NameList {
    let mut names = Vec::new(rt.alloc());
    for text in texts {
        names
            .push(some_bytes(rt, text.as_bytes()))
            .expect(rt, "memory");
    }
    holds(rt, NameList::are_rising(names.as_slice()));
    NameList::from_vec(names)
}

#[test]
fn lists_take_what_they_are_given(rt: HostRuntime) {
    same(&rt, names_of(&rt, &["a", "b"]).as_slice().len(), 2);
    let mut history = EntryList::new(rt.alloc());
    history.push(closed(0, 1)).expect(&rt, "memory");
    same(&rt, history.as_slice().len(), 1);
}

fn closes(alloc: Global, client: u8, tickets: &[u64]) -> Result<EntryList, Memory>
    ensures { IfOk result (λ list. tickets_of list ≡ tickets.now) }
{
    let mut list = Vec::new(alloc);
    for ticket in tickets {
        list.push(closed(*ticket, client))?;
    }
    Ok(EntryList::from_vec(list))
}

fn three_lists(alloc: Global) -> Result<Vec<EntryList>, Memory>
    ensures { IfOk result (λ lists. tickets_of (joined lists.items) ≡ 0 ∷ 4 ∷ 5 ∷ 1 ∷ 3 ∷ 2 ∷ []) }
{
    let mut lists = Vec::new(alloc);
    lists.push(closes(alloc, 1, &[0, 4, 5])?)?;
    lists.push(closes(alloc, 2, &[1, 3])?)?;
    lists.push(closes(alloc, 3, &[2])?)?;
    Ok(lists)
}

fn merged(alloc: Global) -> Result<EntryList, Memory> {
    let lists = three_lists(alloc)?;
    merge(alloc, &lists)
}

#[test]
fn three_lists_make_one_history(rt: HostRuntime) {
    let merged = merged(rt.alloc()).expect(&rt, "memory");
    let entries = merged.as_slice();
    same(&rt, entries.len(), 6);
    for (entry, ticket) in entries.iter().zip([0, 1, 2, 3, 4, 5]) {
        same(&rt, entry.ticket, ticket);
    }
}

fn opened<R: Abort + AllocGlobal>(rt: &R) -> Entry {
    Entry {
        ticket: 0,
        client: 1,
        seq: 0,
        by: Actor::Primary,
        op: Op::OpenFile {
            path: some_bytes(rt, b"/f"),
            read: true,
            write: false,
            creat: false,
            excl: false,
            trunc: false,
            append: false,
        },
        reply: Reply::Names(names_of(rt, &["a"])),
    }
}

// Whether it opens `/f`.
fn opens_f(op: &Op) -> bool {
    match op {
        Op::OpenFile { path, .. } => path.as_slice() == b"/f".as_slice(),
        _ => false,
    }
}

// How many names the reply has.
fn count_of(reply: &Reply) -> Option<usize> {
    match reply {
        Reply::Names(names) => Some(names.as_slice().len()),
        _ => None,
    }
}

#[test]
fn an_entry_is_copied(rt: HostRuntime) {
    let entry = opened(&rt);
    let copy = entry.copy(rt.alloc()).expect(&rt, "memory");
    drop(entry);
    holds(&rt, opens_f(&copy.op));
    same(&rt, count_of(&copy.reply), Some(1));
    drop(copy);
}
