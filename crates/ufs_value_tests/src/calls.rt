// What no clause says: that the calls which take memory succeed where there is some. And a row of POSIX for each rule.
use crate::asserts::{holds, same};
use std::alloc::AllocGlobal;
use std::process::Abort;
use ufs_calls::{
    FileMap, MAX_SIZE, Mode, count_from, dir_refusal, fd_named, file_named, file_of, is_dir,
    is_file, is_past, list_refusal, make_refusal, moved_by, open_refusal, own_refusal, part,
    place_of, replace_refusal, rmdir_refusal, seek_to, size_refusal, stat_refusal, text,
    text_refusal, unlink_refusal,
};
use ufs_model::{Bytes, Desc, Errno, Node, Op, Whence};

#[test]
fn a_file_is_written_cut_and_removed(rt: HostRuntime) {
    let alloc = rt.alloc();
    let mut files = FileMap::new(alloc);
    let bytes = some_bytes(&rt, "ab");
    files.insert(7, bytes).expect(&rt, "memory");
    files.write(alloc, 7, 3, b"cd").expect(&rt, "memory");
    same(&rt, files.bytes(7), b"ab\0cd".as_slice());
    files.resize(alloc, 7, 4).expect(&rt, "memory");
    same(&rt, files.bytes(7), b"ab\0c".as_slice());
    files.remove(7);
    same(&rt, files.bytes(7), b"".as_slice());
}

fn some_bytes<R: Abort + AllocGlobal>(rt: &R, text: &str) -> Bytes {
    Bytes::from_vec(text.as_bytes().to_vec(rt.alloc()).expect(rt, "memory"))
}

fn opening<R: Abort + AllocGlobal>(rt: &R, path: &str, excl: bool) -> Op {
    Op::OpenFile {
        path: some_bytes(rt, path),
        read: true,
        write: false,
        creat: false,
        excl,
        trunc: false,
        append: false,
    }
}

// Asserts how an opening to read is refused, and what it says of itself.
fn open_is_refused<R: Abort + AllocGlobal>(
    rt: &R,
    path: &str,
    excl: bool,
    fd: u32,
    want: Option<Errno>,
) {
    let open = opening(rt, path, excl);
    same(rt, own_refusal(&open, None, fd), want);
    let mode = Mode::of(&open).expect(rt, "no mode");
    same(rt, mode.is_allowed(), !excl);
    holds(rt, mode.desc(Some(5)).read);
    holds(rt, !mode.desc(None).write);
    same(rt, fd_named(&open), None);
    drop(open);
}

#[test]
fn an_open_is_refused_by_its_flags_then_for_want_of_a_descriptor_then_by_its_path(rt: HostRuntime) {
    open_is_refused(&rt, "", true, 0, Some(Errno::Einval));
    open_is_refused(&rt, "", false, 0, Some(Errno::Emfile));
    open_is_refused(&rt, "", false, 3, Some(Errno::Enoent));
    open_is_refused(&rt, "/f", false, 3, None);
}

// Asserts how a request is refused on a directory that is open to read, and which descriptor it names.
fn is_refused_on_dir(rt: &impl Abort, request: Op, want: Option<Errno>, named: Option<u64>) {
    let desc = Desc {
        file: None,
        at: 2,
        read: true,
        write: false,
        append: false,
    };
    same(rt, own_refusal(&request, Some(desc), 0), want);
    same(rt, fd_named(&request), named);
    holds(rt, Mode::of(&request).is_none());
    drop(request);
}

#[test]
fn a_request_on_a_directory_opened_to_read(rt: HostRuntime) {
    is_refused_on_dir(&rt, Op::Close { fd: 3 }, None, Some(3));
    let read = Op::Read { fd: 4, n: 1 };
    is_refused_on_dir(&rt, read, Some(Errno::Eisdir), Some(4));
    let trunc = Op::Trunc { fd: 5, size: 0 };
    is_refused_on_dir(&rt, trunc, Some(Errno::Einval), Some(5));
    is_refused_on_dir(&rt, Op::Sync, None, None);
    let fsync = Op::Fsync { fd: 3 };
    same(&rt, own_refusal(&fsync, None, 0), Some(Errno::Ebadf));
    drop(fsync);
}

// What stands there, and the refusals on the way, of a making, a `stat`, an `unlink` and a `list`.
type Standing = (
    Option<Node>,
    Option<Errno>,
    Option<Errno>,
    Option<Errno>,
    Option<Errno>,
    Option<Errno>,
);

const STANDING: [Standing; 3] = [
    (
        None,
        Some(Errno::Enoent),
        None,
        Some(Errno::Enoent),
        Some(Errno::Enoent),
        Some(Errno::Enoent),
    ),
    (
        Some(Node::Dir),
        None,
        Some(Errno::Eexist),
        None,
        Some(Errno::Eperm),
        None,
    ),
    (
        Some(Node::File(5)),
        Some(Errno::Enotdir),
        Some(Errno::Eexist),
        None,
        None,
        Some(Errno::Enotdir),
    ),
];

#[test]
fn what_stands_at_the_end_of_a_path_refuses(rt: HostRuntime) {
    for (node, on_way, make, stat, unlink, list) in &STANDING {
        same(&rt, dir_refusal(*node), *on_way);
        same(&rt, make_refusal(*node), *make);
        same(&rt, stat_refusal(*node), *stat);
        same(&rt, unlink_refusal(*node), *unlink);
        same(&rt, list_refusal(*node), *list);
    }
    same(&rt, file_named(None, 9), Some(9));
    same(&rt, file_named(Some(Node::Dir), 9), None);
}

const FILE: Option<Node> = Some(Node::File(5));

const DIR: Option<Node> = Some(Node::Dir);

fn opens_and_removals(rt: &impl Abort) {
    let mode = Mode {
        read: true,
        write: true,
        creat: false,
        excl: false,
        trunc: false,
        append: false,
    };
    same(rt, open_refusal(FILE, mode), None);
    same(rt, open_refusal(DIR, mode), Some(Errno::Eisdir));
    same(rt, open_refusal(None, mode), Some(Errno::Enoent));
    same(rt, rmdir_refusal(true, DIR, true), Some(Errno::Ebusy));
    same(rt, rmdir_refusal(false, DIR, true), Some(Errno::Enotempty));
    same(rt, rmdir_refusal(false, DIR, false), None);
}

// What is renamed, what stands there, whether the new name is below the old, whether both are one, whether entries
// stand there, and the refusal.
type Replacing = (Option<Node>, Option<Node>, bool, bool, bool, Option<Errno>);

const REPLACING: [Replacing; 5] = [
    (DIR, None, true, false, false, Some(Errno::Einval)),
    (FILE, DIR, false, false, false, Some(Errno::Eisdir)),
    (DIR, FILE, false, false, false, Some(Errno::Enotdir)),
    (DIR, DIR, false, false, true, Some(Errno::Enotempty)),
    (DIR, DIR, false, true, true, None),
];

#[test]
fn a_name_is_opened_removed_or_replaced(rt: HostRuntime) {
    holds(&rt, is_file(FILE));
    holds(&rt, is_dir(DIR));
    same(&rt, file_of(FILE), Some(5));
    opens_and_removals(&rt);
    for (old, new, below, same_node, full, want) in &REPLACING {
        let found = replace_refusal(*old, *new, *below, *same_node, *full);
        same(&rt, found, *want);
    }
}

fn places(rt: &impl Abort) {
    let desc = Desc {
        file: Some(5),
        at: 2,
        read: true,
        write: true,
        append: true,
    };
    same(rt, place_of(desc, 6), 6);
    same(rt, moved_by(2, -2), Some(0));
    same(rt, moved_by(2, -3), None);
    same(rt, seek_to(Whence::End, -1, desc, 6), Some(5));
    same(rt, seek_to(Whence::Cur, 3, desc, 6), Some(5));
    same(rt, size_refusal(true), Some(Errno::Efbig));
    same(rt, size_refusal(false), None);
}

#[test]
fn places_parts_and_texts(rt: HostRuntime) {
    places(&rt);
    let path = some_bytes(&rt, "/a//b");
    holds(&rt, text_refusal(&path).is_none());
    let whole = text(rt.alloc(), &path).expect(&rt, "memory");
    same(&rt, whole.whole(), b"/a/b".as_slice());
    holds(&rt, !is_past(MAX_SIZE - 5, &path));
    holds(&rt, is_past(MAX_SIZE - 4, &path));
    same(&rt, count_from(b"abcdef", 4, 9), 2);
    let bytes = part(rt.alloc(), b"abcdef", 1, 3).expect(&rt, "memory");
    same(&rt, bytes.as_slice(), b"bcd".as_slice());
}
