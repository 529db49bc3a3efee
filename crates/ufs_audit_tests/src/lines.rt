// Lines, each read alone.
use crate::asserts::same;
use ufs_lines::{
    Told, Why, a_line_tells_one_thing, behind, is_reply_line, place_of, read_told, same_bytes,
    without_last,
};

// A ticket, a line, and whose request it tells.
const TOLD: [(u64, &str, Option<(u8, u32)>); 9] = [
    (0, "# 0 0.0 by p", Some((0, 0))),
    (7, "# 7 255.4294967295 by c255", Some((255, 4_294_967_295))),
    (3, "# 3 1.2 by w0 via p,w255 excuse memory", Some((1, 2))),
    (3, "# 3 1.2 by p excuse blocks 4096 4053", Some((1, 2))),
    (3, "# 3 1.2 by p excuse extents 57 56", Some((1, 2))),
    (3, "# 3 1.2 by p excuse extents 57 57", None),
    (3, "# 3 1.2 by p excuse device", None),
    (3, "# 4 1.2 by p", None),
    (3, "# 3 1.2 by p\n", None),
];

// A line of a reply to the second request of client 0, and whether it is one.
const REPLIES: [(&str, bool); 10] = [
    ("0.1 ok\n", true),
    ("0.1 fd 66\n", true),
    ("0.1 data -\n", true),
    ("0.1 names 2 a b c\n", true),
    ("0.1 err ENOSPC\n", true),
    ("0.1 err EAGAIN\n", false),
    ("0.1 data \n", false),
    ("0.1 data 0f0\n", false),
    ("0.2 ok\n", false),
    ("0.1 ok", false),
];

fn request_of(told: &Told) -> (u8, u32) {
    (told.client, told.seq)
}

#[test]
fn each_line_is_read(rt: HostRuntime) {
    a_line_tells_one_thing();
    for (ticket, line, wanted) in &TOLD {
        let told = read_told(rt.alloc(), *ticket, line.as_bytes()).expect(&rt, "memory");
        same(&rt, line, told.as_ref().map(request_of), *wanted);
    }
    for (line, wanted) in &REPLIES {
        let is = is_reply_line(rt.alloc(), 0, 1, line.as_bytes()).expect(&rt, "memory");
        same(&rt, line, is, *wanted);
    }
}

// Whether want of memory is told.
fn is_starved(told: &Told) -> bool {
    matches!(told.why, Why::Starved)
}

#[test]
fn want_of_memory_is_told_apart(rt: HostRuntime) {
    let line = b"# 0 0.0 by p excuse memory".as_slice();
    let told = read_told(rt.alloc(), 0, line).expect(&rt, "memory");
    same(&rt, "starved", told.as_ref().map(is_starved), Some(true));
}

#[test]
fn a_text_is_cut(rt: HostRuntime) {
    let text = b"a.b.".as_slice();
    same(&rt, "place", place_of(text, b'.'), Some(1));
    same(&rt, "behind", behind(text, b"a."), Some(b"b.".as_slice()));
    same(
        &rt,
        "front",
        without_last(text, b'.'),
        Some(b"a.b".as_slice()),
    );
    same(&rt, "end", without_last(text, b'b'), None);
    same(&rt, "bytes", same_bytes(text, b"a.b"), false);
}
