// What no clause says: that a path is read where there is memory, and what the calls answer then.
use crate::asserts::{holds, same};
use std::alloc::{AllocError, AllocGlobal, Global};
use std::process::Abort;
use ufs_base::Memory;
use ufs_model::Errno;
use ufs_path::{PathFault, path_fault, read_path};

fn repeated(alloc: Global, piece: &[u8], count: usize) -> Result<Vec<u8>, AllocError> {
    let mut text = Vec::new(alloc);
    for _ in 0..count {
        text.extend_from_slice(piece)?;
    }
    Ok(text)
}

fn a_slash_and(alloc: Global, count: usize) -> Result<Vec<u8>, AllocError> {
    let mut text = vec![in alloc; b'/']?;
    text.extend_from_slice(repeated(alloc, b"a", count)?.as_slice())?;
    Ok(text)
}

fn is_refused<R: Abort + AllocGlobal>(rt: &R, path: &[u8], fault: PathFault, errno: Errno) {
    same(rt, path_fault(path), Some(fault));
    let answer = read_path(rt.alloc(), path).err().expect(rt, "it is read");
    same(rt, answer, fault);
    same(rt, answer.errno(), Some(errno));
}

#[test]
fn long_names_and_long_paths_are_refused(rt: HostRuntime) {
    let alloc = rt.alloc();
    let fits = a_slash_and(alloc, 58).expect(&rt, "memory");
    let text = read_path(alloc, fits.as_slice()).expect(&rt, "refused");
    same(&rt, text.len(), 1);
    same(&rt, text.whole(), fits.as_slice());
    let name = a_slash_and(alloc, 59).expect(&rt, "memory");
    is_refused(
        &rt,
        name.as_slice(),
        PathFault::NameTooLong,
        Errno::Enametoolong,
    );
    let fits = repeated(alloc, b"/a", 511).expect(&rt, "memory");
    let text = read_path(alloc, fits.as_slice()).expect(&rt, "refused");
    same(&rt, text.len(), 511);
    let path = repeated(alloc, b"/a", 512).expect(&rt, "memory");
    is_refused(
        &rt,
        path.as_slice(),
        PathFault::TooLong,
        Errno::Enametoolong,
    );
}

#[test]
fn the_first_fault_is_told(rt: HostRuntime) {
    is_refused(&rt, b"", PathFault::Empty, Errno::Enoent);
    is_refused(&rt, b"a", PathFault::NotAbsolute, Errno::Einval);
    is_refused(&rt, b"/a/", PathFault::TrailingSlash, Errno::Einval);
    is_refused(&rt, b"/./", PathFault::BadComponent, Errno::Einval);
    is_refused(&rt, b"/a/..", PathFault::BadComponent, Errno::Einval);
    is_refused(&rt, b"/a b", PathFault::BadComponent, Errno::Einval);
    holds(
        &rt,
        PathFault::Memory(Memory::from(AllocError))
            .errno()
            .is_none(),
    );
}

#[test]
fn the_root_has_no_component(rt: HostRuntime) {
    let text = read_path(rt.alloc(), b"//").expect(&rt, "refused");
    holds(&rt, text.is_root());
    same(&rt, text.len(), 0);
    same(&rt, text.whole(), b"/".as_slice());
    same(&rt, text.parent(), b"/".as_slice());
}

#[test]
fn components_are_told_one_by_one(rt: HostRuntime) {
    let text = read_path(rt.alloc(), b"/db//.../conf").expect(&rt, "refused");
    holds(&rt, text.len() == 3);
    same(&rt, text.component(0), b"db".as_slice());
    same(&rt, text.component(1), b"...".as_slice());
    same(&rt, text.last(), b"conf".as_slice());
    same(&rt, text.whole(), b"/db/.../conf".as_slice());
    same(&rt, text.parent(), b"/db/...".as_slice());
    same(&rt, text.prefix(1), b"/db".as_slice());
    holds(&rt, !text.is_root());
}
