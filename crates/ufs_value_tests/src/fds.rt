// What no clause says: all calls one after another, to the highest number and back.
use crate::asserts::{holds, same};
use ufs_fds::FdTable;
use ufs_model::Desc;

fn of_file(file: u32) -> Desc {
    Desc {
        file: Some(file),
        at: 0,
        read: true,
        write: false,
        append: false,
    }
}

#[test]
fn all_numbers_are_given_out_and_come_back(rt: HostRuntime) {
    let mut table = FdTable::new();
    for expected in 3..67u32 {
        let fd = table.lowest().expect(&rt, "full");
        same(&rt, fd, expected);
        table.set(fd, of_file(fd));
    }
    holds(&rt, table.lowest().is_none());
    holds(&rt, table.get(10) == Some(of_file(10)));
    table.close(10);
    holds(&rt, !table.is_open(10));
    holds(&rt, table.lowest() == Some(10));
    for fd in 3..67u32 {
        if table.is_open(u64::from(fd)) {
            table.close(fd);
        }
    }
    holds(&rt, table.lowest() == Some(3));
    holds(&rt, table.get(3).is_none());
}

#[test]
fn other_numbers_are_never_open(rt: HostRuntime) {
    let mut table = FdTable::new();
    table.set(3, of_file(0));
    table.set(66, of_file(1));
    for fd in [0, 2, 67, 4_294_967_299, 18_446_744_073_709_551_615] {
        holds(&rt, table.get(fd).is_none());
        holds(&rt, !table.is_open(fd));
    }
}

#[test]
fn the_last_descriptor_of_a_file_is_told(rt: HostRuntime) {
    let mut table = FdTable::new();
    table.set(3, of_file(7));
    holds(&rt, table.is_last(3));
    table.set(66, of_file(7));
    table.set(4, of_file(8));
    for (fd, is_last) in [(3, false), (66, false), (4, true), (5, false)] {
        same(&rt, table.is_last(fd), is_last);
    }
    if table.is_open(3) {
        table.close(3);
    }
    holds(&rt, table.is_last(66));
}
