// Images that are full, and files that have no more room.
use crate::rows::{check_on, check_row, repeated};
use crate::trees::{making_large, making_small};

// 241 of 242 blocks are the file's, and the last one is the root's. What a commit frees comes back behind it.
#[test]
fn blocks_run_out_and_come_back(rt: HostRuntime) {
    let requests =
        "open /f rw creat;write 3 987136*61;write 3 61;trunc 3 0;pwrite 3 61 0;fsync 3;pwrite 3 61 0";
    let replies = "fd 3/n 987136/err ENOSPC/ok/err ENOSPC/ok/n 1";
    check_row(&rt, requests, replies);
}

#[test]
fn inodes_run_out_and_come_back(rt: HostRuntime) {
    let requests =
        "mkdir /00;mkdir /01;mkdir /02;mkdir /03;mkdir /04;mkdir /05;mkdir /06;mkdir /07;mkdir /08;mkdir /09;mkdir /10;mkdir /11;mkdir /12;mkdir /13;mkdir /14;mkdir /15;rmdir /00;mkdir /15";
    let replies = "ok/ok/ok/ok/ok/ok/ok/ok/ok/ok/ok/ok/ok/ok/ok/err ENOSPC/ok/ok";
    check_on(&rt, 512, making_small(), requests, replies);
}

/// Two files that grow in turn have no two blocks beside each other: the first wants a 57th extent first.
pub const GROWING: [(&str, u32); 2] = [
    ("open /f rw creat;open /g rw creat", 1),
    (";write 3 4096*61;write 4 4096*62", 57),
];

pub const GROWN: [(&str, u32); 3] = [
    ("fd 3/fd 4", 1),
    ("/n 4096", 112),
    ("/err ENOSPC/n 4096", 1),
];

#[test]
fn extents_run_out(rt: HostRuntime) {
    let requests = repeated(&rt, &GROWING);
    let replies = repeated(&rt, &GROWN);
    check_row(&rt, requests.as_str(), replies.as_str());
}

// A gap takes no block before its end.
#[test]
fn a_file_has_at_most_16_mebibytes(rt: HostRuntime) {
    let requests =
        "open /f rw creat;pwrite 3 61 16777215;pwrite 3 6161 16777215;trunc 3 16777217;stat /f";
    let replies = "fd 3/n 1/err EFBIG/err EFBIG/file 16777216";
    check_on(&rt, 65_536, making_large(), requests, replies);
}
