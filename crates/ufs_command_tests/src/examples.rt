// The scripts of `examples/`, each with the words that play it, its status, and what it prints over a new image.
// `tools/examples.py` writes this file.
use crate::calls::{Call, check_new, playing};
use crate::trees::making_large;

/// Words, a script, a status, and what is printed.
pub const EXAMPLES: [(&[&str], &str, u8, &str); 8] = [
    (
        &["play"],
        "# A script that breaks a rule is served no request: one read gives at most 1,048,576 bytes. This line is counted too.\nclient 0\nopen /f rw creat\nread 3 1048577\nend\n",
        2,
        "ufs: line 4: BadNumber\n",
    ),
    (
        &["play"],
        "# A directory, and a file that is written and read back.\nclient 0\nmkdir /archive\nopen /notes rw creat\nwrite 3 6275790a\nwrite 3 6d696c6b0a\nopen /notes r\nread 4 100\nclose 4\nclose 3\nend\n",
        0,
        "0.0 ok\n0.1 fd 3\n0.2 n 4\n0.3 n 5\n0.4 fd 4\n0.5 data 6275790a6d696c6b0a\n0.6 ok\n0.7 ok\n",
    ),
    (
        &["play"],
        "# Refusals, in the order in which they are looked for. A refused request changes nothing.\nclient 0\nmkdir /d\nopen /f w creat\n\n# Flags come first: here the path is empty too, but `excl` asks for `creat`, and `trunc` for leave to write.\nopen \"\" r excl\nopen /f r trunc\n\n# The text of the path: empty, relative, two dots, a slash at the end, a component of 59 bytes.\nstat \"\"\nstat d\nstat /d/../f\nstat /d/\nmkdir /aaaaaaaaaaaaaaaaaaaaaaaaaaaaaaaaaaaaaaaaaaaaaaaaaaaaaaaaaaa\n\n# The walk: a component that is missing, and one that is no directory.\nstat /x/y\nstat /f/y\n\n# What stands at the path.\nopen /g r\nopen /f w creat excl\nopen /d w\nmkdir /\nrmdir /f\nrmdir /\nunlink /d\nlist /f\n\n# Descriptors: one that isn't open, one without leave to read, and one of a directory.\nread 9 1\nread 3 1\nopen /d r\nread 4 1\nwrite 4 61\nseek 4 set 0\ntrunc 4 0\nfsync 4\nend\n",
        0,
        "0.0 ok\n0.1 fd 3\n0.2 err EINVAL\n0.3 err EINVAL\n0.4 err ENOENT\n0.5 err EINVAL\n0.6 err EINVAL\n0.7 err EINVAL\n0.8 err ENAMETOOLONG\n0.9 err ENOENT\n0.10 err ENOTDIR\n0.11 err ENOENT\n0.12 err EEXIST\n0.13 err EISDIR\n0.14 err EEXIST\n0.15 err ENOTDIR\n0.16 err EBUSY\n0.17 err EPERM\n0.18 err ENOTDIR\n0.19 err EBADF\n0.20 err EBADF\n0.21 fd 4\n0.22 err EISDIR\n0.23 err EBADF\n0.24 err EINVAL\n0.25 err EINVAL\n0.26 ok\n",
    ),
    (
        &["play"],
        "# New names for directories, and what refuses them.\nclient 0\nmkdir /a\nmkdir /a/b\nopen /a/b/f w creat\nmkdir /e\n\n# A name onto itself changes nothing. Both texts come first, then the root, the old path, and the new one.\nrename /a /a\nrename /x/y /z/\nrename / /z\nrename /x/y /a/b/f/z\nrename /x /a\nrename /a /a/b/f/z\n\n# No directory goes below itself; a file takes the place of no directory, and a directory that of no file; a\n# directory that is replaced has to be empty.\nrename /a /a/b/c\nrename /a/b/f /e\nrename /e /a/b/f\nrename /e /a\n\n# What lies below goes along.\nrename /a/b /e\nlist /\nlist /a\nstat /e/f\nend\n",
        0,
        "0.0 ok\n0.1 ok\n0.2 fd 3\n0.3 ok\n0.4 ok\n0.5 err EINVAL\n0.6 err EBUSY\n0.7 err ENOENT\n0.8 err ENOENT\n0.9 err ENOTDIR\n0.10 err EINVAL\n0.11 err EISDIR\n0.12 err ENOTDIR\n0.13 err ENOTEMPTY\n0.14 ok\n0.15 names 2 a e\n0.16 names 0\n0.17 file 0\n",
    ),
    (
        &["play"],
        "# A file is replaced in one step: its new bytes are written and synced under another name, which then takes the place\n# of the old one. Whoever opens the file finds all its old bytes or all its new ones.\nclient 0\nmkdir /db\nopen /db/conf w creat\nwrite 3 6f6c64\nclose 3\n\n# The new bytes, under a name that nobody else has.\nopen /db/conf.new w creat excl\nwrite 3 6e6577\nfsync 3\nclose 3\n\n# Somebody has the file open meanwhile.\nopen /db/conf r\n\n# The step itself; then the directory is synced, and with it the new name.\nrename /db/conf.new /db/conf\nopen /db r\nfsync 4\nclose 4\n\n# The descriptor of before still gives the old bytes, and a new one the new bytes.\nread 3 100\nopen /db/conf r\nread 4 100\nlist /db\nstat /db/conf\nsync\nend\n",
        0,
        "0.0 ok\n0.1 fd 3\n0.2 n 3\n0.3 ok\n0.4 fd 3\n0.5 n 3\n0.6 ok\n0.7 ok\n0.8 fd 3\n0.9 ok\n0.10 fd 4\n0.11 ok\n0.12 ok\n0.13 data 6f6c64\n0.14 fd 4\n0.15 data 6e6577\n0.16 names 1 conf\n0.17 file 3\n0.18 ok\n",
    ),
    (
        &["play", "--trace"],
        "# Room that runs out: two files of 16 MiB want 8,192 blocks. Of 8,150 the directory has one, and the first file 4,096.\nclient 0\nopen /f rw creat\ntrunc 3 16777216\nopen /g rw creat\ntrunc 4 16777216\ntrunc 3 0\nstat /g\nend\n",
        0,
        "0.0 fd 3\n0.1 ok\n0.2 fd 4\n0.3 err ENOSPC\n0.4 ok\n0.5 file 0\n# 0 0.0 by p\n# 1 0.1 by p\n# 2 0.2 by p\n# 3 0.3 by p excuse blocks 4096 4053\n# 4 0.4 by p\n# 5 0.5 by p\n",
    ),
    (
        &["play"],
        "# Gaps, cuts and the greatest sizes.\nclient 0\nopen /f rw creat\n\n# A gap reads as zeros. An offset may lie past the end, and nothing is read there.\npwrite 3 61 4096\npread 3 2 4095\nseek 3 end 10\nread 3 1\ntrunc 3 2\ntrunc 3 4\npread 3 9 0\n\n# A file has at most 16,777,216 bytes. A write of which a part doesn't fit is refused whole; one of no byte is none.\npwrite 3 61 16777215\npwrite 3 6161 16777215\npwrite 3 - 16777216\ntrunc 3 16777217\nstat /f\n\n# Offsets end at 2^40 - 1.\nseek 3 set 1099511627775\nseek 3 cur 1\nseek 3 cur -1099511627776\nseek 3 cur 0\nwrite 3 -\nwrite 3 61\nend\n",
        0,
        "0.0 fd 3\n0.1 n 1\n0.2 data 0061\n0.3 at 4107\n0.4 data -\n0.5 ok\n0.6 ok\n0.7 data 00000000\n0.8 n 1\n0.9 err EFBIG\n0.10 n 0\n0.11 err EFBIG\n0.12 file 16777216\n0.13 at 1099511627775\n0.14 err EINVAL\n0.15 err EINVAL\n0.16 at 1099511627775\n0.17 n 0\n0.18 err EFBIG\n",
    ),
    (
        &["play"],
        "# Two clients of one tree. Each has descriptors of its own. All of client 0's requests are served before those of\n# client 1.\nclient 0\nmkdir /log\nopen /log/today w creat append\nwrite 3 6f6e650a\nwrite 3 74776f0a\nread 3 100\n\nclient 1\nopen /log/today rw append\nwrite 3 74687265650a\nread 3 100\npread 3 100 0\nstat /log/today\n\n# A file that is open stays usable under a new name, and without a name until its last descriptor is closed.\nrename /log /old\nstat /log/today\nunlink /old/today\npread 3 3 4\nlist /old\nrmdir /old\nclose 3\nlist /\nend\n",
        0,
        "0.0 ok\n0.1 fd 3\n0.2 n 4\n0.3 n 4\n0.4 err EBADF\n1.0 fd 3\n1.1 n 6\n1.2 data -\n1.3 data 6f6e650a74776f0a74687265650a\n1.4 file 14\n1.5 ok\n1.6 err ENOENT\n1.7 ok\n1.8 data 74776f\n1.9 names 0\n1.10 ok\n1.11 ok\n1.12 names 0\n",
    ),
];

#[test]
fn the_examples_print_what_stands_beside_them(rt: HostRuntime) {
    for (words, script, status, text) in &EXAMPLES {
        let call = Call {
            words: *words,
            ..playing(script, *status, text)
        };
        check_new(&rt, 65_536, &[making_large(), call]);
    }
}
