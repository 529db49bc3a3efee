// Worked texts with their verdicts, each from a tree with the root alone.
use crate::asserts::same;
use std::alloc::AllocGlobal;
use std::process::Abort;
use ufs_audit::{AuditFault, Verdict, Wrong, audit};
use ufs_io::{MemorySource, PlainSource, Source};
use ufs_model::PathTree;
use ufs_script::ScriptFault;

// What an audit answers of a source, from the root alone.
pub fn audited<R: Abort + AllocGlobal, S: Source>(
    rt: &R,
    source: &mut S,
) -> Result<Verdict, AuditFault> {
    let start = PathTree::root_alone(rt.alloc()).expect(rt, "memory");
    audit(rt.alloc(), source, &start)
}

// What it answers of a script with a text behind it.
pub fn answer_to<R: Abort + AllocGlobal>(
    rt: &R,
    script: &[u8],
    text: &[u8],
) -> Result<Verdict, AuditFault> {
    let mut bytes = script.to_vec(rt.alloc()).expect(rt, "memory");
    bytes.extend_from_slice(text).expect(rt, "memory");
    audited(rt, &mut PlainSource::new(bytes))
}

pub fn illegal(ticket: u64, cause: Wrong) -> Verdict {
    Verdict::Illegal { ticket, cause }
}

// Two clients: a directory, a file that is written and synced, and then looked at by the other.
pub const SCRIPT: &str =
    "client 0\nmkdir /d\nopen /f rw creat\nwrite 3 616263\nfsync 3\nclient 1\nstat /f\nopen /g r\nend\n";

pub const REPLIES: &str = "0.0 ok\n0.1 fd 3\n0.2 n 3\n0.3 ok\n1.0 file 3\n1.1 err ENOENT\n";

pub const TRACE: &str =
    "# 0 0.0 by p\n# 1 0.1 by p\n# 2 0.2 by p\n# 3 0.3 by p\n# 4 1.0 by p\n# 5 1.1 by p\n";

// The text with what stands first in it replaced.
pub fn replaced<R: Abort + AllocGlobal>(rt: &R, text: &str, old: &str, new: &str) -> Vec<u8> {
    let alloc = rt.alloc();
    let Some((front, rest)) = text.split_once(old) else {
        return Vec::new(alloc);
    };
    format!(in alloc; "{front}{new}{rest}")
        .expect(rt, "memory")
        .into_bytes()
}

// Two places, each with what stands there and what takes its place, and the verdict.
type Row = (
    (&'static str, &'static str),
    (&'static str, &'static str),
    Verdict,
);

const ROWS: [Row; 42] = [
    (("", ""), ("", ""), Verdict::Legal { entries: 6 }),
    // who served, and who sent it on, is read by its form alone
    (
        ("# 2 0.2 by p", "# 2 0.2 by c0"),
        ("", ""),
        Verdict::Legal { entries: 6 },
    ),
    (
        ("# 2 0.2 by p", "# 2 0.2 by w3 via p,w1"),
        ("", ""),
        Verdict::Legal { entries: 6 },
    ),
    (
        ("# 2 0.2 by p", "# 2 0.2 by w300"),
        ("", ""),
        Verdict::Illegal {
            ticket: 2,
            cause: Wrong::Text,
        },
    ),
    (
        ("# 2 0.2 by p", "# 2 0.2 by w03"),
        ("", ""),
        Verdict::Illegal {
            ticket: 2,
            cause: Wrong::Text,
        },
    ),
    (
        ("# 2 0.2 by p", "# 2 0.2 by q"),
        ("", ""),
        Verdict::Illegal {
            ticket: 2,
            cause: Wrong::Text,
        },
    ),
    (
        ("# 2 0.2 by p", "# 2 0.2 by p via "),
        ("", ""),
        Verdict::Illegal {
            ticket: 2,
            cause: Wrong::Text,
        },
    ),
    (
        ("# 2 0.2 by p", "# 2 0.2 by p via p,"),
        ("", ""),
        Verdict::Illegal {
            ticket: 2,
            cause: Wrong::Text,
        },
    ),
    (
        ("# 2 0.2 by p", "# 2 0.2  by p"),
        ("", ""),
        Verdict::Illegal {
            ticket: 2,
            cause: Wrong::Text,
        },
    ),
    (
        ("# 2 0.2 by p", "# 2 0.2 by p "),
        ("", ""),
        Verdict::Illegal {
            ticket: 2,
            cause: Wrong::Text,
        },
    ),
    // numbers
    (
        ("# 2 0.2 by p", "# 3 0.2 by p"),
        ("", ""),
        Verdict::Illegal {
            ticket: 2,
            cause: Wrong::Text,
        },
    ),
    (
        ("# 2 0.2 by p", "# 02 0.2 by p"),
        ("", ""),
        Verdict::Illegal {
            ticket: 2,
            cause: Wrong::Text,
        },
    ),
    (
        ("# 2 0.2 by p", "# 2 00.2 by p"),
        ("", ""),
        Verdict::Illegal {
            ticket: 2,
            cause: Wrong::Text,
        },
    ),
    (
        ("# 2 0.2 by p", "# 2 256.2 by p"),
        ("", ""),
        Verdict::Illegal {
            ticket: 2,
            cause: Wrong::Text,
        },
    ),
    (
        ("# 2 0.2 by p", "# 2 0.4294967296 by p"),
        ("", ""),
        Verdict::Illegal {
            ticket: 2,
            cause: Wrong::Text,
        },
    ),
    // the order of a client
    (
        ("# 2 0.2 by p", "# 2 0.3 by p"),
        ("", ""),
        Verdict::Illegal {
            ticket: 2,
            cause: Wrong::Order,
        },
    ),
    (
        ("# 2 0.2 by p", "# 2 0.1 by p"),
        ("", ""),
        Verdict::Illegal {
            ticket: 2,
            cause: Wrong::Order,
        },
    ),
    (
        ("# 2 0.2 by p", "# 2 2.0 by p"),
        ("", ""),
        Verdict::Illegal {
            ticket: 2,
            cause: Wrong::Order,
        },
    ),
    // replies
    (
        ("0.2 n 3", "0.2 n 4"),
        ("", ""),
        Verdict::Illegal {
            ticket: 2,
            cause: Wrong::Reply,
        },
    ),
    (
        ("1.1 err ENOENT", "1.1 err ENOTDIR"),
        ("", ""),
        Verdict::Illegal {
            ticket: 5,
            cause: Wrong::Reply,
        },
    ),
    (
        ("# 0 0.0 by p", "# 0 1.0 by p"),
        ("", ""),
        Verdict::Illegal {
            ticket: 0,
            cause: Wrong::Reply,
        },
    ),
    (
        ("0.0 ok", "0.0 yes"),
        ("", ""),
        Verdict::Illegal {
            ticket: 0,
            cause: Wrong::Text,
        },
    ),
    (
        ("0.2 n 3", "0.2 n 03"),
        ("", ""),
        Verdict::Illegal {
            ticket: 0,
            cause: Wrong::Text,
        },
    ),
    (
        ("0.2 n 3", "0.2 n 4294967296"),
        ("", ""),
        Verdict::Illegal {
            ticket: 0,
            cause: Wrong::Text,
        },
    ),
    (
        ("0.2 n 3", "0.3 n 3"),
        ("", ""),
        Verdict::Illegal {
            ticket: 0,
            cause: Wrong::Text,
        },
    ),
    (
        ("0.2 n 3", "0.2 data 0F"),
        ("", ""),
        Verdict::Illegal {
            ticket: 0,
            cause: Wrong::Text,
        },
    ),
    (
        ("0.2 n 3", "0.2 data 0f"),
        ("", ""),
        Verdict::Illegal {
            ticket: 2,
            cause: Wrong::Reply,
        },
    ),
    (
        ("0.2 n 3", "0.2 names 2 a b c"),
        ("", ""),
        Verdict::Illegal {
            ticket: 2,
            cause: Wrong::Reply,
        },
    ),
    (
        ("0.2 n 3", "0.2 names 2 a"),
        ("", ""),
        Verdict::Illegal {
            ticket: 0,
            cause: Wrong::Text,
        },
    ),
    // excuses
    (
        ("0.3 ok", "0.3 err ENOMEM"),
        ("# 3 0.3 by p", "# 3 0.3 by p excuse memory"),
        Verdict::Legal { entries: 6 },
    ),
    (
        ("0.3 ok", "0.3 ok"),
        ("# 3 0.3 by p", "# 3 0.3 by p excuse memory"),
        Verdict::Illegal {
            ticket: 3,
            cause: Wrong::Reply,
        },
    ),
    (
        ("1.1 err ENOENT", "1.1 err ENOMEM"),
        ("# 5 1.1 by p", "# 5 1.1 by p excuse memory"),
        Verdict::Legal { entries: 6 },
    ),
    (
        ("1.1 err ENOENT", "1.1 err EIO"),
        ("# 5 1.1 by p", "# 5 1.1 by p excuse device 1"),
        Verdict::Illegal {
            ticket: 5,
            cause: Wrong::Excuse,
        },
    ),
    (
        ("0.3 ok", "0.3 err EIO"),
        ("# 3 0.3 by p", "# 3 0.3 by p excuse stopped 9"),
        Verdict::Legal { entries: 6 },
    ),
    (
        ("0.0 ok", "0.0 err ENOSPC"),
        ("# 0 0.0 by p", "# 0 0.0 by p excuse inodes 1 0"),
        Verdict::Legal { entries: 6 },
    ),
    (
        ("0.0 ok", "0.0 err ENOSPC"),
        ("# 0 0.0 by p", "# 0 0.0 by p excuse inodes 2 0"),
        Verdict::Illegal {
            ticket: 0,
            cause: Wrong::Text,
        },
    ),
    (
        ("0.3 ok", "0.3 err ENOSPC"),
        ("# 3 0.3 by p", "# 3 0.3 by p excuse inodes 1 0"),
        Verdict::Illegal {
            ticket: 3,
            cause: Wrong::Excuse,
        },
    ),
    (
        ("0.2 n 3", "0.2 err ENOSPC"),
        ("# 2 0.2 by p", "# 2 0.2 by p excuse blocks 1 0"),
        Verdict::Illegal {
            ticket: 4,
            cause: Wrong::Reply,
        },
    ),
    (
        ("0.2 n 3", "0.2 err ENOSPC"),
        ("# 2 0.2 by p", "# 2 0.2 by p excuse blocks 1 1"),
        Verdict::Illegal {
            ticket: 2,
            cause: Wrong::Excuse,
        },
    ),
    (
        ("0.2 n 3", "0.2 err ENOSPC"),
        ("# 2 0.2 by p", "# 2 0.2 by p excuse blocks 2 1"),
        Verdict::Illegal {
            ticket: 2,
            cause: Wrong::Excuse,
        },
    ),
    (
        ("0.2 n 3", "0.2 err ENOSPC"),
        ("# 2 0.2 by p", "# 2 0.2 by p excuse extents 57 56"),
        Verdict::Illegal {
            ticket: 4,
            cause: Wrong::Reply,
        },
    ),
    (
        ("0.2 n 3", "0.2 err ENOSPC"),
        ("# 2 0.2 by p", "# 2 0.2 by p excuse extents 56 56"),
        Verdict::Illegal {
            ticket: 2,
            cause: Wrong::Excuse,
        },
    ),
];

#[test]
fn each_text_has_its_verdict(rt: HostRuntime) {
    let alloc = rt.alloc();
    let whole = format!(in alloc; "{REPLIES}{TRACE}").expect(&rt, "memory");
    for (first, second, verdict) in &ROWS {
        let text = replaced(&rt, whole.as_str(), first.0, first.1);
        let text = String::from_utf8(text).expect(&rt, "text");
        let text = replaced(&rt, text.as_str(), second.0, second.1);
        same(
            &rt,
            first.1,
            answer_to(&rt, SCRIPT.as_bytes(), text.as_slice()),
            Ok(*verdict),
        );
    }
}

// Two entries that are excused by faults of the device, the first by fault 7.
fn excused_twice<R: Abort + AllocGlobal>(rt: &R, fault: u64) -> Vec<u8> {
    let replies = "0.0 ok\n0.1 fd 3\n0.2 err EIO\n0.3 err EIO\n1.0 file 0\n1.1 err ENOENT\n";
    let front = "# 0 0.0 by p\n# 1 0.1 by p\n# 2 0.2 by p excuse device 7\n";
    let rest = "# 4 1.0 by p\n# 5 1.1 by p\n";
    format!(in rt.alloc(); "{replies}{front}# 3 0.3 by p excuse device {fault}\n{rest}")
        .expect(rt, "memory")
        .into_bytes()
}

// A fault of the device is told once.
#[test]
fn a_fault_is_told_once(rt: HostRuntime) {
    let once = excused_twice(&rt, 8);
    let twice = excused_twice(&rt, 7);
    same(
        &rt,
        "once",
        answer_to(&rt, SCRIPT.as_bytes(), once.as_slice()),
        Ok(Verdict::Legal { entries: 6 }),
    );
    same(
        &rt,
        "twice",
        answer_to(&rt, SCRIPT.as_bytes(), twice.as_slice()),
        Ok(illegal(3, Wrong::Excuse)),
    );
}

// Where the script ends: through the first line whose only word is `end`.
const ENDS: [(&str, &str, Result<Verdict, AuditFault>); 8] = [
    ("client 0\nend\n", "", Ok(Verdict::Legal { entries: 0 })),
    (
        "client 0\n \tend\t \r\n",
        "",
        Ok(Verdict::Legal { entries: 0 }),
    ),
    ("client 0\nend", "", Ok(Verdict::Legal { entries: 0 })),
    (
        "end\n",
        "end\n",
        Ok(Verdict::Illegal {
            ticket: 0,
            cause: Wrong::Text,
        }),
    ),
    (
        "client 0\nsync\nend\n",
        "0.0 ok\n# 0 0.0 by p\n",
        Ok(Verdict::Legal { entries: 1 }),
    ),
    (
        "client 0\nsync\nend 1\n",
        "end\n",
        Err(AuditFault::Script(ScriptFault::BadWord { line: 3 })),
    ),
    (
        "client 0\n# end\n",
        "",
        Err(AuditFault::Script(ScriptFault::NoEnd { line: 2 })),
    ),
    (
        "",
        "",
        Err(AuditFault::Script(ScriptFault::NoEnd { line: 0 })),
    ),
];

#[test]
fn a_script_ends_at_its_end(rt: HostRuntime) {
    for (script, text, answer) in &ENDS {
        same(
            &rt,
            script,
            answer_to(&rt, script.as_bytes(), text.as_bytes()),
            *answer,
        );
    }
}

#[test]
fn a_source_that_fails_is_told(rt: HostRuntime) {
    let alloc = rt.alloc();
    for call in 0..2u64 {
        let text = format!(in alloc; "{SCRIPT}{REPLIES}{TRACE}").expect(&rt, "memory");
        let fails = vec![in alloc; call; 1].expect(&rt, "memory");
        let mut source = MemorySource::new(text.into_bytes(), fails);
        same(
            &rt,
            "fault",
            audited(&rt, &mut source),
            Err(AuditFault::Source),
        );
        same(&rt, "faults", source.faults(), 1);
        same(&rt, "calls", source.calls(), call + 1);
    }
}
