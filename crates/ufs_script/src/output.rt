// The text of replies and of traces.
ghost use Rattle.std.specs.Prelude.{◌≡◌, ◌++◌, ◌^◌, ◌<◌, IfOk, OnOk, map};
ghost use Rattle.std.specs.Fmt.{decimal};
ghost use Rattle.ufs_script.specs.Output.{excuse_text, names_text, reply_text, line_text, actor_text, more_actors, via_text, excuse_words, why_text, trace_text};
ghost use Rattle.ufs_script.specs.Spelling.{data_text};

use std::alloc::{AllocError, Global};
use ufs_base::Memory;
use ufs_model::{Actor, ActorList, Bytes, Entry, Excuse, NameList, Reply};

fn excuse_name(excuse: Excuse) -> &'static str
    ensures { result.now ≡ excuse_text excuse }
{
    match excuse {
        Excuse::Memory => "ENOMEM",
        Excuse::Device { .. } => "EIO",
        Excuse::Stopped { .. } => "EIO",
        Excuse::Blocks { .. } => "ENOSPC",
        Excuse::Inodes => "ENOSPC",
        Excuse::Extents { .. } => "ENOSPC",
    }
}

// Appends two texts.
fn put_text(line: &mut Vec<u8>, first: &[u8], second: &[u8]) -> Result<(), AllocError>
    ensures { OnOk result (line.new.items ≡ line.old.items ++ (first.now ++ second.now)) }
{
    line.extend_from_slice(first)?;
    line.extend_from_slice(second)?;
    Ok(())
}

// Appends a word and a number.
fn put_number(alloc: Global, line: &mut Vec<u8>, word: &[u8], n: u64) -> Result<(), AllocError>
    ensures { OnOk result (line.new.items ≡ line.old.items ++ (word.now ++ decimal n)) }
{
    let number = format!(in alloc; "{n}")?;
    put_text(line, word, number.as_bytes())
}

fn put_data(alloc: Global, line: &mut Vec<u8>, bytes: &[u8]) -> Result<(), AllocError>
    ensures { OnOk result (line.new.items ≡ line.old.items ++ data_text bytes.now) }
{
    if bytes.is_empty() {
        line.extend_from_slice(b"-".as_slice())
    } else {
        let digits = hex::encode(alloc, bytes)?;
        line.extend_from_slice(digits.as_bytes())
    }
}

// Appends each name with a space before it.
fn put_names(line: &mut Vec<u8>, names: &[Bytes]) -> Result<(), AllocError>
    ensures { OnOk result (line.new.items ≡ line.old.items ++ names_text names.now) }
{
    for name in names {
        line.push(b' ')?;
        line.extend_from_slice(name.as_slice())?;
    }
    Ok(())
}

fn put_reply(alloc: Global, line: &mut Vec<u8>, reply: &Reply) -> Result<(), AllocError>
    ensures { OnOk result (line.new.items ≡ line.old.items ++ reply_text reply.now) }
{
    match reply {
        Reply::Done => line.extend_from_slice(b"ok".as_slice()),
        Reply::Fd(n) => put_number(alloc, line, b"fd ".as_slice(), u64::from(*n)),
        Reply::Count(n) => put_number(alloc, line, b"n ".as_slice(), u64::from(*n)),
        Reply::At(n) => put_number(alloc, line, b"at ".as_slice(), *n),
        Reply::Got(bytes) => {
            line.extend_from_slice(b"data ".as_slice())?;
            put_data(alloc, line, bytes.as_slice())
        }
        Reply::IsFile { size } => put_number(alloc, line, b"file ".as_slice(), *size),
        Reply::IsDir { entries } => put_number(
            alloc,
            line,
            b"dir ".as_slice(),
            u64::from(*entries),
        ),
        Reply::Names(names) => {
            let names = names.as_slice();
            put_number(alloc, line, b"names ".as_slice(), names.len() as u64)?;
            put_names(line, names)
        }
        Reply::Refused(errno) => put_text(line, b"err ".as_slice(), errno.name().as_bytes()),
        Reply::Excused(excuse) => put_text(
            line,
            b"err ".as_slice(),
            excuse_name(*excuse).as_bytes(),
        ),
    }
}

/// The line of a reply: the client's number, a point, the request's number, a space, the reply, and
/// the line end.
pub fn reply_line(alloc: Global, client: u8, seq: u32, reply: &Reply) -> Result<Bytes, Memory>
    ensures { IfOk result (λ line. line ≡ line_text client seq reply.now) }
{
    let mut line = format!(in alloc; "{client}.{seq} ")?.into_bytes();
    put_reply(alloc, &mut line, reply)?;
    line.push(b'\n')?;
    Ok(Bytes::from_vec(line))
}

fn put_actor(alloc: Global, line: &mut Vec<u8>, actor: Actor) -> Result<(), AllocError>
    ensures { OnOk result (line.new.items ≡ line.old.items ++ actor_text actor) }
{
    match actor {
        Actor::Client(k) => put_number(alloc, line, b"c".as_slice(), u64::from(k)),
        Actor::Worker(k) => put_number(alloc, line, b"w".as_slice(), u64::from(k)),
        Actor::Primary => line.extend_from_slice(b"p".as_slice()),
    }
}

// Appends each actor with a comma before it.
fn put_more(alloc: Global, line: &mut Vec<u8>, actors: &[Actor]) -> Result<(), AllocError>
    ensures { OnOk result (line.new.items ≡ line.old.items ++ more_actors actors.now) }
{
    for actor in actors {
        line.push(b',')?;
        put_actor(alloc, line, *actor)?;
    }
    Ok(())
}

fn put_via(alloc: Global, line: &mut Vec<u8>, via: &[Actor]) -> Result<(), AllocError>
    ensures { OnOk result (line.new.items ≡ line.old.items ++ via_text via.now) }
{
    let [first, more @ ..] = via else {
        return Ok(());
    };
    line.extend_from_slice(b" via ".as_slice())?;
    put_actor(alloc, line, *first)?;
    put_more(alloc, line, more)
}

fn put_excuse(alloc: Global, line: &mut Vec<u8>, excuse: Excuse) -> Result<(), AllocError>
    ensures { OnOk result (line.new.items ≡ line.old.items ++ excuse_words excuse) }
{
    match excuse {
        Excuse::Memory => line.extend_from_slice(b"memory".as_slice()),
        Excuse::Device { fault } => put_number(alloc, line, b"device ".as_slice(), fault),
        Excuse::Stopped { fault } => put_number(alloc, line, b"stopped ".as_slice(), fault),
        Excuse::Blocks { need, had } => {
            put_number(alloc, line, b"blocks ".as_slice(), u64::from(need))?;
            put_number(alloc, line, b" ".as_slice(), u64::from(had))
        }
        Excuse::Inodes => line.extend_from_slice(b"inodes 1 0".as_slice()),
        Excuse::Extents { need } => {
            put_number(alloc, line, b"extents ".as_slice(), u64::from(need))?;
            line.extend_from_slice(b" 56".as_slice())
        }
    }
}

// Appends why a reply is excused, if it is.
fn put_why(alloc: Global, line: &mut Vec<u8>, reply: &Reply) -> Result<(), AllocError>
    ensures { OnOk result (line.new.items ≡ line.old.items ++ why_text reply.now) }
{
    match reply {
        Reply::Excused(excuse) => {
            line.extend_from_slice(b" excuse ".as_slice())?;
            put_excuse(alloc, line, *excuse)
        }
        _ => Ok(()),
    }
}

/// The line of an entry in a trace: its ticket, the client's number, a point, the request's number,
/// who served it, who sent it on, why it was excused, and the line end.
pub fn trace_line(alloc: Global, entry: &Entry, via: &ActorList) -> Result<Bytes, Memory>
    ensures { IfOk result (λ line. line ≡ trace_text entry.now via.now) }
{
    let Entry {
        ticket,
        client,
        seq,
        ..
    } = entry;
    let mut line = format!(in alloc; "# {ticket} {client}.{seq} by ")?.into_bytes();
    put_actor(alloc, &mut line, entry.by)?;
    put_via(alloc, &mut line, via.as_slice())?;
    put_why(alloc, &mut line, &entry.reply)?;
    line.push(b'\n')?;
    Ok(Bytes::from_vec(line))
}
