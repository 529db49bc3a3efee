// The lines of replies.
ghost use Rattle.std.specs.Prelude.{◌≡◌, ◌≢◌, ◌≤◌, ◌<◌, ◌+◌, ◌∷◌, ◌++◌, ◌⊎◌, [], true, false, ℕ, List, Ok, Err, None, IfOk, IfSome, IsTrue, ◌↔◌, length};
ghost use Rattle.std.specs.Option.{option_map};
ghost use Rattle.ufs_base.specs.Faults.{raised};
ghost use Rattle.ufs_audit.specs.Audit.{IsEnded, IsLine, AreAnswersOf};
ghost use Rattle.ufs_lines.specs.Replies.{IsReplyLine};
ghost use Rattle.ufs_audit.specs.Ends.{TextLine, Passes, OwnAnswers, AllAnswers};
ghost use Rattle.ufs_audit.specs.declared.fault.TextFault.TheVariants as fault;

use crate::fault::TextFault;
use crate::reader::{Ahead, next_line};
use std::alloc::Global;
use std::marker::Model;
use ufs_base::Memory;
use ufs_io::Source;
use ufs_lines::{is_reply_line, without_last};
use ufs_model::Bytes;
use ufs_script::OpList;

/// The lines of a client's replies, with their ends.
#[derive(Drop)]
pub struct AnswerList {
    lines: Vec<Bytes>,
}

impl Model for AnswerList {
    ghost use Rattle.std.specs.Prelude.{ℕ, List};

    ghost Value = { List (List ℕ) };

    ghost view = { λ a. a.lines.items };
}

impl AnswerList {
    ghost use Rattle.std.specs.Prelude.{◌≡◌};

    pub fn as_slice(&self) -> &[Bytes]
        ensures { result.now ≡ self.now }
    {
        self.lines.as_slice()
    }
}

/// The next line of a text that may have so many bytes more. Without its end, it is the last one.
pub fn text_line<S: Source>(
    alloc: Global,
    source: &mut S,
    ahead: &mut Ahead,
    room: &mut usize,
) -> Result<Vec<u8>, TextFault>
    ensures cause { result ≡ Err fault.Source → S.faults source.new ≡ raised (S.faults source.old) }
    ensures counted { result ≢ Err fault.Source → S.faults source.new ≡ S.faults source.old }
    ensures long { result ≡ Err fault.TooLong → Passes (S.left source.old) (S.left source.new) ahead.old ahead.new room.old }
    ensures line { IfOk result (λ line. TextLine (S.left source.old) (S.left source.new) ahead.old ahead.new room.old room.new line.items) }
{
    let line = next_line(alloc, source, ahead, *room)?;
    if line.len() > *room {
        return Err(TextFault::TooLong);
    }
    *room -= line.len();
    Ok(line)
}

// Whether a line has its end and is that of some reply to the request.
fn is_answer(alloc: Global, client: u8, seq: u32, line: &[u8]) -> Result<bool, Memory>
    requires { IsEnded line.now ⊎ IsLine line.now }
    ensures { IfOk result (λ is. IsTrue is ↔ (IsEnded line.now × IsReplyLine client seq line.now)) }
{
    if without_last(line, b'\n').is_none() {
        return Ok(false);
    }
    let is = is_reply_line(alloc, client, seq, line)?;
    Ok(is)
}

// A line for each of the client's requests, if they are there.
fn own_answers<S: Source>(
    alloc: Global,
    source: &mut S,
    ahead: &mut Ahead,
    room: &mut usize,
    client: u8,
    requests: &OpList,
) -> Result<Option<AnswerList>, TextFault>
    ensures cause { result ≡ Err fault.Source → S.faults source.new ≡ raised (S.faults source.old) }
    ensures counted { result ≢ Err fault.Source → S.faults source.new ≡ S.faults source.old }
    ensures long { result ≡ Err fault.TooLong → Passes (S.left source.old) (S.left source.new) ahead.old ahead.new room.old }
    ensures found { IfOk result (λ list. OwnAnswers (S.left source.old) (S.left source.new) ahead.old ahead.new room.old room.new client requests.now list) }
{
    let mut lines = Vec::new(alloc);
    let mut seq = 0u32;
    for _op in requests.as_slice() {
        let line = text_line(alloc, source, ahead, room)?;
        if !is_answer(alloc, client, seq, line.as_slice())? {
            return Ok(None);
        }
        lines.push(Bytes::from_vec(line))?;
        seq += 1;
    }
    Ok(Some(AnswerList { lines }))
}

/// A line of a reply for each request, client by client, if they are there.
pub fn read_answers<S: Source>(
    alloc: Global,
    source: &mut S,
    ahead: &mut Ahead,
    room: &mut usize,
    clients: &[OpList],
) -> Result<Option<Vec<AnswerList>>, TextFault>
    requires few { length clients.now ≤ 16 }
    ensures cause { result ≡ Err fault.Source → S.faults source.new ≡ raised (S.faults source.old) }
    ensures counted { result ≢ Err fault.Source → S.faults source.new ≡ S.faults source.old }
    ensures long { result ≡ Err fault.TooLong → Passes (S.left source.old) (S.left source.new) ahead.old ahead.new room.old }
    ensures found { IfOk result (λ lists. AllAnswers (S.left source.old) (S.left source.new) ahead.old ahead.new room.old room.new clients.now (option_map (λ l. l.items) lists)) }
{
    let mut lists = Vec::new(alloc);
    let mut client = 0u8;
    for requests in clients {
        let Some(list) = own_answers(alloc, source, ahead, room, client, requests)? else {
            return Ok(None);
        };
        lists.push(list)?;
        client += 1;
    }
    Ok(Some(lists))
}
