// The lines of a trace.
ghost use Rattle.std.specs.Prelude.{◌≡◌, ◌++◌, ◌∷◌, ℕ, List, Ok, None, IfOk, IfSome, codes};
ghost use Rattle.std.specs.Fmt.{decimal};
ghost use Rattle.ufs_lines.specs.Trace.{Tells};
ghost use Rattle.ufs_lines.specs.declared.told.Told.{Told};
ghost use Rattle.ufs_lines.specs.Trace.{TellsServer};

use crate::actors::{behind_via, read_actor};
use crate::excuses::read_why;
use crate::told::{Told, Why};
use crate::words::{behind, cut_text, first_word, numbered};
use std::alloc::{AllocError, Global};
use ufs_model::Actor;

// Who served a request, and why it is excused.
#[derive(Clone, Copy)]
pub struct Server {
    pub by: Actor,
    pub why: Why,
}

// What stands behind ` by `.
fn read_served(alloc: Global, text: &[u8]) -> Result<Option<Server>, AllocError>
    ensures some { IfOk result (λ found. IfSome found (λ served. TellsServer served text.now)) }
    ensures none { result ≡ Ok None → (served : Server) → TellsServer served text.now → ⊥ }
{
    let word = first_word(text);
    let Some(by) = read_actor(alloc, word.front)? else {
        return Ok(None);
    };
    let Some(tail) = behind_via(alloc, word.rest)? else {
        return Ok(None);
    };
    let Some(why) = read_why(alloc, tail)? else {
        return Ok(None);
    };
    Ok(Some(Server { by, why }))
}

fn behind_ticket(alloc: Global, ticket: u64, line: &[u8]) -> Result<Option<&[u8]>, AllocError>
    ensures some { IfOk result (λ found. IfSome found (λ rest. line.now ≡ codes "# " ++ (decimal ticket ++ 32 ∷ rest.now))) }
    ensures none { result ≡ Ok None → (rest : List ℕ) → line.now ≡ codes "# " ++ (decimal ticket ++ 32 ∷ rest) → ⊥ }
{
    let front = format!(in alloc; "# {ticket} ")?;
    Ok(behind(line, front.as_bytes()))
}

/// What the line, without its end, tells at the ticket.
pub fn read_told(alloc: Global, ticket: u64, line: &[u8]) -> Result<Option<Told>, AllocError>
    ensures some { IfOk result (λ told. IfSome told (λ told. Tells ticket told line.now)) }
    ensures none { result ≡ Ok None → (told : Told) → Tells ticket told line.now → ⊥ }
{
    let Some(rest) = behind_ticket(alloc, ticket, line)? else {
        return Ok(None);
    };
    let Some(request) = cut_text(rest, b'.') else {
        return Ok(None);
    };
    let Some(client) = numbered(alloc, request.front, b"", 255)? else {
        return Ok(None);
    };
    let number = first_word(request.rest);
    let Some(seq) = numbered(alloc, number.front, b"", 4_294_967_295)? else {
        return Ok(None);
    };
    let Some(text) = behind(number.rest, b" by ") else {
        return Ok(None);
    };
    let Some(served) = read_served(alloc, text)? else {
        return Ok(None);
    };
    Ok(Some(Told {
        client: client as u8,
        seq: seq as u32,
        by: served.by,
        why: served.why,
    }))
}
