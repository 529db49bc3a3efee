// The actors of a line of a trace.
ghost use Rattle.std.specs.Prelude.{◌≡◌, ◌++◌, ℕ, List, Ok, None, Option, Some, IfOk, IfSome, IsTrue, ◌↔◌};
ghost use Rattle.std.specs.List.{AllByRecursion};
ghost use Rattle.ufs_model.specs.declared.data.Actor.{Actor};
ghost use Rattle.ufs_model.specs.declared.data.Excuse.{Excuse};
ghost use Rattle.ufs_script.specs.Output.{actor_text, via_text};
ghost use Rattle.ufs_lines.specs.Trace.{IsActor, AreActors, end_text};

use crate::words::{behind, cut_text, first_word, numbered, same_bytes};
use std::alloc::{AllocError, Global};
use ufs_model::Actor;

/// The actor that is printed so.
pub fn read_actor(alloc: Global, word: &[u8]) -> Result<Option<Actor>, AllocError>
    ensures some { IfOk result (λ found. IfSome found (λ actor. IsActor actor × (word.now ≡ actor_text actor))) }
    ensures none { result ≡ Ok None → (actor : Actor) → IsActor actor → word.now ≡ actor_text actor → ⊥ }
{
    if let Some(k) = numbered(alloc, word, b"c", 255)? {
        return Ok(Some(Actor::Client(k as u8)));
    }
    if let Some(k) = numbered(alloc, word, b"w", 255)? {
        return Ok(Some(Actor::Worker(k as u8)));
    }
    if same_bytes(word, b"p") {
        return Ok(Some(Actor::Primary));
    }
    Ok(None)
}

fn is_actor(alloc: Global, word: &[u8]) -> Result<bool, AllocError>
    ensures { IfOk result (λ is. IsTrue is ↔ ((actor : Actor) × IsActor actor × (word.now ≡ actor_text actor))) }
{
    let actor = read_actor(alloc, word)?;
    Ok(actor.is_some())
}

// One or more actors with commas between them.
fn are_actors(alloc: Global, text: &[u8]) -> Result<bool, AllocError>
    ensures { IfOk result (λ are. IsTrue are ↔ AreActors text.now) }
{
    let mut rest = text;
    while let Some(piece) = cut_text(rest, b',') {
        if !is_actor(alloc, piece.front)? {
            return Ok(false);
        }
        rest = piece.rest;
    }
    is_actor(alloc, rest)
}

/// What follows the actors that sent the request on, where there are any.
pub fn behind_via(alloc: Global, tail: &[u8]) -> Result<Option<&[u8]>, AllocError>
    ensures some { IfOk result (λ found. IfSome found (λ rest. (via : List Actor) × AllByRecursion IsActor via × (tail.now ≡ via_text via ++ rest.now))) }
    ensures all { (via : List Actor) (why : Option Excuse) → AllByRecursion IsActor via → tail.now ≡ via_text via ++ end_text why
        → IfOk result (λ found. (found ≡ None → ⊥) × IfSome found (λ rest. rest.now ≡ end_text why)) }
{
    let Some(list) = behind(tail, b" via ") else {
        return Ok(Some(tail));
    };
    let word = first_word(list);
    if are_actors(alloc, word.front)? {
        Ok(Some(word.rest))
    } else {
        Ok(None)
    }
}
