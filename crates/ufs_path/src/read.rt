ghost use Rattle.std.specs.Prelude.{◌≡◌, ℕ, List, ◌++◌, ◌∷◌, [], None, IfOk, OnOk, IfErr, IfSome, IfNone, IsOkUnless, length, nat_lt, filter};
ghost use Rattle.ufs_base.specs.Wanting.{wanting};
ghost use Rattle.ufs_model.specs.Paths.{components, text_refusal, whole_path};
ghost use Rattle.ufs_path.specs.Faults.{first_fault, errno_of};
ghost use Rattle.ufs_path.specs.Texts.{joined, ends_from};

use crate::check::path_fault;
use crate::fault::PathFault;
use crate::text::PathText;
use std::alloc::{AllocError, Global};
use ufs_base::Memory;

/// The components of a path. The text is looked at first and without memory, so a text that has a
/// fault is answered by it, and want of memory comes only of a text that has none.
pub fn read_path(alloc: Global, path: &[u8]) -> Result<PathText, PathFault>
    ensures components { IfOk result (λ text. text ≡ components path.now) }

    // The fault that is answered is the first.
    ensures refused { IfSome (first_fault path.now) (λ fault. result ≡ Err fault) }
    ensures allowed { IfNone (first_fault path.now) (IsOkUnless result (PathFault.Memory wanting)) }

    // It tells what a client is answered.
    ensures errno { IfErr result (λ fault. errno_of fault ≡ text_refusal path.now) }
    ensures no_errno { OnOk result (text_refusal path.now ≡ None) }
{
    if let Some(fault) = path_fault(path) {
        return Err(fault);
    }
    match kept(alloc, path) {
        Ok(text) => Ok(text),
        Err(refused) => Err(PathFault::Memory(Memory::from(refused))),
    }
}

// A text that isn't refused, with its slashes made single.
fn kept(alloc: Global, path: &[u8]) -> Result<PathText, AllocError>
    requires { text_refusal path.now ≡ None }
    ensures { IfOk result (λ text. text ≡ components path.now) }
{
    let mut bytes = Vec::with_capacity(alloc, path.len())?;
    let mut ends = Vec::new(alloc);
    for piece in path.split(|b| *b == b'/') {
        add_piece(&mut bytes, &mut ends, piece)?;
    }
    let whole = rooted(bytes)?;
    Ok(PathText::from_parts(whole, ends))
}

// One slash where there is no component.
fn rooted(mut bytes: Vec<u8>) -> Result<Vec<u8>, AllocError>
    ensures { IfOk result (λ whole. (names : List (List ℕ)) → bytes.items ≡ joined names → whole.items ≡ whole_path names) }
{
    if bytes.is_empty() {
        bytes.push(b'/')?;
    }
    Ok(bytes)
}

// Appends a component, and nothing for a piece between two slashes that stand together.
fn add_piece(bytes: &mut Vec<u8>, ends: &mut Vec<usize>, piece: &[u8]) -> Result<(), AllocError>
    ensures bytes { OnOk result (bytes.new.items ≡ bytes.old.items ++ joined (filter (λ name. nat_lt 0 (length name)) (piece.now ∷ []))) }
    ensures ends { OnOk result (ends.new.items ≡ ends.old.items ++ ends_from (length bytes.old.items) (filter (λ name. nat_lt 0 (length name)) (piece.now ∷ []))) }
{
    if piece.is_empty() {
        return Ok(());
    }
    bytes.push(b'/')?;
    bytes.extend_from_slice(piece)?;
    ends.push(bytes.len())?;
    Ok(())
}
