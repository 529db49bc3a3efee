// The excuses of a line of a trace.
ghost use Rattle.std.specs.Prelude.{◌≡◌, ◌<◌, ◌^◌, ◌++◌, ℕ, List, Ok, None, Option, Some, IfOk, IfSome, IsTrue, false, ◌↔◌, codes};
ghost use Rattle.std.specs.Fmt.{decimal};
ghost use Rattle.ufs_model.specs.declared.data.Excuse.{Excuse};
ghost use Rattle.ufs_model.specs.Excuses.{is_memory};
ghost use Rattle.ufs_model.specs.declared.data.Excuse.TheVariants as excuse;
ghost use Rattle.ufs_script.specs.Output.{excuse_words};
ghost use Rattle.ufs_lines.specs.Trace.{IsExcuse, IsWhy, end_text, excuse_told};
ghost use Rattle.ufs_lines.specs.declared.told.Why.{Why};

use crate::told::Why;
use crate::words::{behind, cut_text, number, numbered, same_bytes};
use std::alloc::{AllocError, Global};
use ufs_model::Excuse;

const MAX_U32: u64 = 4_294_967_295;

const MAX_U64: u64 = 18_446_744_073_709_551_615;

fn read_blocks(alloc: Global, words: &[u8]) -> Result<Option<Excuse>, AllocError>
    ensures some { IfOk result (λ found. IfSome found (λ x. IsExcuse x × (words.now ≡ excuse_words x) × (is_memory x ≡ false))) }
    ensures none { result ≡ Ok None → (need had : ℕ) → need < 2 ^ 32 → had < 2 ^ 32 → words.now ≡ excuse_words (excuse.Blocks need had) → ⊥ }
{
    let Some(numbers) = behind(words, b"blocks ") else {
        return Ok(None);
    };
    let Some(pair) = cut_text(numbers, b' ') else {
        return Ok(None);
    };
    let Some(need) = numbered(alloc, pair.front, b"", MAX_U32)? else {
        return Ok(None);
    };
    let Some(had) = numbered(alloc, pair.rest, b"", MAX_U32)? else {
        return Ok(None);
    };
    Ok(Some(Excuse::Blocks {
        need: need as u32,
        had: had as u32,
    }))
}

fn read_extents(alloc: Global, words: &[u8]) -> Result<Option<Excuse>, AllocError>
    ensures some { IfOk result (λ found. IfSome found (λ x. IsExcuse x × (words.now ≡ excuse_words x) × (is_memory x ≡ false))) }
    ensures none { result ≡ Ok None → (need : ℕ) → need < 2 ^ 32 → words.now ≡ excuse_words (excuse.Extents need) → ⊥ }
{
    let Some(numbers) = behind(words, b"extents ") else {
        return Ok(None);
    };
    let Some(pair) = cut_text(numbers, b' ') else {
        return Ok(None);
    };
    if !same_bytes(pair.rest, b"56") {
        return Ok(None);
    }
    let Some(need) = numbered(alloc, pair.front, b"", MAX_U32)? else {
        return Ok(None);
    };
    Ok(Some(Excuse::Extents { need: need as u32 }))
}

// An excuse other than want of memory.
fn read_other(alloc: Global, words: &[u8]) -> Result<Option<Excuse>, AllocError>
    ensures some { IfOk result (λ found. IfSome found (λ x. IsExcuse x × (words.now ≡ excuse_words x) × (is_memory x ≡ false))) }
    ensures none { result ≡ Ok None → (x : Excuse) → IsExcuse x → is_memory x ≡ false → words.now ≡ excuse_words x → ⊥ }
{
    if let Some(fault) = numbered(alloc, words, b"device ", MAX_U64)? {
        return Ok(Some(Excuse::Device { fault }));
    }
    if let Some(fault) = numbered(alloc, words, b"stopped ", MAX_U64)? {
        return Ok(Some(Excuse::Stopped { fault }));
    }
    if same_bytes(words, b"inodes 1 0") {
        return Ok(Some(Excuse::Inodes));
    }
    if let Some(blocks) = read_blocks(alloc, words)? {
        return Ok(Some(blocks));
    }
    read_extents(alloc, words)
}

/// Why the request is excused, if it is.
pub fn read_why(alloc: Global, tail: &[u8]) -> Result<Option<Why>, AllocError>
    ensures some { IfOk result (λ found. IfSome found (λ why. IsWhy why × (tail.now ≡ end_text (excuse_told why)))) }
    ensures none { result ≡ Ok None → (why : Why) → IsWhy why → tail.now ≡ end_text (excuse_told why) → ⊥ }
{
    if tail.is_empty() {
        return Ok(Some(Why::Served));
    }
    let Some(words) = behind(tail, b" excuse ") else {
        return Ok(None);
    };
    if same_bytes(words, b"memory") {
        return Ok(Some(Why::Starved));
    }
    let Some(excuse) = read_other(alloc, words)? else {
        return Ok(None);
    };
    Ok(Some(Why::Excused(excuse)))
}
