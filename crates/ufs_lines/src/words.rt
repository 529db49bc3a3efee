// Words and numbers of a line, each read exactly.
ghost use Rattle.std.specs.Prelude.{◌≡◌, ◌==◌, ◌≤◌, ◌<◌, ◌^◌, ◌++◌, ◌∷◌, [], ℕ, List, Ok, None, IfOk, IfSome, IsTrue, ◌↔◌, position};
ghost use Rattle.std.specs.Fmt.{decimal};
ghost use Rattle.ufs_lines.specs.Trace.{IsCut, IsFirstWord};

use std::alloc::{AllocError, Global};

/// The front of a text, and what follows it.
#[derive(Clone, Copy)]
pub struct Cut<'a> {
    pub front: &'a [u8],
    pub rest: &'a [u8],
}

/// The first place at which a byte stands.
pub fn place_of(text: &[u8], byte: u8) -> Option<usize>
    ensures { result ≡ position (λ b. b == byte) text.now }
{
    text.iter().position(|b| *b == byte)
}

/// What stands before the first such byte, and what follows it.
pub fn cut_text(text: &[u8], byte: u8) -> Option<Cut<'_>>
    ensures some { IfSome result (λ cut. IsCut byte text.now cut.front.now cut.rest.now) }
    ensures none { result ≡ None → (front rest : List ℕ) → IsCut byte text.now front rest → ⊥ }
{
    let end = place_of(text, byte)?;
    Some(Cut {
        front: &text[..end],
        rest: &text[end + 1..],
    })
}

/// The first word, and what follows it from the space on.
pub fn first_word(text: &[u8]) -> Cut<'_>
    ensures { IsFirstWord text.now result.front.now result.rest.now }
{
    match place_of(text, b' ') {
        Some(end) => Cut {
            front: &text[..end],
            rest: &text[end..],
        },
        None => Cut {
            front: text,
            rest: b"".as_slice(),
        },
    }
}

/// Whether both are the same bytes.
pub fn same_bytes(a: &[u8], b: &[u8]) -> bool
    ensures { IsTrue result ↔ (a.now ≡ b.now) }
{
    a == b
}

/// What follows a word at the front.
pub fn behind<'a>(text: &'a [u8], word: &[u8]) -> Option<&'a [u8]>
    ensures some { IfSome result (λ rest. text.now ≡ word.now ++ rest.now) }
    ensures none { result ≡ None → (rest : List ℕ) → text.now ≡ word.now ++ rest → ⊥ }
{
    let len = word.len();
    if text.len() < len || !same_bytes(&text[..len], word) {
        return None;
    }
    Some(&text[len..])
}

/// A line without the byte that stands last, where it is that byte.
pub fn without_last(line: &[u8], byte: u8) -> Option<&[u8]>
    ensures some { IfSome result (λ front. line.now ≡ front.now ++ byte ∷ []) }
    ensures none { result ≡ None → (front : List ℕ) → line.now ≡ front ++ byte ∷ [] → ⊥ }
{
    let [front @ .., last] = line else {
        return None;
    };
    if *last == byte { Some(front) } else { None }
}

// Whether the bytes are those of the number.
fn is_number(alloc: Global, n: u64, bytes: &[u8]) -> Result<bool, AllocError>
    ensures { IfOk result (λ is. IsTrue is ↔ (bytes.now ≡ decimal n)) }
{
    let text = format!(in alloc; "{n}")?;
    Ok(bytes == text.as_bytes())
}

/// The number that is printed so.
pub fn number(alloc: Global, bytes: &[u8]) -> Result<Option<u64>, AllocError>
    ensures some { IfOk result (λ found. IfSome found (λ n. bytes.now ≡ decimal n)) }
    ensures few { IfOk result (λ found. IfSome found (λ n. n < 2 ^ 64)) }
    ensures none { result ≡ Ok None → (n : ℕ) → n < 2 ^ 64 → bytes.now ≡ decimal n → ⊥ }
{
    let Ok(text) = str::from_utf8(bytes) else {
        return Ok(None);
    };
    let Ok(n) = text.parse::<u64>() else {
        return Ok(None);
    };
    if is_number(alloc, n, bytes)? {
        Ok(Some(n))
    } else {
        Ok(None)
    }
}

/// The number, at most this, that is printed behind a word.
pub fn numbered(
    alloc: Global,
    text: &[u8],
    word: &[u8],
    most: u64,
) -> Result<Option<u64>, AllocError>
    ensures some { IfOk result (λ found. IfSome found (λ n. text.now ≡ word.now ++ decimal n)) }
    ensures few { IfOk result (λ found. IfSome found (λ n. n ≤ most)) }
    ensures none { result ≡ Ok None → (n : ℕ) → n ≤ most → text.now ≡ word.now ++ decimal n → ⊥ }
{
    let Some(digits) = behind(text, word) else {
        return Ok(None);
    };
    let Some(n) = number(alloc, digits)? else {
        return Ok(None);
    };
    if n > most {
        return Ok(None);
    }
    Ok(Some(n))
}
