// Which lines are those of replies.
ghost use Rattle.std.specs.Prelude.{◌≡◌, ◌≢◌, ◌≤◌, ◌<◌, ◌^◌, ◌∷◌, ◌++◌, ◌⊎◌, [], ℕ, List, IfOk, IsTrue, ◌↔◌, length, codes, Some, None, MatchResult};
ghost use Rattle.std.specs.Option.{option_map};
ghost use Rattle.std.specs.Fmt.{decimal};
ghost use Rattle.hex.specs.Hex.{IsBytes, decode_of, encode_lower};
ghost use Rattle.ufs_script.specs.Spelling.{data_text};
ghost use Rattle.ufs_lines.specs.Replies.{IsReplyText, IsReplyLine, IsErrorText, IsCountText, IsNamesText, AreNames, IsErrno};

use crate::words::{behind, first_word, number, numbered, same_bytes, without_last};
use std::alloc::{AllocError, Global};

const MAX_U32: u64 = 4_294_967_295;

const MAX_U64: u64 = 18_446_744_073_709_551_615;

fn is_numbered(alloc: Global, text: &[u8], word: &[u8], most: u64) -> Result<bool, AllocError>
    ensures { IfOk result (λ is. IsTrue is ↔ ((n : ℕ) × (n ≤ most) × (text.now ≡ word.now ++ decimal n))) }
{
    let n = numbered(alloc, text, word, most)?;
    Ok(n.is_some())
}

// Whether the text is that of a reply with a number.
fn is_count(alloc: Global, text: &[u8]) -> Result<bool, AllocError>
    ensures { IfOk result (λ is. IsTrue is ↔ IsCountText text.now) }
{
    if is_numbered(alloc, text, b"fd ", MAX_U32)? {
        return Ok(true);
    }
    if is_numbered(alloc, text, b"n ", MAX_U32)? {
        return Ok(true);
    }
    if is_numbered(alloc, text, b"at ", MAX_U64)? {
        return Ok(true);
    }
    if is_numbered(alloc, text, b"file ", MAX_U64)? {
        return Ok(true);
    }
    is_numbered(alloc, text, b"dir ", MAX_U32)
}

// The bytes that pairs of digits stand for, if they are such.
fn decoded(alloc: Global, digits: &[u8]) -> Result<Option<Vec<u8>>, AllocError>
    ensures { IfOk result (λ found. MatchResult (decode_of digits.now) (λ bytes. option_map (λ v. v.items) found ≡ Some bytes) (λ e. option_map (λ v. v.items) found ≡ None)) }
{
    let mut bytes = vec![in alloc; 0u8; digits.len() / 2]?;
    match hex::decode_to_slice(digits, &mut bytes) {
        Ok(()) => Ok(Some(bytes)),
        Err(_) => Ok(None),
    }
}

// Whether they are the digits of some bytes, in lower case.
fn are_digits(alloc: Global, digits: &[u8]) -> Result<bool, AllocError>
    ensures { IfOk result (λ are. IsTrue are ↔ ((bytes : List ℕ) × IsBytes bytes × (digits.now ≡ encode_lower bytes))) }
{
    let Some(bytes) = decoded(alloc, digits)? else {
        return Ok(false);
    };
    let text = hex::encode(alloc, bytes.as_slice())?;
    Ok(same_bytes(digits, text.as_bytes()))
}

fn is_data(alloc: Global, text: &[u8]) -> Result<bool, AllocError>
    ensures { IfOk result (λ is. IsTrue is ↔ ((bytes : List ℕ) × IsBytes bytes × (text.now ≡ codes "data " ++ data_text bytes))) }
{
    let Some(digits) = behind(text, b"data ") else {
        return Ok(false);
    };
    if same_bytes(digits, b"-") {
        return Ok(true);
    }
    if digits.is_empty() {
        return Ok(false);
    }
    are_digits(alloc, digits)
}

// Whether so many names stand there, each behind a space. A name may have spaces in it.
fn are_names(text: &[u8], count: u64) -> bool
    ensures { IsTrue result ↔ AreNames count text.now }
{
    if count == 0 {
        return text.is_empty();
    }
    let mut rest = text;
    let mut more = count;
    while more > 1 {
        let Some(name) = behind(rest, b" ") else {
            return false;
        };
        rest = first_word(name).rest;
        more -= 1;
    }
    behind(rest, b" ").is_some()
}

fn is_names(alloc: Global, text: &[u8]) -> Result<bool, AllocError>
    ensures { IfOk result (λ is. IsTrue is ↔ IsNamesText text.now) }
{
    let Some(names) = behind(text, b"names ") else {
        return Ok(false);
    };
    let word = first_word(names);
    let Some(count) = number(alloc, word.front)? else {
        return Ok(false);
    };
    Ok(are_names(word.rest, count))
}

// Whether it is one of four words.
fn is_one_of(word: &[u8], a: &[u8], b: &[u8], c: &[u8], d: &[u8]) -> bool
    ensures { IsTrue result ↔ ((word.now ≡ a.now) ⊎ (word.now ≡ b.now) ⊎ (word.now ≡ c.now) ⊎ (word.now ≡ d.now)) }
{
    same_bytes(word, a) || same_bytes(word, b) || same_bytes(word, c) || same_bytes(word, d)
}

// Whether it is the name of a refusal or of an excuse.
fn is_errno(name: &[u8]) -> bool
    ensures { IsTrue result ↔ IsErrno name.now }
{
    if is_one_of(name, b"ENOENT", b"EINVAL", b"ENAMETOOLONG", b"ENOTDIR") {
        return true;
    }
    if is_one_of(name, b"EEXIST", b"EISDIR", b"ENOTEMPTY", b"EBUSY") {
        return true;
    }
    if is_one_of(name, b"EPERM", b"EBADF", b"EMFILE", b"EFBIG") {
        return true;
    }
    is_one_of(name, b"EIO", b"ENOSPC", b"ENOMEM", b"ENOMEM")
}

fn is_error(text: &[u8]) -> bool
    ensures { IsTrue result ↔ IsErrorText text.now }
{
    let Some(name) = behind(text, b"err ") else {
        return false;
    };
    is_errno(name)
}

fn is_reply(alloc: Global, text: &[u8]) -> Result<bool, AllocError>
    ensures { IfOk result (λ is. IsTrue is ↔ IsReplyText text.now) }
{
    if same_bytes(text, b"ok") {
        return Ok(true);
    }
    if is_error(text) {
        return Ok(true);
    }
    if is_count(alloc, text)? {
        return Ok(true);
    }
    if is_data(alloc, text)? {
        return Ok(true);
    }
    is_names(alloc, text)
}

/// Whether the line, with its end, is that of some reply to the client's request of this number.
pub fn is_reply_line(alloc: Global, client: u8, seq: u32, line: &[u8]) -> Result<bool, AllocError>
    ensures { IfOk result (λ is. IsTrue is ↔ IsReplyLine client seq line.now) }
{
    let front = format!(in alloc; "{client}.{seq} ")?;
    let Some(rest) = behind(line, front.as_bytes()) else {
        return Ok(false);
    };
    let Some(text) = without_last(rest, b'\n') else {
        return Ok(false);
    };
    is_reply(alloc, text)
}
