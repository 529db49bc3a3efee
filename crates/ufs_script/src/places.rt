// The words behind a verb, by their places from 0: a word that is missing is a wrong word.
ghost use Rattle.std.specs.Prelude.{◌≡◌, ◌≤◌, IfOk, IfErr, map, length};
ghost use Rattle.ufs_model.specs.Bounds.{max_transfer};
ghost use Rattle.ufs_script.specs.Requests.{IsCauseOf};
ghost use Rattle.ufs_script.specs.Requests as specs;

use crate::fault::Cause;
use crate::words;
use std::alloc::Global;
use ufs_model::{Bytes, Whence};

/// A word, which has to be there.
pub fn word_at<'a>(words: &[&'a [u8]], place: usize) -> Result<&'a [u8], Cause>
    ensures ok { IfOk result (λ word. specs.word_at (map (λ w. w.now) words.now) place ≡ Ok word.now) }
    ensures err { IfErr result (λ c. specs.word_at (map (λ w. w.now) words.now) place ≡ Err c) }
{
    match words.get(place) {
        Some(word) => Ok(*word),
        None => Err(Cause::BadWord),
    }
}

/// Whether there are no more words than so many.
pub fn exactly(words: &[&[u8]], count: usize) -> Result<(), Cause>
    ensures { result ≡ specs.exactly count (map (λ w. w.now) words.now) record {} }
{
    if words.len() <= count {
        Ok(())
    } else {
        Err(Cause::BadWord)
    }
}

/// Any word is a path.
pub fn path_at(alloc: Global, words: &[&[u8]], place: usize) -> Result<Bytes, Cause>
    ensures ok { IfOk result (λ path. specs.path_at (map (λ w. w.now) words.now) place ≡ Ok path) }
    ensures err { IfErr result (IsCauseOf (specs.path_at (map (λ w. w.now) words.now) place)) }
{
    let word = word_at(words, place)?;
    Ok(words::path(alloc, word)?)
}

/// A number of any size that can be written.
pub fn number_at(words: &[&[u8]], place: usize) -> Result<u64, Cause>
    ensures { result ≡ specs.number_at (map (λ w. w.now) words.now) place }
{
    let word = word_at(words, place)?;
    words::number(word).ok_or(Cause::BadNumber)
}

/// How many bytes a read asks for.
pub fn count_at(words: &[&[u8]], place: usize) -> Result<u32, Cause>
    ensures value { result ≡ specs.count_at (map (λ w. w.now) words.now) place }
    ensures bound { IfOk result (λ n. n ≤ max_transfer) }
{
    let word = word_at(words, place)?;
    words::count(word).ok_or(Cause::BadNumber)
}

/// A number that may be negative.
pub fn signed_at(words: &[&[u8]], place: usize) -> Result<i64, Cause>
    ensures { result ≡ specs.signed_at (map (λ w. w.now) words.now) place }
{
    let word = word_at(words, place)?;
    words::signed(word).ok_or(Cause::BadNumber)
}

/// Where a seek counts from.
pub fn whence_at(words: &[&[u8]], place: usize) -> Result<Whence, Cause>
    ensures { result ≡ specs.whence_at (map (λ w. w.now) words.now) place }
{
    let word = word_at(words, place)?;
    words::whence(word).ok_or(Cause::BadWord)
}

/// How a file is opened.
pub fn mode_at(words: &[&[u8]], place: usize) -> Result<(bool, bool), Cause>
    ensures { result ≡ specs.mode_at (map (λ w. w.now) words.now) place }
{
    let word = word_at(words, place)?;
    words::mode(word).ok_or(Cause::BadWord)
}

/// The bytes of a write.
pub fn data_at(alloc: Global, words: &[&[u8]], place: usize) -> Result<Bytes, Cause>
    ensures ok { IfOk result (λ bytes. specs.data_at (map (λ w. w.now) words.now) place ≡ Ok bytes) }
    ensures err { IfErr result (IsCauseOf (specs.data_at (map (λ w. w.now) words.now) place)) }
    ensures bound { IfOk result (λ bytes. length bytes ≤ max_transfer) }
{
    let word = word_at(words, place)?;
    match words::data(alloc, word)? {
        Some(bytes) => Ok(Bytes::from_vec(bytes)),
        None => Err(Cause::BadData),
    }
}
