ghost use Rattle.std.specs.Prelude.{◌≡◌};
ghost use Rattle.ufs_script.specs.Requests as specs;

/// The first word of a request.
#[derive(Clone, Copy, Debug, PartialEq, Eq)]
pub enum Verb {
    Open,
    Close,
    Read,
    Write,
    Pread,
    Pwrite,
    Seek,
    Trunc,
    Fsync,
    Sync,
    Mkdir,
    Rmdir,
    Unlink,
    Rename,
    Stat,
    List,
}

/// The verb that a word is.
pub fn verb_of(word: &[u8]) -> Option<Verb>
    ensures { result ≡ specs.verb_of word.now }
{
    if word == b"open".as_slice() {
        Some(Verb::Open)
    } else if word == b"close".as_slice() {
        Some(Verb::Close)
    } else if word == b"read".as_slice() {
        Some(Verb::Read)
    } else if word == b"write".as_slice() {
        Some(Verb::Write)
    } else if word == b"pread".as_slice() {
        Some(Verb::Pread)
    } else if word == b"pwrite".as_slice() {
        Some(Verb::Pwrite)
    } else if word == b"seek".as_slice() {
        Some(Verb::Seek)
    } else if word == b"trunc".as_slice() {
        Some(Verb::Trunc)
    } else if word == b"fsync".as_slice() {
        Some(Verb::Fsync)
    } else if word == b"sync".as_slice() {
        Some(Verb::Sync)
    } else if word == b"mkdir".as_slice() {
        Some(Verb::Mkdir)
    } else if word == b"rmdir".as_slice() {
        Some(Verb::Rmdir)
    } else if word == b"unlink".as_slice() {
        Some(Verb::Unlink)
    } else if word == b"rename".as_slice() {
        Some(Verb::Rename)
    } else if word == b"stat".as_slice() {
        Some(Verb::Stat)
    } else if word == b"list".as_slice() {
        Some(Verb::List)
    } else {
        None
    }
}
