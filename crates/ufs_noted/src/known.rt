// Files that come with a request of the names, and go back.
ghost use Rattle.std.specs.Prelude.{◌≡◌, [], true, false, Some, None, IfOk, IfSome, IsSome};
ghost use Rattle.std.specs.FinMap as map;
ghost use Rattle.ufs_noted.specs.Known.{IsKnownThen, IsSettledWith, file_in};
ghost use Rattle.ufs_noted.specs.Noted.{one_file};
ghost use Rattle.ufs_names.specs.Calls.{no_bytes};

use std::alloc::Global;
use ufs_base::Memory;
use ufs_bitmap::Pool;
use ufs_extent::Extents;
use ufs_file::{Applied, FileHand};
use ufs_file_commits::FileCommits;
use ufs_files::FileHands;
use ufs_pouring::add_runs;

/// A file with what is known of its commits.
#[derive(Drop)]
pub struct KnownFile {
    pub hand: FileHand,
    pub commits: FileCommits,
}

/// What a request came to that touches no file that is there, and the file that it made.
#[derive(Drop)]
pub struct Made {
    pub applied: Applied,
    pub file: Option<FileHand>,
}

/// What a request came to, and the file that it touches, if that is still there.
#[derive(Drop)]
pub struct With {
    pub applied: Applied,
    pub file: Option<KnownFile>,
}

// What is needed to put a file among those that the names are lent, and to note that it was emptied.
#[derive(Drop)]
pub(crate) struct Place {
    /// An empty file stands in the place of the one that is to come.
    pub files: FileHands,
    pub before: Extents,
    pub none: Extents,
}

pub(crate) fn make_place(alloc: Global, hand: &FileHand) -> Result<Place, Memory>
    ensures files { IfOk result (λ p. p.files ≡ one_file hand.now.file (Some (no_bytes hand.now.file 0))) }
    ensures before { IfOk result (λ p. p.before ≡ hand.now.extents) }
    ensures none { IfOk result (λ p. p.none ≡ []) }
{
    let mut files = FileHands::new(alloc);
    files.make(hand.file(), 0)?;
    Ok(Place {
        files,
        before: Extents::from_runs(alloc, hand.extent_list().as_slice())?,
        none: Extents::make(alloc)?,
    })
}

// This hand in the place of the one of its number, which is the answer. Takes no memory.
pub(crate) fn exchange(files: &mut FileHands, number: u32, hand: FileHand) -> FileHand
    requires number { hand.file ≡ number }
    requires here { IsSome (map.get files.old number) }
    ensures was { map.get files.old number ≡ Some result }
    ensures new { files.new ≡ map.insert files.old number hand }
{
    let Ok(Some(was)) = files.replace(number, hand) else {
        unreachable!()
    };
    was
}

// Takes the file of this number out, if it is here: an empty one stands in its place then.
pub(crate) fn take_out(files: &mut FileHands, number: u32, empty: FileHand) -> Option<FileHand>
    requires number { empty.file ≡ number }
    ensures value { result ≡ map.get files.old number }
{
    if files.get(number).is_none() {
        return None;
    }
    Some(exchange(files, number, empty))
}

// What is known of the touched file behind a request, if it is still there; else all that it had dropped is dropped with it. An excuse
// changes nothing.
pub(crate) fn settle(
    dropped: &mut Pool,
    taken: Option<FileHand>,
    commits: FileCommits,
    before: &Extents,
    none: &Extents,
    excused: bool,
) -> Option<KnownFile>
    requires before { excused ≡ false → before.now ≡ commits.log.noted.runs }
    requires none { none.now ≡ [] }
    requires there { excused ≡ true → IsSome taken }
    ensures file { file_in result ≡ taken }
    ensures settled { excused ≡ false → IsSettledWith commits dropped.old dropped.new result }
    ensures kept { excused ≡ true → IfSome result (λ known. known.commits ≡ commits) }
    ensures same { excused ≡ true → dropped.new ≡ dropped.old }
{
    match taken {
        Some(hand) => Some(known_then(hand, commits, before, none, excused)),
        None => {
            add_runs(dropped, commits.dropped().as_slice());
            None
        }
    }
}

// Where the file has neither a block nor a byte, that it was emptied is known.
fn known_then(
    hand: FileHand,
    commits: FileCommits,
    before: &Extents,
    none: &Extents,
    excused: bool,
) -> KnownFile
    requires before { excused ≡ false → before.now ≡ commits.log.noted.runs }
    requires none { none.now ≡ [] }
    ensures hand { result.hand ≡ hand }
    ensures commits { excused ≡ false → IsKnownThen hand commits result.commits }
    ensures kept { excused ≡ true → result.commits ≡ commits }
{
    if excused || !is_bare(&hand) {
        return KnownFile { hand, commits };
    }
    let mut commits = commits;
    commits.note_emptied(before, none);
    KnownFile { hand, commits }
}

fn is_bare(hand: &FileHand) -> bool
    ensures yes { result ≡ true → (hand.now.extents ≡ []) × (hand.now.content.bytes ≡ []) }
    ensures no { result ≡ false → hand.now.extents ≡ [] → hand.now.content.bytes ≡ [] → ⊥ }
{
    hand.extent_list().as_slice().is_empty() && hand.size() == 0
}
