// Each value gets the hand of its cell.
ghost use Rattle.std.specs.Prelude.{◌≡◌, ◌+◌, ◌≤◌, ◌∷◌, ◌++◌, [], true, eqb, length, IsTrue};
ghost use Rattle.std.specs.Vec.{vec_capacity, vec_len};
ghost use Rattle.ufs_bitmap.specs.Blocks.{BlockSet};
ghost use Rattle.ufs_joint.specs.FirstHand.{HasPoolAlone};
ghost use Rattle.ufs_dealt.specs.Dealt.{AreApart, rest_of, values_in, values_of};
ghost use Rattle.ufs_file_commits.specs.State.{state_of};
ghost use Rattle.ufs_held.specs.Together.{under_numbers};
ghost use Rattle.ufs_held_names.specs.HeldNames.{noted_in};
ghost use Rattle.ufs_joint.specs.Cells.{FileCell, NamesCell};
ghost use Rattle.ufs_joint.specs.Disks.{cell_of};
ghost use Rattle.ufs_joint.specs.NamesTurns.{live_files};
ghost use Rattle.ufs_joint.specs.Rule.{first_view};
ghost use Rattle.ufs_hand_laws.specs.Owned.{Has, without};
ghost use Rattle.ufs_store.specs.State.{geometry_of_store};
ghost use Rattle.ufs_turns.specs.HeldStore.{HasStoreAlone};

use std::sync::ledger::{Book, Ledger};
use ufs_file::FileHand;
use ufs_file_commits::FileCommits;
use ufs_held::HeldFile;
use ufs_held_names::HeldNames;
use ufs_joint::{Begun, Hand, HandTable, Naming, Opened};
use ufs_model::PartName;
use ufs_noted::{KnownFile, NotedNames};
use ufs_store::Door;
use ufs_turns::HeldStore;

/// A session whose first hand is dealt.
pub struct Dealt<N: Naming, S: Door, L: Ledger> {
    pub table: HandTable<N>,
    pub names: HeldNames<N>,
    pub store: HeldStore<N, S, L>,
    /// With each client, each pool and each file.
    pub hand: Hand<N>,
}

/// Deals the first hand of a session to its names and its store, which counts in this book.
pub fn deal<N: Naming, S: Door, L: Ledger>(
    opened: Opened,
    names: NotedNames,
    store: S,
    book: Book<L>,
) -> Dealt<N, S, L>
    requires name { (opened.table ≡ N.table) × (opened.start ≡ N.start) }
    requires plain { S.stamps → ⊥ }
    requires names { (cell : NamesCell) × ((first_view N.start).names ≡ (tt, cell) ∷ []) × (noted_in cell ≡ names) × (cell.named ≡ live_files cell.value) }
    requires store { (first_view N.start).store ≡ (tt, cell_of 0 [] (S.store store)) ∷ [] }
    requires formed { geometry_of_store (S.store store) ≡ N.start.geometry }
    requires origin { N.origin ≡ (S.store store).moments }
    requires sees { N.start.is_visible ≡ true → IsTrue S.visible }
    ensures names { (cell : NamesCell) → (first_view N.start).names ≡ (tt, cell) ∷ [] → result.names ≡ cell }
    ensures store { HasStoreAlone (cell_of 0 [] (S.store store)) result.store }
    ensures hand { result.hand ≡ rest_of (first_view N.start) }
{
    let Begun { table, mut hand } = opened.named::<N>();
    let own = hand.split(&table, PartName::Store);
    let store = HeldStore::new(own, store, book);
    let right = hand.split(&table, PartName::Names);
    let names = HeldNames::new(&table, names, right);
    Dealt {
        table,
        names,
        store,
        hand,
    }
}

/// Deals all files of the hand, with what is known of their commits, the rights to their cells, in the hand's order. Takes no memory:
/// there is room for them behind those that were dealt before.
pub fn deal_files<N: Naming>(
    table: &HandTable<N>,
    hand: &mut Hand<N>,
    files: Vec<KnownFile>,
    held: &mut Vec<HeldFile<N>>,
)
    requires here { values_in hand.old.files ≡ values_of files.items }
    requires apart { AreApart hand.old }
    requires room { vec_len held.old + length files.items ≤ vec_capacity held.old }
    ensures cells { under_numbers held.new.items ≡ under_numbers held.old.items ++ hand.old.files }
    ensures rest { hand.new ≡ record hand.old { files = [] } }
{
    for known in files {
        let KnownFile {
            hand: file,
            commits,
        } = known;
        held.push_reserved(deal_file(table, hand, file, commits));
    }
}

/// Deals a file, with what is known of its commits, the right to its cell.
pub fn deal_file<N: Naming>(
    table: &HandTable<N>,
    hand: &mut Hand<N>,
    file: FileHand,
    commits: FileCommits,
) -> HeldFile<N>
    requires has { (cell : FileCell) × Has (file.file, cell) hand.old.files × (cell.value ≡ state_of file commits) }
    requires apart { AreApart hand.old }
    ensures cell { (cell : FileCell) → Has (file.file, cell) hand.old.files → result ≡ cell }
    ensures left { hand.new ≡ record hand.old { files = without (eqb file.file) hand.old.files } }
    ensures apart { AreApart hand.new }
{
    let right = hand.split(table, PartName::File(file.file()));
    HeldFile::new(file, commits, right)
}

/// Deals a server's pool, by the number under which the server has it.
pub fn deal_pool<N: Naming>(table: &HandTable<N>, hand: &mut Hand<N>, number: u32) -> Hand<N>
    requires has { (pool : BlockSet) × Has (number, pool) hand.old.pools }
    requires apart { AreApart hand.old }
    ensures pool { (pool : BlockSet) → Has (number, pool) hand.old.pools → HasPoolAlone number pool result }
    ensures left { hand.new ≡ record hand.old { pools = without (eqb number) hand.old.pools } }
    ensures apart { AreApart hand.new }
{
    hand.split(table, PartName::File(number))
}
