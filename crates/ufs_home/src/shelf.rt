// The files that are at the primary, by their numbers.
ghost use Rattle.std.specs.Prelude.{◌≡◌, IfOk, IsSome, None, Some};
ghost use Rattle.std.specs.BTreeMap.{get, insert_entry, keys};
ghost use Rattle.std.specs.Ordering.{nat_cmp};
ghost use Rattle.ufs_held.specs.Together.{HasThemToo};
ghost use Rattle.ufs_home.specs.Lending.{one_in};

use crate::at_home::AtHome;
use std::alloc::Global;
use std::collections::BTreeMap;
use std::marker::Model;
use ufs_base::Memory;
use ufs_held::{HeldFile, Parcel};
use ufs_joint::{Hand, HandTable, Naming};

/// A place for each file that the primary has or may get: it is empty while the file is elsewhere, is lent to a request, or isn't made
/// yet. A file that comes back finds its place, so that takes no memory.
#[derive(Drop)]
pub(crate) struct Shelf<N: Naming> {
    places: BTreeMap<u32, Option<AtHome<N>>>,
}

impl<N: Naming> Model for Shelf<N> {
    ghost use Rattle.std.specs.Coded.{coded_option, coded_ℕ};
    ghost use Rattle.std.specs.FinMap as fin;
    ghost use Rattle.std.specs.Ordering.{nat_cmp};
    ghost use Rattle.ufs_calls.specs.Seen.{seen};
    ghost use Rattle.ufs_home.specs.Places.{AreNumbered, Places};
    ghost use Rattle.ufs_joint.specs.Codes.{file_code};

    ghost Value = { Places };

    ghost coded = { fin.code coded_ℕ (coded_option file_code) };

    ghost view = { λ s. seen nat_cmp (λ k. k) s.places };

    ghost invariant = { λ s. AreNumbered (seen nat_cmp (λ k. k) s.places) };
}

impl<N: Naming> Shelf<N> {
    ghost use Rattle.std.specs.Prelude.{ℕ, ◌≡◌, ◌≤◌, ◌<◌, ◌^◌, IfErr, IfOk, IsSome, None, OnErr, OnOk, Some, cond, eqb, is_some, not};
    ghost use Rattle.std.specs.FinMap as fin;
    ghost use Rattle.ufs_held.specs.Together.{HasThemToo, under_numbers};
    ghost use Rattle.ufs_hand_laws.specs.Owned.{count};
    ghost use Rattle.ufs_home.specs.Lending.{files_in};
    ghost use Rattle.ufs_home.specs.Places.{file_here, with_place};

    /// No place. Takes no memory.
    pub(crate) fn new(alloc: Global) -> Shelf<N>
        ensures { result ≡ fin.empty }
    {
        Shelf {
            places: BTreeMap::new(alloc),
        }
    }

    /// Whether the file is here.
    pub(crate) fn has(&self, file: u32) -> bool
        ensures { result ≡ is_some (file_here self.now file) }
    {
        match self.places.get(&file) {
            Some(place) => place.is_some(),
            None => false,
        }
    }

    /// The numbers of all places, in order.
    pub(crate) fn numbers(&self, alloc: Global) -> Result<Vec<u32>, Memory>
        ensures { IfOk result (λ numbers. numbers.items ≡ fin.keys self.now) }
    {
        // For the prover alone.
        let _count = self.places.len();
        numbers_of(alloc, &self.places)
    }

    /// There is a place for the file, as it was if there was one, and else empty. Answers whether it was made.
    pub(crate) fn make_place(&mut self, file: u32) -> Result<bool, Memory>
        ensures ok { OnOk result (self.new ≡ with_place self.old file) }
        ensures made { IfOk result (λ made. made ≡ not (is_some (fin.get self.old file))) }
        ensures err { OnErr result (self.new ≡ self.old) }
    {
        if self.places.contains_key(&file) {
            return Ok(false);
        }
        self.places.insert(file, None)?;
        Ok(true)
    }

    /// The empty place of the file goes, if it was made.
    pub(crate) fn unmake_place(&mut self, file: u32, made: bool)
        requires { file_here self.old file ≡ None }
        ensures { self.new ≡ cond made (fin.remove self.old file) self.old }
    {
        if made {
            self.forget(file);
        }
    }

    /// The file goes to its place, which is empty.
    pub(crate) fn fill(&mut self, file: AtHome<N>)
        requires { fin.get self.old file.value.file.file ≡ Some None }
        ensures { self.new ≡ fin.insert self.old file.value.file.file (Some file) }
    {
        let number = file.number();
        match self.places.insert(number, Some(file)) {
            Ok(_) => {}
            Err(_) => unreachable!(),
        }
    }

    /// A file comes, which isn't here. It comes back where it has no place and there is no memory for one.
    pub(crate) fn add(&mut self, parcel: Parcel<N>) -> Result<(), (Memory, Parcel<N>)>
        requires { file_here self.old parcel.value.file.file ≡ None }
        ensures ok { OnOk result (self.new ≡ fin.insert self.old parcel.value.file.file (Some parcel)) }
        ensures back { IfErr result (λ x. x.1 ≡ parcel) }
        ensures err { OnErr result (self.new ≡ self.old) }
    {
        match self.make_place(parcel.number()) {
            Ok(_) => {
                self.fill(AtHome::of_parcel(parcel));
                Ok(())
            }
            Err(memory) => Err((memory, parcel)),
        }
    }

    /// The file of this number, which is here. Its place is empty then.
    pub(crate) fn take(&mut self, file: u32) -> AtHome<N>
        requires { IsSome (file_here self.old file) }
        ensures file { file_here self.old file ≡ Some result }
        ensures empty { self.new ≡ fin.insert self.old file None }
        ensures number { result.value.file.file ≡ file }
    {
        match empty_place(&mut self.places, file) {
            Some(at_home) => at_home,
            None => unreachable!(),
        }
    }

    /// The same, with what is known of its commits. Where no memory was found for that of a new file all is as it was.
    pub(crate) fn lend(&mut self, file: u32, alloc: Global) -> Result<HeldFile<N>, Memory>
        requires { IsSome (file_here self.old file) }
        ensures lent { IfOk result (λ held. (file_here self.old file ≡ Some held) × (held.value.file.file ≡ file) × (self.new ≡ fin.insert self.old file None)) }
        ensures low { IfOk result (λ held. held.value.file.file < 2 ^ 31) }
        ensures kept { OnErr result (self.new ≡ self.old) }
    {
        match self.take(file).into_held(alloc) {
            Ok(held) => Ok(held),
            Err((memory, back)) => {
                self.fill(back);
                Err(memory)
            }
        }
    }

    /// The file's place, which is empty or isn't there, goes.
    pub(crate) fn forget(&mut self, file: u32)
        requires { file_here self.old file ≡ None }
        ensures { self.new ≡ fin.remove self.old file }
    {
        // For the prover alone.
        let _count = self.places.len();
        let _place = self.places.remove(&file);
    }

    /// The right to each file that is here comes to the hand. The files themselves are let go.
    pub(crate) fn join_all(self, table: &HandTable<N>, hand: &mut Hand<N>)
        ensures joined { HasThemToo (files_in self) hand.old hand.new }
        ensures each { (file : ℕ) → IsSome (file_here self file) → 1 ≤ count eqb file (under_numbers (files_in self)) }
    {
        for entry in self.places {
            join_place(table, hand, entry.1);
        }
    }
}

// The right to the file in this place, if there is one, comes to the hand.
fn join_place<N: Naming>(table: &HandTable<N>, hand: &mut Hand<N>, place: Option<AtHome<N>>)
    ensures { HasThemToo (one_in place) hand.old hand.new }
{
    match place {
        Some(file) => hand.join(table, file.into_hand()),
        None => {}
    }
}

// What is in the place of this number, which is there. It is empty then.
fn empty_place<N: Naming>(
    places: &mut BTreeMap<u32, Option<AtHome<N>>>,
    file: u32,
) -> Option<AtHome<N>>
    requires { IsSome (get nat_cmp places.old file) }
    ensures value { get nat_cmp places.old file ≡ Some result }
    ensures entries { places.new.entries ≡ insert_entry nat_cmp places.old.entries file None }
{
    match places.insert(file, None) {
        Ok(Some(place)) => place,
        Ok(None) => unreachable!(),
        Err(_) => unreachable!(),
    }
}

fn numbers_of<N: Naming>(
    alloc: Global,
    places: &BTreeMap<u32, Option<AtHome<N>>>,
) -> Result<Vec<u32>, Memory>
    ensures { IfOk result (λ numbers. numbers.items ≡ keys places.now) }
{
    let numbers = places.keys().copied().collect(alloc)?;
    Ok(numbers)
}
