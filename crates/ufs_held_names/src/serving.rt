// A request of the names is served: the hands are joined, it is applied and drawn, and the hands are parted again.
ghost use Rattle.std.specs.Prelude.{ℕ, ◌≡◌, ◌<◌, ◌^◌, [], None, Some, IfSome};
ghost use Rattle.ufs_file_commits.specs.State.{state_of};
ghost use Rattle.ufs_layout.specs.Areas.{IsGeometry};
ghost use Rattle.ufs_model.specs.declared.data.PartName.TheVariants.{File};
ghost use Rattle.ufs_hand_laws.specs.Parts.{ClientPart};
ghost use Rattle.ufs_promise_laws.specs.Parts.{committed_as};
ghost use Rattle.ufs_joint.specs.Cells.{given_of};
ghost use Rattle.ufs_joint.specs.Servers.{IsServer};
ghost use Rattle.ufs_held.specs.Asking.{IsGuest};
ghost use Rattle.ufs_held.specs.Held.{IsHeld};
ghost use Rattle.ufs_held_names.specs.Asked.{IsNamedApart, IsNeeded, number_of};
ghost use Rattle.ufs_held_names.specs.Asking.{AsksNames};
ghost use Rattle.ufs_held_names.specs.Come.{HasCome};
ghost use Rattle.ufs_held_names.specs.Drawn.{known_in, known_number, made_in, made_number, parted};
ghost use Rattle.ufs_held_names.specs.HeldNames.{HoldsNames, first_names};

use crate::draws::{draw_alone, draw_with};
use crate::held_names::NamesServed;
use crate::newborn::Newborn;
use std::mem;
use ufs_bitmap::Pool;
use ufs_file::{Applied, FileHand};
use ufs_held::HeldFile;
use ufs_joint::{Hand, HandTable, Naming};
use ufs_layout::Geometry;
use ufs_model::{Actor, Ask, PartName};
use ufs_noted::{KnownFile, Made, NotedNames, With};

// With the live file that it touches, if it does one.
pub(crate) fn serve_any<N: Naming>(
    table: &HandTable<N>,
    right: &mut Hand<N>,
    noted: &mut NotedNames,
    ask: Ask,
    guest: Hand<N>,
    by: Actor,
    pool: &mut Pool,
    file: Option<HeldFile<N>>,
    geometry: &Geometry,
) -> NamesServed<N>
    requires formed { IsGeometry geometry.now }
    requires its { geometry.now ≡ N.start.geometry }
    requires held { HoldsNames noted.old right.old }
    requires calm { right.old.faults ≡ [] }
    requires guest { (part : ClientPart) × (n : ℕ) × IsGuest ask.client part n pool.old guest × AsksNames part ask × IsNamedApart n noted.old.names.next file }
    requires server { IsServer by }
    requires numbers { noted.old.names.next < 2 ^ 31 }
    requires needed { IsNeeded noted.old.names ask (number_of file) }
    ensures held { HoldsNames noted.new right.new }
    ensures calm { right.new.faults ≡ [] }
    ensures came { HasCome ask by (first_names noted.old right.old.names) (first_names noted.new right.new.names) pool.old pool.new file result.file result.made result.entry result.desc guest result.guest }
{
    match file {
        Some(file) => serve_with(table, right, noted, ask, guest, by, pool, file, geometry),
        None => serve_alone(table, right, noted, ask, guest, by, pool, geometry),
    }
}

// Where it touches no live file.
fn serve_alone<N: Naming>(
    table: &HandTable<N>,
    right: &mut Hand<N>,
    noted: &mut NotedNames,
    ask: Ask,
    guest: Hand<N>,
    by: Actor,
    pool: &mut Pool,
    geometry: &Geometry,
) -> NamesServed<N>
    requires formed { IsGeometry geometry.now }
    requires its { geometry.now ≡ N.start.geometry }
    requires held { HoldsNames noted.old right.old }
    requires calm { right.old.faults ≡ [] }
    requires guest { (part : ClientPart) × (n : ℕ) × IsGuest ask.client part n pool.old guest × AsksNames part ask × IsNamedApart n noted.old.names.next None }
    requires server { IsServer by }
    requires numbers { noted.old.names.next < 2 ^ 31 }
    requires needed { IsNeeded noted.old.names ask None }
    ensures held { HoldsNames noted.new right.new }
    ensures calm { right.new.faults ≡ [] }
    ensures came { HasCome ask by (first_names noted.old right.old.names) (first_names noted.new right.new.names) pool.old pool.new None result.file result.made result.entry result.desc guest result.guest }
{
    right.join(table, guest);
    let Made { applied, file } = draw_alone(table, right, noted, ask, by, pool, geometry);
    let Applied { entry, desc } = applied;
    let made = part_made(table, right, file);
    let own = right.split(table, PartName::Names);
    let guest = mem::replace(right, own);
    NamesServed {
        entry,
        desc,
        guest,
        file: None,
        made,
    }
}

// Where it touches this one.
fn serve_with<N: Naming>(
    table: &HandTable<N>,
    right: &mut Hand<N>,
    noted: &mut NotedNames,
    ask: Ask,
    guest: Hand<N>,
    by: Actor,
    pool: &mut Pool,
    file: HeldFile<N>,
    geometry: &Geometry,
) -> NamesServed<N>
    requires formed { IsGeometry geometry.now }
    requires its { geometry.now ≡ N.start.geometry }
    requires held { HoldsNames noted.old right.old }
    requires calm { right.old.faults ≡ [] }
    requires guest { (part : ClientPart) × (n : ℕ) × IsGuest ask.client part n pool.old guest × AsksNames part ask × IsNamedApart n noted.old.names.next (Some file) }
    requires server { IsServer by }
    requires numbers { noted.old.names.next < 2 ^ 31 }
    requires needed { IsNeeded noted.old.names ask (Some file.value.file.file) }
    ensures held { HoldsNames noted.new right.new }
    ensures calm { right.new.faults ≡ [] }
    ensures came { HasCome ask by (first_names noted.old right.old.names) (first_names noted.new right.new.names) pool.old pool.new (Some file) result.file result.made result.entry result.desc guest result.guest }
{
    let (hand, commits, own) = file.into_parts();
    right.join(table, own);
    right.join(table, guest);
    let known = KnownFile { hand, commits };
    let With { applied, file } = draw_with(table, right, noted, ask, by, pool, known, geometry);
    let Applied { entry, desc } = applied;
    let file = part_known(table, right, file);
    let own = right.split(table, PartName::Names);
    let guest = mem::replace(right, own);
    NamesServed {
        entry,
        desc,
        guest,
        file,
        made: None,
    }
}

// The new file goes with its own cell, if there is one.
fn part_made<N: Naming>(
    table: &HandTable<N>,
    right: &mut Hand<N>,
    file: Option<FileHand>,
) -> Option<Newborn<N>>
    requires { IfSome file (λ hand. IsHeld (state_of hand (committed_as hand)) (given_of (File hand.file) right.old)) }
    ensures kept { right.new ≡ parted (made_number file) right.old }
    ensures cell { result ≡ made_in file right.old }
{
    match file {
        Some(hand) => {
            let own = right.split(table, PartName::File(hand.file()));
            Some(Newborn::new(hand, own))
        }
        None => None,
    }
}

// The touched file goes with its own cell, if it is still there.
fn part_known<N: Naming>(
    table: &HandTable<N>,
    right: &mut Hand<N>,
    file: Option<KnownFile>,
) -> Option<HeldFile<N>>
    requires { IfSome file (λ known. IsHeld (state_of known.hand known.commits) (given_of (File known.hand.file) right.old)) }
    ensures kept { right.new ≡ parted (known_number file) right.old }
    ensures cell { result ≡ known_in file right.old }
{
    match file {
        Some(known) => {
            let KnownFile { hand, commits } = known;
            let own = right.split(table, PartName::File(hand.file()));
            Some(HeldFile::new(hand, commits, own))
        }
        None => None,
    }
}
