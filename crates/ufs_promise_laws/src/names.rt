// A change of names, and the records that tell it.
ghost use Rattle.ufs_layout.specs.Areas.{IsGeometry};
ghost use Rattle.ufs_promise_laws.specs.Files.{BornAreEmpty, FilesAreUnset, NamesStandOn, OthersStay};
ghost use Rattle.ufs_promise_laws.specs.Calls.{AddingIsSound, DroppingIsSound, MovingIsSound};
ghost use Rattle.ufs_promise_laws.specs.Noted.{NotedMayBeMade, NotesAreRecords, NotesLeadOn};
ghost use Rattle.ufs_promise_laws.specs.Numbers.{NamesNumberPaths};
ghost use Rattle.ufs_promise_laws.specs.Names.{NamesStaySound, PutsCommute, TablesNameSoundly};
ghost use Rattle.ufs_promise_laws.specs.Rows.{BirthIsMet, BirthIsNoted};
ghost use Rattle.ufs_promise_laws.specs.ChangeLaws.{ChangesJoin, FilesKeepState, NamesHaveWalks, NamesLeaveSound, NumbersRise, SoundHasState, SpelledHaveSlots, StepsAreNoted, StepsMayCommit, ZerosAreTaken};

use ufs_layout::Geometry;

/// What directories a stand has, and what else leaves them.
pub fn state_law(geometry: &Geometry)
    requires { IsGeometry geometry.now }
    ensures sound { SoundHasState geometry.now }
    ensures slots { SpelledHaveSlots geometry.now }
    ensures zeros { ZerosAreTaken geometry.now }
    ensures file { FilesKeepState geometry.now }
{
    let _geometry = geometry;
}

/// The records of a change do to a catalog what its steps do to the directories, and where these have sound names they
/// may be committed.
pub fn change_law(geometry: &Geometry)
    requires { IsGeometry geometry.now }
    ensures told { StepsAreNoted geometry.now }
    ensures sound { NamesLeaveSound geometry.now }
    ensures walks { NamesHaveWalks geometry.now }
    ensures may { StepsMayCommit geometry.now }
    ensures numbers { NumbersRise geometry.now }
    ensures joined { ChangesJoin geometry.now }
{
    let _geometry = geometry;
}

/// A change leaves the files what they have, and the disk stands on behind its commit.
pub fn files_law(geometry: &Geometry)
    requires { IsGeometry geometry.now }
    ensures others { OthersStay geometry.now }
    ensures born { BornAreEmpty geometry.now }
    ensures unset { FilesAreUnset geometry.now }
    ensures stands { NamesStandOn geometry.now }
    ensures paths { NamesNumberPaths geometry.now }
{
    let _geometry = geometry;
}

/// What a server noted of its names may be made on a disk, and is told by its records.
pub fn noted_law(geometry: &Geometry)
    requires { IsGeometry geometry.now }
    ensures may { NotedMayBeMade geometry.now }
    ensures records { NotesAreRecords }
    ensures lead { NotesLeadOn }
{
    let _geometry = geometry;
}

/// Which steps leave the names sound, and which tables have sound ones.
pub fn names_law(geometry: &Geometry)
    requires { IsGeometry geometry.now }
    ensures stay { NamesStaySound geometry.now }
    ensures table { TablesNameSoundly geometry.now }
    ensures order { PutsCommute geometry.now }
    ensures adding { AddingIsSound geometry.now }
    ensures dropping { DroppingIsSound geometry.now }
    ensures moving { MovingIsSound geometry.now }
{
    let _geometry = geometry;
}

/// The birth of a file on a new image, and what stands in the root then.
pub fn birth_row()
    ensures records { BirthIsNoted }
    ensures met { BirthIsMet }
{}
