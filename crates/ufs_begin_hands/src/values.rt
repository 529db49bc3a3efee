// The names and the files of an image, with what a session on hands needs beside them.
ghost use Rattle.std.specs.Prelude.{◌≡◌, ◌≤◌, ◌^◌, [], Some, IfOk, length, map};
ghost use Rattle.std.specs.FinMap as fin;
ghost use Rattle.std.specs.FinSet as set;
ghost use Rattle.ufs_begin_hands.specs.Values.{value_of, values_first};
ghost use Rattle.ufs_names.specs.Notes.{with_notes};

use crate::files::known_files;
use std::alloc::Global;
use ufs_base::Memory;
use ufs_files::FileHands;
use ufs_names::Names;
use ufs_noted::{KnownFile, NotedNames};

#[derive(Drop)]
pub(crate) struct Values {
    pub names: NotedNames,
    pub files: Vec<KnownFile>,
}

// Nothing is noted of them, and each file is committed as it is. They have the numbers from 0 on, so the next one's is how many there
// are.
pub(crate) fn first_values(alloc: Global, names: Names, files: FileHands) -> Result<Values, Memory>
    requires few { names.next ≤ 2 ^ 30 }
    requires all { length (fin.keys names.held) ≡ names.next }
    requires here { fin.keys names.held ≡ fin.keys files }
    ensures names { IfOk result (λ v. v.names ≡ record { names = with_notes (Some []) names; fresh = []; dropped = set.empty }) }
    ensures files { IfOk result (λ v. map value_of v.files.items ≡ values_first files) }
{
    let live = names.live()?;
    let next = live.as_slice().len() as u32;
    let files = known_files(alloc, files, live.as_slice())?;
    let names = NotedNames::new(alloc, names, next)?;
    Ok(Values { names, files })
}
