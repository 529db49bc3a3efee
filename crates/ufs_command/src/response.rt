// What the program answers: to its words, or to there being none.
ghost use Rattle.std.specs.Prelude.{◌≡◌, [], false};
ghost use Rattle.ufs_command.specs.Commands.{serves};
ghost use Rattle.ufs_command.specs.Seen.{reading, writing, formatting, course};
ghost use Rattle.ufs_command.specs.Endings.{IsAnswer};
ghost use Rattle.ufs_command.specs.Lacked.{Lacks};
ghost use Rattle.ufs_command.specs.Left.{LeavesDisk, LeavesSource};
ghost use Rattle.ufs_command.specs.Told.{Tells};
ghost use Rattle.ufs_command.specs.Responses.{Responds, command_for, path_of};

use crate::ending::Ending;
use crate::last_line::{finish, out_of_memory};
use crate::outcome::{Outcome, nothing_told};
use crate::top::quiet;
use std::alloc::Global;
use ufs_base::Lack;
use ufs_disk::Disk;
use ufs_io::{Sink, Source};
use ufs_words::image_of;

/// Why the program has no words.
#[derive(Clone, Copy, Debug, PartialEq, Eq)]
pub enum WordsFault {
    /// One of them isn't text.
    NotText,
    /// There was no memory for them.
    Lack(Lack),
}

/// The path of the image's file, empty where there is none.
pub fn image_path(words: &Result<Vec<String>, WordsFault>) -> &str
    ensures { result.now ≡ path_of words.now }
{
    match words {
        Ok(words) => match image_of(words) {
            Some(path) => path,
            None => "",
        },
        Err(_) => "",
    }
}

/// The answer to the program's words, and to there being none. Words that aren't text, or that name
/// no image's file, are no command.
pub fn respond<S: Source, K: Sink, D: Disk>(
    alloc: Global,
    words: &Result<Vec<String>, WordsFault>,
    source: &mut S,
    sink: &mut K,
    disk: D,
) -> Outcome<D>
    ensures answer { IsAnswer (Responds words.now (reading S.left S.faults source.old source.new) (formatting D.visible D.size D.moments D.faults disk result.disk) result.told)
        (writing K.held K.faults sink.old sink.new) result.status }
    // Without words, and with those that name no image's file, disk and source are left as they were.
    ensures told { Tells (command_for words.now) (reading S.left S.faults source.old source.new) (formatting D.visible D.size D.moments D.faults disk result.disk) result.told
        (writing K.held K.faults sink.old sink.new) result.status }
    ensures disk { LeavesDisk (command_for words.now) result.told result.status (course D.visible D.keeps D.size D.moments D.faults disk result.disk) }
    ensures lacked { Lacks (command_for words.now) D.visible D.keeps result.status result.lacked (D.moments disk) (D.moments result.disk) }
    ensures source { LeavesSource (command_for words.now) result.status (reading S.left S.faults source.old source.new) }
    ensures served { serves (command_for words.now) ≡ false → result.told ≡ [] }
{
    let status = match words {
        Ok(words) => match image_of(words) {
            Some(_) => return quiet(alloc, words, source, sink, disk),
            None => finish(sink, Ending::Usage),
        },
        Err(WordsFault::NotText) => finish(sink, Ending::Usage),
        Err(WordsFault::Lack(lack)) => out_of_memory(sink, *lack),
    };
    Outcome {
        status,
        lacked: None,
        told: nothing_told(alloc),
        disk,
    }
}
