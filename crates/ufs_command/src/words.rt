ghost use Rattle.std.specs.Prelude.{◌≡◌, IfOk};
ghost use Rattle.ufs_command.specs.Commands.{asked, built};

use std::alloc::Global;
use ufs_base::Memory;

/// What is done for the words, by a call that waits for nobody.
#[derive(Clone, Copy, Debug, PartialEq, Eq)]
pub enum Command {
    /// Format a disk of so many blocks, inodes and journal sectors.
    Mkfs {
        blocks: u32,
        inodes: u32,
        journal: u32,
    },
    /// Serve a script, and print the trace of its history where that is asked for.
    Play {
        trace: bool,
    },
    /// Print the tree that the image stands for.
    Tree,
    /// List what is damaged in the image.
    Check,
    /// Say whether a printed history is one of the script before it, from the tree that the image stands for.
    Audit,
    /// Make the image clean.
    Recover,
    /// Format a disk, serve the workload of this seed, and print how it was answered.
    Bench {
        seed: u32,
    },
    /// A command, or an option, that isn't built yet.
    NotBuilt,
}

fn built(named: ufs_words::Command) -> Option<Command>
    ensures { result ≡ built named }
{
    match named {
        ufs_words::Command::Mkfs {
            blocks,
            inodes,
            journal,
        } => Some(Command::Mkfs {
            blocks,
            inodes,
            journal,
        }),
        ufs_words::Command::Play { lease: None, trace } => Some(Command::Play { trace }),
        ufs_words::Command::Run { .. } => None,
        ufs_words::Command::Bench { seed, lease: None } => Some(Command::Bench { seed }),
        ufs_words::Command::Recover => Some(Command::Recover),
        ufs_words::Command::Check => Some(Command::Check),
        ufs_words::Command::Tree => Some(Command::Tree),
        ufs_words::Command::Audit => Some(Command::Audit),
        ufs_words::Command::Play { .. } | ufs_words::Command::Bench { .. } => {
            Some(Command::NotBuilt)
        }
    }
}

/// What is done for the words, if anything is. Fails only where an allocation was refused.
pub fn read_command(alloc: Global, words: &[String]) -> Result<Option<Command>, Memory>
    ensures { IfOk result (λ c. c ≡ asked words.now) }
{
    match ufs_words::read_command(alloc, words)? {
        Some(named) => Ok(built(named)),
        None => Ok(None),
    }
}
