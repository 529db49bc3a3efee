ghost use Rattle.std.specs.Prelude.{◌≡◌, IfOk, map, string_bytes};
ghost use Rattle.clap.specs.Words.{FailsBy, fault_of, found_of, rows_of, subcommand_of, subcommand_rows_of};
ghost use Rattle.ufs_words.specs.Grammar.{ufs};
ghost use Rattle.ufs_words.specs.Commands.{bench_in, command_at, command_in, command_of, mkfs_in, play_in, run_in, trace_in};

use crate::grammar::ufs;
use crate::numbers::{lease_in, word_in, workers_in};
use clap::error::ErrorKind;
use clap::{ArgMatches, Error};
use std::alloc::{AllocError, Global};
use ufs_base::Memory;

/// What the words ask for. A lease is in ticks; `None` where the words have none.
#[derive(Clone, Copy, Debug, PartialEq, Eq)]
pub enum Command {
    /// Format a disk of so many blocks, inodes and journal sectors.
    Mkfs {
        blocks: u32,
        inodes: u32,
        journal: u32,
    },
    /// Serve a script on one thread, and print the trace of its history where that is asked for.
    Play {
        lease: Option<u32>,
        trace: bool,
    },
    /// Serve a script on threads.
    Run {
        workers: u8,
        lease: Option<u32>,
        trace: bool,
    },
    /// Format a disk, serve the workload of this seed, and print how it was answered.
    Bench {
        seed: u32,
        lease: Option<u32>,
    },
    /// Make the image clean.
    Recover,
    /// List what is damaged in the image.
    Check,
    /// Print the tree that the image stands for.
    Tree,
    /// Say whether a printed history is one of the script before it, from the tree that the image stands for.
    Audit,
}

fn mkfs_in(found: &ArgMatches) -> Option<Command>
    ensures { result ≡ mkfs_in (rows_of (found_of found.now)) }
{
    Some(Command::Mkfs {
        blocks: word_in("blocks", found)?,
        inodes: word_in("inodes", found)?,
        journal: word_in("journal", found)?,
    })
}

fn trace_in(found: &ArgMatches) -> bool
    ensures { result ≡ trace_in (rows_of (found_of found.now)) }
{
    match found.get_str("trace") {
        Some(word) => word == "true",
        None => false,
    }
}

fn play_in(found: &ArgMatches) -> Option<Command>
    ensures { result ≡ play_in (rows_of (found_of found.now)) }
{
    Some(Command::Play {
        lease: lease_in(found)?,
        trace: trace_in(found),
    })
}

fn run_in(found: &ArgMatches) -> Option<Command>
    ensures { result ≡ run_in (rows_of (found_of found.now)) }
{
    Some(Command::Run {
        workers: workers_in(found)?,
        lease: lease_in(found)?,
        trace: trace_in(found),
    })
}

fn bench_in(found: &ArgMatches) -> Option<Command>
    ensures { result ≡ bench_in (rows_of (found_of found.now)) }
{
    Some(Command::Bench {
        seed: word_in("seed", found)?,
        lease: lease_in(found)?,
    })
}

// The command with these arguments.
fn command_in(name: &str, found: &ArgMatches) -> Option<Command>
    ensures { result ≡ command_in name.now (rows_of (found_of found.now)) }
{
    match name {
        "mkfs" => mkfs_in(found),
        "play" => play_in(found),
        "run" => run_in(found),
        "bench" => bench_in(found),
        "recover" => Some(Command::Recover),
        "check" => Some(Command::Check),
        "tree" => Some(Command::Tree),
        "audit" => Some(Command::Audit),
        _ => None,
    }
}

fn command_at(matches: &ArgMatches) -> Option<Command>
    ensures { result ≡ command_at (subcommand_rows_of matches.now) }
{
    let (name, found) = matches.subcommand()?;
    command_in(name, found)
}

// What `clap` makes of the words.
fn parsed<'a>(alloc: Global, words: &'a [String]) -> Result<ArgMatches<'a>, Error>
    ensures values { IfOk result (λ m. subcommand_rows_of m ≡ subcommand_of ufs (map string_bytes words.entry.now)) }
    ensures faults { FailsBy (fault_of ufs (map string_bytes words.entry.now)) result }
{
    let command = ufs(alloc)?;
    command.try_get_matches_from(words)
}

/// The command that the words are, if they are one: `clap` takes them, and each number is in its form and range.
/// Fails only where an allocation was refused.
pub fn read_command(alloc: Global, words: &[String]) -> Result<Option<Command>, Memory>
    ensures { IfOk result (λ c. c ≡ command_of (map string_bytes words.now)) }
{
    match parsed(alloc, words) {
        Ok(matches) => Ok(command_at(&matches)),
        Err(error) => match error.kind() {
            // `clap` makes this kind of the error of a refused allocation, which it doesn't keep.
            ErrorKind::OutOfMemory => Err(Memory::from(AllocError)),
            _ => Ok(None),
        },
    }
}
