// The command line as `clap` reads it.
ghost use Rattle.std.specs.Prelude.{◌≡◌, IfOk, false};
ghost use Rattle.clap.specs.Words.{app_of, rule_of, with_rule, with_subcommand};
ghost use Rattle.clap.specs.declared.builder.command.Command.TheViews.{out-Command};
ghost use Rattle.ufs_words.specs.Grammar.{bare, bench, file, lease, mkfs, plain, play, positional, run, subcommand, trace, ufs, with_files, with_images, with_sessions};

use clap::builder::ValueParser;
use clap::{Arg, ArgAction, Command};
use std::alloc::{AllocError, Global};

fn positional<'a>(alloc: Global, name: &'a str) -> Arg<'a>
    ensures rule { rule_of result ≡ positional name.entry.now }
    ensures local { result.global ≡ false }
{
    Arg::new(alloc, name).required(true)
}

fn lease<'a>(alloc: Global) -> Arg<'a>
    ensures rule { rule_of result ≡ lease }
    ensures local { result.global ≡ false }
{
    Arg::new(alloc, "lease").long("lease")
}

fn trace<'a>(alloc: Global) -> Arg<'a>
    ensures rule { rule_of result ≡ trace }
    ensures local { result.global ≡ false }
{
    Arg::new(alloc, "trace")
        .long("trace")
        .action(ArgAction::SetTrue)
}

fn file<'a>(alloc: Global, name: &'a str) -> Arg<'a>
    ensures rule { rule_of result ≡ file name.entry.now }
    ensures local { result.global ≡ false }
{
    Arg::new(alloc, name)
        .long(name)
        .value_parser(ValueParser::NonEmptyString)
}

// One more argument.
fn with<'a>(command: Command<'a>, arg: Arg<'a>) -> Result<Command<'a>, AllocError>
    requires { arg.global ≡ false }
    ensures app { IfOk result (λ c. app_of c ≡ with_rule (app_of command.entry) (rule_of arg.entry)) }
    ensures local { IfOk result (λ c. (out-Command c).has_globals ≡ (out-Command command.entry).has_globals) }
{
    command.arg(arg)
}

// The options that every subcommand takes.
fn with_files<'a>(alloc: Global, command: Command<'a>) -> Result<Command<'a>, AllocError>
    ensures app { IfOk result (λ c. app_of c ≡ with_files (app_of command.entry)) }
    ensures local { IfOk result (λ c. (out-Command c).has_globals ≡ (out-Command command.entry).has_globals) }
{
    let command = with(command, file(alloc, "image"))?;
    with(command, file(alloc, "mirror"))
}

fn subcommand<'a>(alloc: Global, name: &'a str) -> Command<'a>
    ensures app { app_of result ≡ subcommand name.entry.now }
    ensures local { (out-Command result).has_globals ≡ false }
{
    Command::new(alloc, name).disable_help_flag(true)
}

fn mkfs<'a>(alloc: Global) -> Result<Command<'a>, AllocError>
    ensures app { IfOk result (λ c. app_of c ≡ mkfs) }
    ensures local { IfOk result (λ c. (out-Command c).has_globals ≡ false) }
{
    let command = with(subcommand(alloc, "mkfs"), positional(alloc, "blocks"))?;
    let command = with(command, positional(alloc, "inodes"))?;
    let command = with(command, positional(alloc, "journal"))?;
    with_files(alloc, command)
}

fn play<'a>(alloc: Global) -> Result<Command<'a>, AllocError>
    ensures app { IfOk result (λ c. app_of c ≡ play) }
    ensures local { IfOk result (λ c. (out-Command c).has_globals ≡ false) }
{
    let command = with(subcommand(alloc, "play"), lease(alloc))?;
    let command = with(command, trace(alloc))?;
    with_files(alloc, command)
}

fn run<'a>(alloc: Global) -> Result<Command<'a>, AllocError>
    ensures app { IfOk result (λ c. app_of c ≡ run) }
    ensures local { IfOk result (λ c. (out-Command c).has_globals ≡ false) }
{
    let command = with(subcommand(alloc, "run"), positional(alloc, "workers"))?;
    let command = with(command, lease(alloc))?;
    let command = with(command, trace(alloc))?;
    with_files(alloc, command)
}

fn bench<'a>(alloc: Global) -> Result<Command<'a>, AllocError>
    ensures app { IfOk result (λ c. app_of c ≡ bench) }
    ensures local { IfOk result (λ c. (out-Command c).has_globals ≡ false) }
{
    let command = with(subcommand(alloc, "bench"), positional(alloc, "seed"))?;
    let command = with(command, lease(alloc))?;
    with_files(alloc, command)
}

fn plain<'a>(alloc: Global, name: &'a str) -> Result<Command<'a>, AllocError>
    ensures app { IfOk result (λ c. app_of c ≡ plain name.entry.now) }
    ensures local { IfOk result (λ c. (out-Command c).has_globals ≡ false) }
{
    with_files(alloc, subcommand(alloc, name))
}

// One more subcommand.
fn beside<'a>(command: Command<'a>, sub: Command<'a>) -> Result<Command<'a>, AllocError>
    requires { (out-Command sub).has_globals ≡ false }
    ensures { IfOk result (λ c. app_of c ≡ with_subcommand (app_of command.entry) (app_of sub.entry).top) }
{
    command.subcommand(sub)
}

fn bare<'a>(alloc: Global) -> Command<'a>
    ensures { app_of result ≡ bare }
{
    Command::new(alloc, "ufs")
        .no_binary_name(true)
        .disable_help_flag(true)
        .disable_help_subcommand(true)
        .subcommand_required(true)
}

fn with_sessions<'a>(alloc: Global, command: Command<'a>) -> Result<Command<'a>, AllocError>
    ensures { IfOk result (λ c. app_of c ≡ with_sessions (app_of command.entry)) }
{
    let command = beside(command, mkfs(alloc)?)?;
    let command = beside(command, play(alloc)?)?;
    let command = beside(command, run(alloc)?)?;
    beside(command, bench(alloc)?)
}

fn with_images<'a>(alloc: Global, command: Command<'a>) -> Result<Command<'a>, AllocError>
    ensures { IfOk result (λ c. app_of c ≡ with_images (app_of command.entry)) }
{
    let command = beside(command, plain(alloc, "recover")?)?;
    let command = beside(command, plain(alloc, "check")?)?;
    let command = beside(command, plain(alloc, "tree")?)?;
    beside(command, plain(alloc, "audit")?)
}

/// The whole command.
pub fn ufs<'a>(alloc: Global) -> Result<Command<'a>, AllocError>
    ensures { IfOk result (λ c. app_of c ≡ ufs) }
{
    let command = with_sessions(alloc, bare(alloc))?;
    with_images(alloc, command)
}
