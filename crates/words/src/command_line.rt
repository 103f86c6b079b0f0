ghost use Rattle.std.specs.Prelude.{◌≡◌, IfOk, false};
ghost use Rattle.clap.specs.Words.{app_of, rule_of};
ghost use Rattle.clap.specs.declared.builder.Command.TheViews.{out-Command as fields_of};
ghost use Rattle.words.specs.CommandLine as lines;

use clap::{Arg, ArgAction, Command};
use std::alloc::{AllocError, Global};

// A word that must stand.
fn positional<'a>(alloc: Global, id: &'a str) -> Arg<'a>
    ensures rule { rule_of result ≡ lines.positional id.entry.now }
    ensures global { result.global ≡ false }
{
    Arg::new(alloc, id).required(true).action(ArgAction::Set)
}

// `--ID VALUE`, which may be left out.
fn option<'a>(alloc: Global, id: &'a str) -> Arg<'a>
    ensures rule { rule_of result ≡ lines.option id.entry.now }
    ensures global { result.global ≡ false }
{
    Arg::new(alloc, id).long(id).action(ArgAction::Set)
}

// `--ID VALUE`, which must stand.
fn needed<'a>(alloc: Global, id: &'a str) -> Arg<'a>
    ensures rule { rule_of result ≡ lines.needed id.entry.now }
    ensures global { result.global ≡ false }
{
    option(alloc, id).required(true)
}

// `--ID`, which may be left out.
fn flag<'a>(alloc: Global, id: &'a str) -> Arg<'a>
    ensures rule { rule_of result ≡ lines.flag id.entry.now }
    ensures global { result.global ≡ false }
{
    Arg::new(alloc, id).long(id).action(ArgAction::SetTrue)
}

// A subcommand over a file, with nothing else.
fn over_file<'a>(alloc: Global, name: &'a str) -> Result<Command<'a>, AllocError>
    ensures app { IfOk result (λ c. app_of c ≡ lines.over_file name.entry.now) }
    ensures globals { IfOk result (λ c. (fields_of c).has_globals ≡ false) }
{
    Command::new(alloc, name).arg(positional(alloc, "FILE"))
}

fn init<'a>(alloc: Global) -> Result<Command<'a>, AllocError>
    ensures app { IfOk result (λ c. app_of c ≡ lines.init) }
    ensures globals { IfOk result (λ c. (fields_of c).has_globals ≡ false) }
{
    Command::new(alloc, "init")
        .arg(positional(alloc, "FILE"))?
        .arg(positional(alloc, "NAME"))?
        .arg(positional(alloc, "PASSWORD"))
}

// A subcommand that runs a schedule over a file.
fn over_schedule<'a>(alloc: Global, name: &'a str) -> Result<Command<'a>, AllocError>
    ensures app { IfOk result (λ c. app_of c ≡ lines.over_schedule name.entry.now) }
    ensures globals { IfOk result (λ c. (fields_of c).has_globals ≡ false) }
{
    over_file(alloc, name)?.arg(option(alloc, "limit"))
}

fn serve<'a>(alloc: Global) -> Result<Command<'a>, AllocError>
    ensures app { IfOk result (λ c. app_of c ≡ lines.serve) }
    ensures globals { IfOk result (λ c. (fields_of c).has_globals ≡ false) }
{
    over_file(alloc, "serve")?
        .arg(needed(alloc, "port"))?
        .arg(needed(alloc, "connections"))?
        .arg(option(alloc, "clients"))?
        .arg(needed(alloc, "record"))
}

fn backup<'a>(alloc: Global) -> Result<Command<'a>, AllocError>
    ensures app { IfOk result (λ c. app_of c ≡ lines.backup) }
    ensures globals { IfOk result (λ c. (fields_of c).has_globals ≡ false) }
{
    over_file(alloc, "backup")?
        .arg(positional(alloc, "REPO"))?
        .arg(flag(alloc, "full"))
}

fn restore<'a>(alloc: Global) -> Result<Command<'a>, AllocError>
    ensures app { IfOk result (λ c. app_of c ≡ lines.restore) }
    ensures globals { IfOk result (λ c. (fields_of c).has_globals ≡ false) }
{
    Command::new(alloc, "restore")
        .arg(positional(alloc, "REPO"))?
        .arg(positional(alloc, "OUT"))
}

fn pack<'a>(alloc: Global) -> Result<Command<'a>, AllocError>
    ensures app { IfOk result (λ c. app_of c ≡ lines.pack) }
    ensures globals { IfOk result (λ c. (fields_of c).has_globals ≡ false) }
{
    over_file(alloc, "pack")?.arg(positional(alloc, "TID"))
}

fn drawn<'a>(alloc: Global) -> Result<Command<'a>, AllocError>
    ensures app { IfOk result (λ c. app_of c ≡ lines.drawn) }
    ensures globals { IfOk result (λ c. (fields_of c).has_globals ≡ false) }
{
    Command::new(alloc, "gen").arg(positional(alloc, "N"))
}

// The program's words, none of which is its name.
fn bare<'a>(alloc: Global) -> Command<'a>
    ensures { app_of result ≡ lines.bare }
{
    Command::new(alloc, "zope")
        .no_binary_name(true)
        .disable_help_flag(true)
        .disable_help_subcommand(true)
        .disable_version_flag(true)
        .subcommand_required(true)
}

/// The whole command.
pub(crate) fn zope<'a>(alloc: Global) -> Result<Command<'a>, AllocError>
    ensures { IfOk result (λ c. app_of c ≡ lines.zope) }
{
    bare(alloc)
        .subcommand(init(alloc)?)?
        .subcommand(over_schedule(alloc, "replay")?)?
        .subcommand(serve(alloc)?)?
        .subcommand(over_file(alloc, "check")?)?
        .subcommand(over_file(alloc, "dump")?)?
        .subcommand(backup(alloc)?)?
        .subcommand(restore(alloc)?)?
        .subcommand(pack(alloc)?)?
        .subcommand(over_schedule(alloc, "serial")?)?
        .subcommand(drawn(alloc)?)
}
