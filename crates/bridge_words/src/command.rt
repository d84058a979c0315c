//! The command that `clap` reads the words by.
ghost use Rattle.std.specs.Prelude.{◌≡◌, IfOk, false};
ghost use Rattle.clap.specs.Words.{app_of, rule_of, with_subcommand};
ghost use Rattle.bridge_words.specs.Commands.{has_globals, bridge_app, budget_rule, check_app, blocks_rule, file_rule, files_rule, flag_rule, one, plain_app, run_app, translate_app, verify_app, with_one};

use clap::{Arg, ArgAction, Command};
use std::alloc::{AllocError, Global};

/// The command with its seven subcommands.
pub fn command<'a>(alloc: Global) -> Result<Command<'a>, AllocError>
    ensures { IfOk result (λ command. app_of command ≡ bridge_app) }
{
    let command = with_verify(alloc, plain_command(alloc))?;
    let command = with_translate(alloc, command)?;
    let command = with_check(alloc, command)?;
    let command = with_one(alloc, command, "show", files(alloc))?;
    let command = with_one(alloc, command, "decode", file(alloc))?;
    let command = with_one(alloc, command, "trial", blocks(alloc))?;
    with_one(alloc, command, "article", files(alloc))
}

/// The command with one more subcommand, of this name and with one argument.
fn with_one<'a>(
    alloc: Global,
    command: Command<'a>,
    name: &'a str,
    arg: Arg<'a>,
) -> Result<Command<'a>, AllocError>
    requires { arg.global ≡ false }
    ensures { IfOk result (λ more. app_of more ≡ with_one (app_of command.entry) name.entry.now (rule_of arg.entry)) }
{
    command.subcommand(one(alloc, name, arg)?)
}

/// The command with the subcommand `verify` too.
fn with_verify<'a>(alloc: Global, command: Command<'a>) -> Result<Command<'a>, AllocError>
    ensures { IfOk result (λ more. app_of more ≡ with_subcommand (app_of command.entry) verify_app.top) }
{
    command.subcommand(verify_command(alloc)?)
}

/// The command with the subcommand `translate` too.
fn with_translate<'a>(alloc: Global, command: Command<'a>) -> Result<Command<'a>, AllocError>
    ensures { IfOk result (λ more. app_of more ≡ with_subcommand (app_of command.entry) translate_app.top) }
{
    command.subcommand(run_command(alloc, "translate")?)
}

/// The command with the subcommand `check` too.
fn with_check<'a>(alloc: Global, command: Command<'a>) -> Result<Command<'a>, AllocError>
    ensures { IfOk result (λ more. app_of more ≡ with_subcommand (app_of command.entry) check_app.top) }
{
    command.subcommand(check_command(alloc)?)
}

/// The command without subcommands: it wants one, and has no help and no version.
fn plain_command<'a>(alloc: Global) -> Command<'a>
    ensures { app_of result ≡ plain_app }
{
    Command::new(alloc, "bridge")
        .disable_help_flag(true)
        .disable_version_flag(true)
        .disable_help_subcommand(true)
        .subcommand_required(true)
}

/// A command of this name with one argument.
fn one<'a>(alloc: Global, name: &'a str, arg: Arg<'a>) -> Result<Command<'a>, AllocError>
    requires { arg.global ≡ false }
    ensures app { IfOk result (λ command. app_of command ≡ one name.entry.now (rule_of arg.entry)) }
    ensures local { IfOk result (λ command. has_globals command ≡ false) }
{
    Command::new(alloc, name).arg(arg)
}

/// The command `verify`.
fn verify_command<'a>(alloc: Global) -> Result<Command<'a>, AllocError>
    ensures app { IfOk result (λ command. app_of command ≡ verify_app) }
    ensures local { IfOk result (λ command. has_globals command ≡ false) }
{
    run_command(alloc, "verify")?.arg(flag(alloc, "fast"))
}

/// A command of this name for a run of files, with the flag `--share`.
fn run_command<'a>(alloc: Global, name: &'a str) -> Result<Command<'a>, AllocError>
    ensures app { IfOk result (λ command. app_of command ≡ run_app name.entry.now) }
    ensures local { IfOk result (λ command. has_globals command ≡ false) }
{
    one(alloc, name, files(alloc))?.arg(flag(alloc, "share"))
}

/// The command `check`.
fn check_command<'a>(alloc: Global) -> Result<Command<'a>, AllocError>
    ensures app { IfOk result (λ command. app_of command ≡ check_app) }
    ensures local { IfOk result (λ command. has_globals command ≡ false) }
{
    one(alloc, "check", file(alloc))?
        .arg(budget(alloc))?
        .arg(flag(alloc, "fast"))
}

/// One or more files.
fn files<'a>(alloc: Global) -> Arg<'a>
    ensures rule { rule_of result ≡ files_rule }
    ensures local { result.global ≡ false }
{
    Arg::new(alloc, "file")
        .action(ArgAction::Append)
        .required(true)
}

/// A file.
fn file<'a>(alloc: Global) -> Arg<'a>
    ensures rule { rule_of result ≡ file_rule }
    ensures local { result.global ≡ false }
{
    Arg::new(alloc, "file")
        .action(ArgAction::Set)
        .required(true)
}

/// A number of blocks.
fn blocks<'a>(alloc: Global) -> Arg<'a>
    ensures rule { rule_of result ≡ blocks_rule }
    ensures local { result.global ≡ false }
{
    Arg::new(alloc, "blocks")
        .action(ArgAction::Set)
        .required(true)
}

/// `--budget N` or `--budget=N`.
fn budget<'a>(alloc: Global) -> Arg<'a>
    ensures rule { rule_of result ≡ budget_rule }
    ensures local { result.global ≡ false }
{
    Arg::new(alloc, "budget")
        .long("budget")
        .action(ArgAction::Set)
}

/// A flag, `--` and its name.
fn flag<'a>(alloc: Global, name: &'a str) -> Arg<'a>
    ensures rule { rule_of result ≡ flag_rule name.entry.now }
    ensures local { result.global ≡ false }
{
    Arg::new(alloc, name).long(name).action(ArgAction::SetTrue)
}
