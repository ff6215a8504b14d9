//! The command line, as `clap` reads it.
ghost use Rattle.std.specs.Prelude.{◌≡◌, IfOk, IfErr, Some, codes, false, map, string_bytes};
ghost use Rattle.clap.specs.Words.{app_of, kind_of, new_app, rule_of, subcommand_of, subcommand_rows_of, with_rule};
ghost use Rattle.clap.specs.Kinds.{FailsBy};
ghost use Rattle.desk_commands.specs.CommandLine.{asking, check_app, explain_app, desk_command, flag, number_option, serve_app, serving, IsCommand, kinds_of};

use crate::help;
use crate::version::VERSION;
use box_core::LARGEST_CAPACITY;
use clap::builder::ValueParser;
use clap::error::ErrorKind;
use clap::{Arg, ArgAction, ArgMatches, Command, Error};
use lanes::{MOST_CLIENTS, MOST_WORKERS};
use std::alloc::{AllocError, Global};

/// An option that is a number from 1 to `most`, and `usual` where it is left out.
fn number_option<'a>(
    alloc: Global,
    name: &'a str,
    usual: &'a str,
    most: u32,
    help: &'a str,
) -> Arg<'a>
    ensures rule { rule_of result ≡ number_option name.entry.now usual.entry.now most }
    ensures local { result.global ≡ false }
    ensures help { result.help ≡ Some help.entry }
{
    Arg::new(alloc, name)
        .long(name)
        .value_name("NUMBER")
        .action(ArgAction::Set)
        .default_value(usual)
        .value_parser(ValueParser::unsigned(1, most as u64))
        .help(help)
}

/// An option that is given or left out.
fn flag<'a>(alloc: Global, name: &'a str, help: &'a str) -> Arg<'a>
    ensures rule { rule_of result ≡ flag name.entry.now }
    ensures local { result.global ≡ false }
    ensures help { result.help ≡ Some help.entry }
{
    Arg::new(alloc, name)
        .long(name)
        .action(ArgAction::SetTrue)
        .help(help)
}

/// Adds an option that is no global one.
fn with_option<'a>(command: Command<'a>, option: Arg<'a>) -> Result<Command<'a>, AllocError>
    requires { option.global ≡ false }
    ensures { IfOk result (λ more. app_of more ≡ with_rule (app_of command.entry) (rule_of option.entry)) }
{
    command.arg(option)
}

/// The command `replay`.
fn replay<'a>(alloc: Global) -> Command<'a>
    ensures { app_of result ≡ new_app (codes "replay") }
{
    Command::new(alloc, "replay")
        .about(help::REPLAY_ABOUT)
        .after_help(help::REPLAY)
}

/// The command `check`, with its options.
fn check<'a>(alloc: Global) -> Result<Command<'a>, AllocError>
    ensures { IfOk result (λ command. app_of command ≡ check_app) }
{
    let json = "Changes nothing: the output is lines of JSON without it too";
    let requests = "Lines of requests follow the model, which is the first line";
    let tables = "Report of each decision table whether it covers every case, and where it doesn't";
    let strict = "With --tables: status 4 if one doesn't, or if that isn't known";
    let check = Command::new(alloc, "check")
        .about(help::CHECK_ABOUT)
        .after_help(help::CHECK);
    let check = with_option(check, flag(alloc, "json", json))?;
    let check = with_option(check, flag(alloc, "requests", requests))?;
    let check = with_option(check, flag(alloc, "tables", tables))?;
    let check = with_option(check, flag(alloc, "strict", strict))?;
    asking(alloc, check)
}

/// Adds the options that ask what services can give.
fn asking<'a>(alloc: Global, command: Command<'a>) -> Result<Command<'a>, AllocError>
    ensures { IfOk result (λ more. app_of more ≡ asking (app_of command.entry)) }
{
    let gives = "Report what each service and its decisions can give";
    let strict_null = "The same, with status 4 if a service can give null or break a limit";
    let command = with_option(command, flag(alloc, "gives", gives))?;
    with_option(command, flag(alloc, "strict-null", strict_null))
}

/// Adds the options of a command that serves.
fn serving<'a>(alloc: Global, command: Command<'a>) -> Result<Command<'a>, AllocError>
    ensures { IfOk result (λ more. app_of more ≡ serving (app_of command.entry)) }
{
    let clients = "Clients that are served: 1 to 64";
    let workers = "Workers that evaluate: 1 to 8";
    let capacity = "Outstanding requests of one client: 1 to 4096";
    let command = with_option(
        command,
        number_option(alloc, "clients", "8", MOST_CLIENTS, clients),
    )?;
    let command = with_option(
        command,
        number_option(alloc, "workers", "4", MOST_WORKERS, workers),
    )?;
    with_option(
        command,
        number_option(alloc, "capacity", "64", LARGEST_CAPACITY, capacity),
    )
}

/// The command `explain`, with its options.
fn explain<'a>(alloc: Global) -> Result<Command<'a>, AllocError>
    ensures { IfOk result (λ command. app_of command ≡ explain_app) }
{
    let misses = "Report each rule that missed, with the first column that was not met";
    let explain = Command::new(alloc, "explain")
        .about(help::EXPLAIN_ABOUT)
        .after_help(help::EXPLAIN);
    let explain = serving(alloc, explain)?;
    with_option(explain, flag(alloc, "misses", misses))
}

/// The command `serve`, with its options.
fn serve<'a>(alloc: Global) -> Result<Command<'a>, AllocError>
    ensures { IfOk result (λ command. app_of command ≡ serve_app) }
{
    let serve = Command::new(alloc, "serve")
        .about(help::SERVE_ABOUT)
        .after_help(help::SERVE);
    serving(alloc, serve)
}

/// The command `desk` with its subcommands, of which one has to be named.
fn command<'a>(alloc: Global) -> Result<Command<'a>, AllocError>
    ensures { IfOk result (λ command. app_of command ≡ desk_command) }
{
    let serve = serve(alloc)?;
    let check = check(alloc)?;
    let explain = explain(alloc)?;
    let desk = Command::new(alloc, "desk")
        .version(VERSION)
        .about(help::DESK_ABOUT)
        .after_help(help::DESK)
        .subcommand_required(true);
    desk.subcommand(replay(alloc))?
        .subcommand(serve)?
        .subcommand(check)?
        .subcommand(explain)
}

/// Reads the words of a command line, the program's name first. Words that name no command are refused with the error
/// that `clap` has for them, and so is a call for help or the version, whose error is that text.
pub fn read_words<'a>(alloc: Global, words: &'a [String]) -> Result<ArgMatches<'a>, Error>
    ensures found { IfOk result (λ matches. subcommand_rows_of matches ≡ subcommand_of desk_command (map string_bytes words.entry.now)) }
    ensures taken { IfErr result (λ error. IsCommand (map string_bytes words.entry.now) → kind_of error ≡ ErrorKind.OutOfMemory) }
    ensures refused { FailsBy (kinds_of (map string_bytes words.entry.now)) result }
{
    let command = command(alloc)?;
    command.try_get_matches_from(words)
}
