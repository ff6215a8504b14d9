//! The options of `serve`, `check` and `explain`, as the words of the command line give them.
ghost use Rattle.std.specs.Prelude.{◌≡◌, ◌≤◌};
ghost use Rattle.clap.specs.Words.{first_of, found_of, rows_of};
ghost use Rattle.desk_commands.specs.CommandLine.{AreCheckOptionsOf, AreExplainOptionsOf, AreOptionsOf, IsNumberOf, is_true};

use box_core::LARGEST_CAPACITY;
use clap::ArgMatches;
use desk_checking::CheckOptions;
use desk_explaining::ExplainOptions;
use desk_serving::Options;
use lanes::{MOST_CLIENTS, MOST_WORKERS};

/// The number that an option has. `clap` has refused all texts but those of the numbers from 1 to the most.
fn number_of(matches: &ArgMatches<'_>, name: &str, most: u32) -> u32
    requires some { 1 ≤ most }
    ensures { IsNumberOf most (first_of name.now (rows_of (found_of matches.now))) result }
{
    let Some(text) = matches.get_str(name) else {
        return most;
    };
    match text.parse::<u32>() {
        Ok(number) => number.clamp(1, most),
        Err(_) => most,
    }
}

/// The options of `serve`.
pub fn options_of(matches: &ArgMatches<'_>) -> Options
    ensures { AreOptionsOf (rows_of (found_of matches.now)) result }
{
    Options {
        clients: number_of(matches, "clients", MOST_CLIENTS),
        workers: number_of(matches, "workers", MOST_WORKERS),
        capacity: number_of(matches, "capacity", LARGEST_CAPACITY),
    }
}

/// Whether an option that is given or left out is given.
fn is_given(matches: &ArgMatches<'_>, name: &str) -> bool
    ensures { result ≡ is_true (first_of name.now (rows_of (found_of matches.now))) }
{
    let Some(text) = matches.get_str(name) else {
        return false;
    };
    text == "true"
}

/// The options of `check`.
pub fn check_options_of(matches: &ArgMatches<'_>) -> CheckOptions
    ensures { AreCheckOptionsOf (rows_of (found_of matches.now)) result }
{
    CheckOptions {
        requests: is_given(matches, "requests"),
        tables: is_given(matches, "tables"),
        strict: is_given(matches, "strict"),
        gives: is_given(matches, "gives"),
        strict_null: is_given(matches, "strict-null"),
    }
}

/// The options of `explain`. How many workers there are, and how many requests may be outstanding, change none of its answers.
pub fn explain_options_of(matches: &ArgMatches<'_>) -> ExplainOptions
    ensures { AreExplainOptionsOf (rows_of (found_of matches.now)) result }
{
    ExplainOptions {
        clients: number_of(matches, "clients", MOST_CLIENTS),
        misses: is_given(matches, "misses"),
    }
}
