//! What clap's matches hold.

ghost use Rattle.std.specs.Prelude.{◌≡◌, ◌≢◌, ◌<◌, ◌≤◌, [], true, IfOk, IfErr, Some, codes, is_some, length, map, option_map};
ghost use Rattle.std.specs.Option.{option_map_or};
ghost use Rattle.clap.specs.Walk.{texts};
ghost use Rattle.clap.specs.Words.{app_of, fault_of, found_of, first_value, matched_of, matches_of, one_text, raw_values, rows_of};
ghost use Rattle.command_line.specs.Commands.{default_cost, default_steps, most_cost, most_count, most_steps};
ghost use Rattle.command_line.specs.Requests.{number_in};
ghost use Rattle.command_line.specs.Matching.{AreRead, IsNumeralIn, IsSwitch, is_fit, is_switched_on};

use crate::names::Names;
use crate::refusal::WordsNo;
use clap::{ArgMatches, Command};
use fsc_base::{Name, NoMemory};
use std::alloc::Global;

/// How many instructions run at most where the words don't say.
const DEFAULT_STEPS: u64 = 10_000_000_000;

/// The greatest cost of a meaning where the words don't say.
const DEFAULT_COST: u64 = 1_000_000_000;

/// What clap reads of the words as this command, whose name is the first word. Usage comes only where clap finds a
/// fault in the words.
pub(crate) fn matches_of<'a>(
    mut command: Command<'a>,
    words: &'a [&'a str],
) -> Result<ArgMatches<'a>, WordsNo>
    requires { is_fit (app_of command) ≡ true }
    ensures rows { IfOk result (λ matches.
        rows_of (found_of matches) ≡ matches_of (app_of command.entry) (texts words.entry.now)) }
    ensures taken { IfOk result (λ _. fault_of (app_of command.entry) (texts words.entry.now) ≡ []) }
    ensures read { IfOk result (λ matches. AreRead (app_of command.entry).top.rules (found_of matches)) }
    ensures usage { IfErr result (λ why. why ≡ WordsNo.Usage →
        fault_of (app_of command.entry) (texts words.entry.now) ≢ []) }
{
    Ok(command.try_get_matches_from_mut(words)?)
}

/// A copy of the first value of an argument that has one.
pub(crate) fn name_of(alloc: Global, matches: &ArgMatches<'_>, id: &str) -> Result<Name, NoMemory>
    requires { is_some (first_value (found_of matches.now) id.now) ≡ true }
    ensures { IfOk result (λ name. first_value (found_of matches.now) id.now ≡ Some name) }
{
    let text = matches.get_str(id).unwrap();
    Name::from_slice(alloc, text.as_bytes())
}

/// Copies of all values of an argument that has one.
pub(crate) fn names_of(alloc: Global, matches: &ArgMatches<'_>, id: &str) -> Result<Names, NoMemory>
    requires { is_some (first_value (found_of matches.now) id.now) ≡ true }
    ensures values { IfOk result (λ names.
        option_map raw_values (matched_of (found_of matches.now) id.now) ≡ Some names) }
    ensures some { IfOk result (λ names. 0 < length names) }
{
    copies(alloc, matches.get_strs(id).unwrap())
}

/// Copies of the texts, in their order.
fn copies(alloc: Global, texts: &[&str]) -> Result<Names, NoMemory>
    ensures { IfOk result (λ names. names ≡ map (λ text. text.now) texts.now) }
{
    let mut names = Vec::new(alloc);
    for text in texts {
        names.push(Name::from_slice(alloc, text.as_bytes())?)?;
    }
    Ok(Names::from_vec(names))
}

/// The value of `--steps`, or the default.
pub(crate) fn steps_of(matches: &ArgMatches<'_>) -> u64
    requires { IsNumeralIn 1 most_steps (one_text (found_of matches.now) (codes "steps")) }
    ensures value { result ≡ option_map_or number_in (one_text (found_of matches.now) (codes "steps")) default_steps }
    ensures bounded { (0 < result) × (result ≤ most_steps) }
{
    matches.get_one::<u64>("steps").unwrap_or(DEFAULT_STEPS)
}

/// The value of `--cost`, or the default.
pub(crate) fn cost_of(matches: &ArgMatches<'_>) -> u64
    requires { IsNumeralIn 1 most_cost (one_text (found_of matches.now) (codes "cost")) }
    ensures value { result ≡ option_map_or number_in (one_text (found_of matches.now) (codes "cost")) default_cost }
    ensures bounded { (0 < result) × (result ≤ most_cost) }
{
    matches.get_one::<u64>("cost").unwrap_or(DEFAULT_COST)
}

/// Whether `--stats` was used.
pub(crate) fn stats_of(matches: &ArgMatches<'_>) -> bool
    requires { IsSwitch (one_text (found_of matches.now) (codes "stats")) }
    ensures { result ≡ is_switched_on (one_text (found_of matches.now) (codes "stats")) }
{
    matches.get_flag("stats")
}

/// The number that `demo` takes.
pub(crate) fn count_of(matches: &ArgMatches<'_>) -> u32
    requires given { is_some (one_text (found_of matches.now) (codes "count")) ≡ true }
    requires numeral { IsNumeralIn 1 most_count (one_text (found_of matches.now) (codes "count")) }
    ensures value { option_map number_in (one_text (found_of matches.now) (codes "count")) ≡ Some result }
    ensures bounded { (0 < result) × (result ≤ most_count) }
{
    matches.get_one::<u64>("count").unwrap() as u32
}
