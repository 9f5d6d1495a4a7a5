//! The commands and their arguments, as clap takes them.

ghost use Rattle.std.specs.Prelude.{◌≡◌, IfOk, codes, false};
ghost use Rattle.clap.specs.Words.{app_of, rule_of};
ghost use Rattle.command_line.specs.Commands.{bare_command, output_rule, single_rule, several_rule, steps_rule, stats_rule, cost_rule, count_rule};
ghost use Rattle.command_line.specs.Commands.{build_command, compile_command, link_command, run_command, go_command, mean_command, report_command, demo_command};

use clap::{Arg, ArgAction, Command, value_parser};
use std::alloc::{AllocError, Global};

/// The most instructions that `--steps` asks for.
const MOST_STEPS: i64 = 1_000_000_000_000;

/// The most that `--cost` asks for.
const MOST_COST: i64 = 1_000_000_000_000;

/// The most that `demo` takes.
const MOST_COUNT: i64 = 2000;

/// The required option `-o` with one value.
fn output<'a>(alloc: Global, id: &'a str) -> Arg<'a>
    ensures rule { rule_of result ≡ output_rule id.entry.now }
    ensures local { result.global ≡ false }
{
    Arg::new(alloc, id)
        .short('o')
        .required(true)
        .action(ArgAction::Set)
}

/// A positional of exactly one value.
fn single<'a>(alloc: Global, id: &'a str) -> Arg<'a>
    ensures rule { rule_of result ≡ single_rule id.entry.now }
    ensures local { result.global ≡ false }
{
    Arg::new(alloc, id).required(true).action(ArgAction::Set)
}

/// A positional of one or more values.
fn several<'a>(alloc: Global, id: &'a str) -> Arg<'a>
    ensures rule { rule_of result ≡ several_rule id.entry.now }
    ensures local { result.global ≡ false }
{
    Arg::new(alloc, id).required(true).num_args(1..)
}

/// The option `--steps` with a number from 1 to 10^12.
fn steps<'a>(alloc: Global) -> Arg<'a>
    ensures rule { rule_of result ≡ steps_rule }
    ensures local { result.global ≡ false }
{
    Arg::new(alloc, "steps")
        .long("steps")
        .action(ArgAction::Set)
        .value_parser(value_parser!(u64).range(1..=MOST_STEPS))
}

/// The flag `--stats`.
fn stats<'a>(alloc: Global) -> Arg<'a>
    ensures rule { rule_of result ≡ stats_rule }
    ensures local { result.global ≡ false }
{
    Arg::new(alloc, "stats")
        .long("stats")
        .action(ArgAction::SetTrue)
        .value_parser(value_parser!(bool))
}

/// The option `--cost` with a number from 1 to 10^12.
fn cost<'a>(alloc: Global) -> Arg<'a>
    ensures rule { rule_of result ≡ cost_rule }
    ensures local { result.global ≡ false }
{
    Arg::new(alloc, "cost")
        .long("cost")
        .action(ArgAction::Set)
        .value_parser(value_parser!(u64).range(1..=MOST_COST))
}

/// The positional of `demo`: a number from 1 to 2,000.
fn count<'a>(alloc: Global) -> Arg<'a>
    ensures rule { rule_of result ≡ count_rule }
    ensures local { result.global ≡ false }
{
    Arg::new(alloc, "count")
        .required(true)
        .action(ArgAction::Set)
        .value_parser(value_parser!(u64).range(1..=MOST_COUNT))
}

/// A command with no argument of its own and no help.
fn bare<'a>(alloc: Global, name: &'a str) -> Command<'a>
    ensures { app_of result ≡ bare_command name.entry.now }
{
    Command::new(alloc, name).disable_help_flag(true)
}

/// `build -o IMAGE FILE..`. Refused only for want of memory, as all of these.
pub(crate) fn build_command<'a>(alloc: Global) -> Result<Command<'a>, AllocError>
    ensures { IfOk result (λ command. app_of command ≡ build_command) }
{
    bare(alloc, "build")
        .arg(output(alloc, "image"))?
        .arg(several(alloc, "files"))
}

/// `compile -o UNIT FILE`.
pub(crate) fn compile_command<'a>(alloc: Global) -> Result<Command<'a>, AllocError>
    ensures { IfOk result (λ command. app_of command ≡ compile_command) }
{
    bare(alloc, "compile")
        .arg(output(alloc, "unit"))?
        .arg(single(alloc, "file"))
}

/// `link -o IMAGE UNIT..`.
pub(crate) fn link_command<'a>(alloc: Global) -> Result<Command<'a>, AllocError>
    ensures { IfOk result (λ command. app_of command ≡ link_command) }
{
    bare(alloc, "link")
        .arg(output(alloc, "image"))?
        .arg(several(alloc, "units"))
}

/// `run [--steps N] [--stats] IMAGE`.
pub(crate) fn run_command<'a>(alloc: Global) -> Result<Command<'a>, AllocError>
    ensures { IfOk result (λ command. app_of command ≡ run_command) }
{
    bare(alloc, "run")
        .arg(steps(alloc))?
        .arg(stats(alloc))?
        .arg(single(alloc, "image"))
}

/// `go [--steps N] [--stats] FILE..`.
pub(crate) fn go_command<'a>(alloc: Global) -> Result<Command<'a>, AllocError>
    ensures { IfOk result (λ command. app_of command ≡ go_command) }
{
    bare(alloc, "go")
        .arg(steps(alloc))?
        .arg(stats(alloc))?
        .arg(several(alloc, "files"))
}

/// `mean [--cost K] FILE..`.
pub(crate) fn mean_command<'a>(alloc: Global) -> Result<Command<'a>, AllocError>
    ensures { IfOk result (λ command. app_of command ≡ mean_command) }
{
    bare(alloc, "mean")
        .arg(cost(alloc))?
        .arg(several(alloc, "files"))
}

/// `report [--steps N] FILE..`.
pub(crate) fn report_command<'a>(alloc: Global) -> Result<Command<'a>, AllocError>
    ensures { IfOk result (λ command. app_of command ≡ report_command) }
{
    bare(alloc, "report")
        .arg(steps(alloc))?
        .arg(several(alloc, "files"))
}

/// `demo N`.
pub(crate) fn demo_command<'a>(alloc: Global) -> Result<Command<'a>, AllocError>
    ensures { IfOk result (λ command. app_of command ≡ demo_command) }
{
    bare(alloc, "demo").arg(count(alloc))
}
