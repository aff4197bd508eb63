// The words of a command line, as `clap` reads them.
ghost use Rattle.std.specs.Prelude.{◌≡◌, IfOk, codes, false, map, string_bytes};
ghost use Rattle.clap.specs.Words.{app_of, new_app, rule_of};
ghost use Rattle.mw_top.specs.Line.{bare, command_rule, flag_rule, line, operands_rule, option_rule};
ghost use Rattle.mw_top.specs.LineRead.{IsRead};

use clap::error::ErrorKind;
use clap::{Arg, ArgAction, ArgMatches, Command};
use mw_base::NoMemory;
use std::alloc::Global;

/// What `clap` makes of the words.
#[derive(Drop)]
pub(crate) enum LineRead<'a> {
    /// The values of the arguments.
    Matched(ArgMatches<'a>),
    /// The words are refused.
    Refused,
}

/// The word of the command, which has to be there.
fn command<'a>(alloc: Global) -> Arg<'a>
    ensures rule { rule_of result ≡ command_rule }
    ensures local { result.global ≡ false }
{
    Arg::new(alloc, "command")
        .required(true)
        .action(ArgAction::Set)
}

/// The words behind the command, as many as there are.
fn operands<'a>(alloc: Global) -> Arg<'a>
    ensures rule { rule_of result ≡ operands_rule }
    ensures local { result.global ≡ false }
{
    Arg::new(alloc, "operands")
        .action(ArgAction::Append)
        .num_args(0..)
}

/// An option with one value, as text.
fn option<'a>(alloc: Global, name: &'a str) -> Arg<'a>
    ensures rule { rule_of result ≡ option_rule name.entry.now }
    ensures local { result.global ≡ false }
{
    Arg::new(alloc, name).long(name).action(ArgAction::Set)
}

/// A flag.
fn flag<'a>(alloc: Global, name: &'a str) -> Arg<'a>
    ensures rule { rule_of result ≡ flag_rule name.entry.now }
    ensures local { result.global ≡ false }
{
    Arg::new(alloc, name).long(name).action(ArgAction::SetTrue)
}

/// A line without arguments: its words have no program name, and it has no help and no version flag.
fn bare<'a>(alloc: Global) -> Command<'a>
    ensures { app_of result ≡ bare (new_app (codes "mw_bench")) }
{
    Command::new(alloc, "mw_bench")
        .no_binary_name(true)
        .disable_help_flag(true)
        .disable_version_flag(true)
}

/// The whole line.
fn line<'a>(alloc: Global) -> Result<Command<'a>, NoMemory>
    ensures { IfOk result (λ c. app_of c ≡ line) }
{
    let line = bare(alloc).arg(command(alloc))?;
    let line = line.arg(operands(alloc))?;
    let line = line.arg(option(alloc, "nodes"))?;
    let line = line.arg(option(alloc, "paths"))?;
    let line = line.arg(option(alloc, "steps"))?;
    let line = line.arg(option(alloc, "cycles"))?;
    Ok(line.arg(flag(alloc, "parts"))?)
}

/// What `clap` makes of the words of a command line.
///
/// # Errors
///
/// Memory ran out.
pub(crate) fn read_line<'a>(alloc: Global, words: &'a [String]) -> Result<LineRead<'a>, NoMemory>
    ensures { IfOk result (IsRead (map string_bytes words.now)) }
{
    match line(alloc)?.try_get_matches_from(words) {
        Ok(matches) => Ok(LineRead::Matched(matches)),
        Err(error) => match error.kind() {
            ErrorKind::OutOfMemory => Err(NoMemory),
            _ => Ok(LineRead::Refused),
        },
    }
}
