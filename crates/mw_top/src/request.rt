// What the words of a command line ask for.
ghost use Rattle.std.specs.Prelude.{◌≡◌, IfOk, IfSome, Some, length, map, option_map, string_bytes};
ghost use Rattle.std.specs.Str.{bytes_eq};
ghost use Rattle.clap.specs.Words.{first_of, found_of, rows_of};
ghost use Rattle.mw_top.specs.Request.{HasItsFiles, command_in, command_of, data_of, expected_by, number_in};
ghost use Rattle.mw_top.specs.Request.{options_in, request_in, request_of, row_of, with_options};
ghost use Rattle.mw_top.specs.Operands.{file_count, operands_data};

mod computed_examples;
mod line;
mod operands;
mod options;

use self::line::{LineRead, read_line};
use self::operands::{Expected, Operands, operands_in};
use self::options::{Number, Options, option_number, parts_of};
use crate::commands::Task;
use clap::ArgMatches;
use mw_base::NoMemory;
use std::alloc::Global;

/// What the bench can do.
#[derive(Clone, Copy, Debug, PartialEq, Eq)]
pub enum Command {
    /// Compares one start: a board file, a microprogram for its board, a described machine, a relation, and a start.
    Compare,
    /// Assembles a microprogram: a board file, and the microprogram for its board.
    Asm,
    /// Runs a board: a board file, a microprogram for its board, and an environment.
    Run,
    /// Runs a script: a board file, a microprogram for its board, an environment, and the script.
    Debug,
    /// Says whether two expressions agree for all values of their variables: a question.
    Equal,
    /// Certifies a job: a board file, a microprogram for its board, a described machine, and a relation.
    Certify,
    /// Says how long the segments of a job last: the files of `Certify`.
    Bounds,
    /// Compares one step of a start that a report gives: the files of `Compare`.
    Replay,
    /// Certifies the job that the generator makes of a number.
    Generate,
    /// Prints a board file of version 2 that means the same: a board file.
    Upgrade,
    /// Runs a PDP-8 program at its console beside a board: the files of `Certify`, the program's source, and the keys at
    /// the console.
    Pal,
}

/// A command with what stands behind it, and its options. An option that isn't the command's own stands as it does
/// where it isn't given.
#[derive(Debug, Drop)]
pub struct Request {
    /// What is to be done.
    pub command: Command,
    /// The names of its files, in the order of the words.
    pub files: Vec<String>,
    /// The number of the job that is generated: 0 to 65,535, and 0 for the other commands.
    pub number: u16,
    /// The most joint cofactors of an operation: 1 to 16,000,000, and 1,000,000 where it isn't given.
    pub nodes: u32,
    /// The most cases of a boundary: 1 to 65,536, and 4,096 where it isn't given.
    pub paths: u32,
    /// How many steps are compared at most: 1 to 10,000, and 1 where it isn't given.
    pub steps: u32,
    /// How many cycles a run has: 1 to 1,000,000, and 1,000 where it isn't given.
    pub cycles: u32,
    /// Whether the board's arithmetic goes through its slices, joined by lookahead, and not over whole words.
    pub parts: bool,
}

/// What a command is.
#[derive(Clone, Copy)]
struct Row {
    /// The word that stands for it.
    word: &'static str,
    /// What it does.
    task: Task,
    /// Its own options with numbers.
    numbers: &'static [Number],
    /// Whether `--parts` is its own.
    parts: bool,
}

impl Command {
    /// The commands.
    const ALL: &'static [Command] = &[
        Command::Compare,
        Command::Asm,
        Command::Run,
        Command::Debug,
        Command::Equal,
        Command::Certify,
        Command::Bounds,
        Command::Replay,
        Command::Generate,
        Command::Upgrade,
        Command::Pal,
    ];

    /// The row of the command.
    fn row(self) -> Row
        ensures word { result.word.now ≡ (row_of self).word }
        ensures task { result.task ≡ (row_of self).task }
        ensures numbers { result.numbers.now ≡ (row_of self).numbers }
        ensures parts { result.parts ≡ (row_of self).parts }
    {
        match self {
            Command::Compare => Row {
                word: "compare",
                task: Task::Comparison,
                numbers: &[Number::Steps],
                parts: true,
            },
            Command::Asm => Row {
                word: "asm",
                task: Task::Assembly,
                numbers: &[],
                parts: false,
            },
            Command::Run => Row {
                word: "run",
                task: Task::Run,
                numbers: &[Number::Cycles],
                parts: true,
            },
            Command::Debug => Row {
                word: "debug",
                task: Task::Trace,
                numbers: &[],
                parts: false,
            },
            Command::Equal => Row {
                word: "equal",
                task: Task::Question,
                numbers: &[Number::Nodes],
                parts: false,
            },
            Command::Certify => Row {
                word: "certify",
                task: Task::Certification,
                numbers: &[Number::Nodes, Number::Paths],
                parts: false,
            },
            Command::Bounds => Row {
                word: "bounds",
                task: Task::Bounds,
                numbers: &[Number::Nodes, Number::Paths],
                parts: false,
            },
            Command::Replay => Row {
                word: "replay",
                task: Task::Comparison,
                numbers: &[],
                parts: false,
            },
            Command::Generate => Row {
                word: "generate",
                task: Task::Generation,
                numbers: &[Number::Nodes, Number::Paths],
                parts: false,
            },
            Command::Upgrade => Row {
                word: "upgrade",
                task: Task::Upgrade,
                numbers: &[],
                parts: false,
            },
            Command::Pal => Row {
                word: "pal",
                task: Task::Console,
                numbers: &[Number::Steps],
                parts: false,
            },
        }
    }

    /// What the command does.
    pub(crate) fn task(self) -> Task
        ensures { result ≡ (row_of self).task }
    {
        self.row().task
    }
}

/// What is expected behind a command of a task.
fn expected_by(task: Task) -> Expected
    ensures { result ≡ expected_by task }
{
    match task {
        Task::Comparison => Expected::Files(5),
        Task::Assembly => Expected::Files(2),
        Task::Run => Expected::Files(3),
        Task::Trace => Expected::Files(4),
        Task::Question => Expected::Files(1),
        Task::Certification => Expected::Files(4),
        Task::Bounds => Expected::Files(4),
        Task::Upgrade => Expected::Files(1),
        Task::Console => Expected::Files(6),
        Task::Generation => Expected::JobNumber,
    }
}

/// Whether a word stands for a command.
fn is_word_of(command: Command, word: &str) -> bool
    ensures { result ≡ bytes_eq word.now (row_of command).word }
{
    word == command.row().word
}

/// The command that a word stands for.
fn command_of(word: &str) -> Option<Command>
    ensures { result ≡ command_of word.now }
{
    Command::ALL
        .iter()
        .copied()
        .find(|command| is_word_of(*command, word))
}

/// The first value of an argument of a line.
fn value_in<'a>(line: &ArgMatches<'a>, name: &str) -> Option<&'a str>
    ensures { option_map (λ word. word.now) result ≡ first_of name.now (rows_of (found_of line.now)) }
{
    line.get_str(name)
}

/// The command that the line names.
fn command_in(line: &ArgMatches<'_>) -> Option<Command>
    ensures { result ≡ command_in (rows_of (found_of line.now)) }
{
    match value_in(line, "command") {
        Some(word) => command_of(word),
        None => None,
    }
}

/// The number of an option, which is read where it is the command's own.
fn number_in(command: Command, line: &ArgMatches<'_>, number: Number) -> Option<u32>
    ensures { result ≡ number_in command (rows_of (found_of line.now)) number }
{
    let limit = number.limit();
    let is_own = command.row().numbers.contains(&number);
    option_number(limit, is_own, value_in(line, limit.name))
}

/// The options of a command.
fn options_in(command: Command, line: &ArgMatches<'_>) -> Option<Options>
    ensures { result ≡ options_in command (rows_of (found_of line.now)) }
{
    Some(Options {
        nodes: number_in(command, line, Number::Nodes)?,
        paths: number_in(command, line, Number::Paths)?,
        steps: number_in(command, line, Number::Steps)?,
        cycles: number_in(command, line, Number::Cycles)?,
        parts: parts_of(command.row().parts, value_in(line, "parts"))?,
    })
}

/// The command with what stands behind it and with its options.
fn with_options(command: Command, operands: Operands, options: Options) -> Request
    requires { length operands.files.items ≡ file_count (expected_by (row_of command).task) }
    ensures exact { Some (data_of result) ≡ with_options command (Some (operands_data operands)) (Some options) }
    ensures count { HasItsFiles result }
{
    let Operands { files, number } = operands;
    Request {
        command,
        files,
        number,
        nodes: options.nodes,
        paths: options.paths,
        steps: options.steps,
        cycles: options.cycles,
        parts: options.parts,
    }
}

/// The request of a line.
fn request_in(alloc: Global, line: &ArgMatches<'_>) -> Result<Option<Request>, NoMemory>
    ensures exact { IfOk result (λ request. option_map data_of request ≡ request_in (rows_of (found_of line.now))) }
    ensures count { IfOk result (λ request. IfSome request HasItsFiles) }
{
    let Some(command) = command_in(line) else {
        return Ok(None);
    };
    let Some(options) = options_in(command, line) else {
        return Ok(None);
    };
    match operands_in(alloc, expected_by(command.task()), line)? {
        Some(operands) => Ok(Some(with_options(command, operands, options))),
        None => Ok(None),
    }
}

/// The request of the words of a command line, without the program's name. None where they are no request: `clap`
/// refuses them, there is no such command, the words behind it aren't its own, an option isn't its own, or a number
/// isn't one to eight decimal digits or is out of its range.
///
/// # Errors
///
/// Memory ran out.
#[tactic(auto, unfolding(crate::specs::Request::request_of))]
pub fn read_words(alloc: Global, words: &[String]) -> Result<Option<Request>, NoMemory>
    ensures exact { IfOk result (λ request. option_map data_of request ≡ request_of (map string_bytes words.now)) }
    ensures count { IfOk result (λ request. IfSome request HasItsFiles) }
{
    match read_line(alloc, words)? {
        LineRead::Matched(line) => request_in(alloc, &line),
        LineRead::Refused => Ok(None),
    }
}
