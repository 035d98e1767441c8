//! The command-line arguments.
ghost use Rattle.std.specs.Prelude.{◌≡◌, IfSome, Some, map, string_bytes};
ghost use Rattle.ra_cli_arguments.specs.Arguments.{are_of_bench, asked_by_one, asked_by_two, bench_read, byte_read};
ghost use Rattle.ra_cli_arguments.specs.Arguments.{asked_by, run_named, texts_of, AskFor};
ghost use Rattle.ra_cli_arguments.specs.declared.arguments.Run.{Run};

use ra_history_lines::kind_line::kind_of_word;
use ra_history_lines::number::number;
use ra_labels::Kind;
use std::alloc::AllocError;
use std::env::Env;
use std::io::ErrorKind;
use std::{env, io};

/// The run that the arguments ask for.
#[derive(Clone, Copy, Debug, PartialEq, Eq)]
pub enum Run {
    /// The check of a text on standard input.
    Check {
        /// Whether the report's object is written after the answer.
        report: bool,
    },
    /// A bench of replicas that report to a desk, each on its own thread.
    Bench {
        /// The kind of the replicated data.
        kind: Kind,
        /// The number of replicas.
        replicas: u8,
        /// The number of updates of each replica.
        rounds: u32,
    },
}

/// Returns the run that the arguments after the program's name ask for, or `None` for any other arguments: `check`,
/// `check --report`, or `bench --kind K --replicas N --rounds M`. K is the word of a kind. N and M are decimal numbers
/// without leading zeros, N up to 255 and M up to 4,294,967,295. Does not allocate.
pub fn run_of(words: &[&str]) -> Option<Run>
    // The result is the run that the table of arguments assigns to these arguments, or `None`.
    ensures table { result ≡ run_named (texts_of words.now) }
    // If the result is a run, the arguments are those for it, and its numbers fit their types.
    ensures found { IfSome result (AskFor (texts_of words.now)) }
    // For the arguments of a run, the result is that run.
    ensures only { (run : Run) → AskFor (texts_of words.now) run → result ≡ Some run }
{
    named(words)
}

fn named(words: &[&str]) -> Option<Run>
    ensures { result ≡ run_named (texts_of words.now) }
{
    match words {
        [word] => asked_by_one(word),
        [word, option] => asked_by_two(word, option),
        [
            word,
            for_kind,
            kind,
            for_replicas,
            replicas,
            for_rounds,
            rounds,
        ] => {
            if are_of_bench(word, for_kind, for_replicas, for_rounds) {
                bench_of(kind, replicas, rounds)
            } else {
                None
            }
        }
        _ => None,
    }
}

fn asked_by_one(word: &str) -> Option<Run>
    ensures { result ≡ asked_by_one word.now }
{
    if word == "check" {
        Some(Run::Check { report: false })
    } else {
        None
    }
}

fn asked_by_two(word: &str, option: &str) -> Option<Run>
    ensures { result ≡ asked_by_two word.now option.now }
{
    if word == "check" && option == "--report" {
        Some(Run::Check { report: true })
    } else {
        None
    }
}

// Returns `true` if these are the subcommand and the options of a bench.
fn are_of_bench(word: &str, for_kind: &str, for_replicas: &str, for_rounds: &str) -> bool
    ensures { result ≡ are_of_bench word.now for_kind.now for_replicas.now for_rounds.now }
{
    word == "bench"
        && for_kind == "--kind"
        && for_replicas == "--replicas"
        && for_rounds == "--rounds"
}

// Parses the kind and the numbers of a bench.
fn bench_of(kind: &str, replicas: &str, rounds: &str) -> Option<Run>
    ensures { result ≡ bench_read kind.now replicas.now rounds.now }
{
    let kind = kind_of_word(kind.as_bytes())?;
    let replicas = byte_of(replicas)?;
    let rounds = number(rounds.as_bytes())?;
    Some(Run::Bench {
        kind,
        replicas,
        rounds,
    })
}

// Parses a number of at most 255.
fn byte_of(word: &str) -> Option<u8>
    ensures { result ≡ byte_read word.now }
{
    let number = number(word.as_bytes())?;
    if number <= u8::MAX as u32 {
        Some(number as u8)
    } else {
        None
    }
}

/// Returns the run that the arguments ask for, as `run_of` does, for owned strings.
pub fn run_of_kept(words: &[String]) -> Option<Run>
    // The result is the run that the table of arguments assigns to these arguments, or `None`.
    ensures { result ≡ run_named (map string_bytes words.now) }
{
    match words {
        [word] => run_of(&[word.as_str()]),
        [word, option] => run_of(&[word.as_str(), option.as_str()]),
        [
            word,
            for_kind,
            kind,
            for_replicas,
            replicas,
            for_rounds,
            rounds,
        ] => run_of(&[
            word.as_str(),
            for_kind.as_str(),
            kind.as_str(),
            for_replicas.as_str(),
            replicas.as_str(),
            for_rounds.as_str(),
            rounds.as_str(),
        ]),
        _ => None,
    }
}

/// The command-line arguments after the program's name, or why they cannot be read.
pub type Words = Result<Vec<String>, WordsFault>;

/// Returns the run that the arguments ask for, as `run_of` does, or `None` if they could not be read.
pub fn run_asked_by(words: &Words) -> Option<Run>
    // The result is the run that the table of arguments assigns to these arguments, or `None`.
    ensures { result ≡ asked_by words.now }
{
    match words {
        Ok(words) => run_of_kept(words),
        Err(_) => None,
    }
}

/// Returns the command-line arguments after the program's name.
///
/// # Errors
///
/// `NoMemory` if an allocation fails; `NotText` if an argument is not valid text.
///
/// # Complexity
///
/// O(total length of the arguments).
pub fn words_of<R: Env + AllocGlobal>(rt: &R) -> Words {
    let mut words = env::args(rt)?;
    let _program = words.next();
    Ok(words.collect(rt.alloc())?)
}

/// Why the command-line arguments cannot be read.
#[derive(Clone, Copy, Debug, PartialEq, Eq)]
pub enum WordsFault {
    /// An allocation failed.
    NoMemory,
    /// An argument is not valid text.
    NotText,
}

impl From<io::Error> for WordsFault {
    ghost use Rattle.std.specs.Prelude.{◌≡◌, ◌↔◌};
    ghost use Rattle.std.specs.IoError.{error_kind};
    ghost use Rattle.std.specs.declared.io.ErrorKind.TheVariants.{OutOfMemory};
    ghost use Rattle.ra_cli_arguments.specs.declared.arguments.WordsFault.TheVariants.{NoMemory};

    ghost from_gives = { λ error fault. (fault ≡ NoMemory) ↔ (error_kind error ≡ OutOfMemory) };

    fn from(error: io::Error) -> WordsFault {
        match error.kind() {
            ErrorKind::OutOfMemory => WordsFault::NoMemory,
            _ => WordsFault::NotText,
        }
    }
}

impl From<AllocError> for WordsFault {
    ghost use Rattle.std.specs.Prelude.{◌≡◌};
    ghost use Rattle.ra_cli_arguments.specs.declared.arguments.WordsFault.TheVariants.{NoMemory};

    ghost from_gives = { λ _ fault. fault ≡ NoMemory };

    fn from(_refused: AllocError) -> WordsFault {
        WordsFault::NoMemory
    }
}
