//! The program as a function of its arguments, a bench and its streams.
ghost use Rattle.std.specs.Prelude.{◌≡◌, ◌≢◌, ℕ, Bool, None, Some};
ghost use Rattle.ra_labels.specs.declared.kind.Kind.{Kind};
ghost use Rattle.ra_cli_arguments.specs.Arguments.{asked_by, stop_words};
ghost use Rattle.ra_cli_common.specs.Endings.{StopsProgram};
ghost use Rattle.ra_cli_common.specs.Check.{ChecksText};
ghost use Rattle.ra_cli_arguments.specs.declared.arguments.Run.TheVariants.{Check, Bench};
ghost use Rattle.ra_monitor_cli.specs.Program.{RunsBench};

use crate::bench::{BenchAnswer, end_bench};
use ra_cli_arguments::{Run, Words, run_asked_by};
use ra_cli_common::{Console, Ending, run_check, stop_unasked};
use ra_labels::Kind;
use std::alloc::Global;
use std::io::{Read, Write};

/// Runs the program with the arguments after its name.
///
/// `check` checks the text that the reader provides, with the replies on `out` and the line of an error on `err`;
/// `check --report` also writes the report's object. `bench` writes its line on `out`, from what the closure returns
/// for the kind, the number of replicas and the number of rounds. For other arguments it writes the line `usage` on
/// `err`, or `no memory` if they could not be read for lack of memory.
///
/// # Complexity
///
/// That of `ra_history_text::check` or of the closure.
pub fn run<R: Read, W: Write, E: Write, B: FnOnce(Kind, u8, u32) -> BenchAnswer>(
    alloc: Global,
    words: &Words,
    bench: B,
    console: &mut Console<R, W, E>,
) -> Ending
    // The closure can be called with any arguments.
    requires { B.IsAlwaysCallable bench }
    // For arguments that ask for nothing, nothing is read.
    ensures unread { asked_by words.now ≡ None → console.new.reader ≡ console.old.reader }
    // For arguments that ask for nothing, nothing is written on `out`.
    ensures unwritten { asked_by words.now ≡ None → console.new.out ≡ console.old.out }
    // For arguments that ask for nothing, the status is 2, and `err` received the line `usage`, or `no memory`, if the
    // ending says that it was written.
    ensures usage { asked_by words.now ≡ None →
        StopsProgram result (E.contents console.old.err) (E.contents console.new.err) (stop_words words.now) }
    // For the arguments of a check, the contract of `run_check` holds: the output and the status are those of the check
    // of the text.
    ensures checked { (report : Bool) → asked_by words.now ≡ Some (Check report) →
        ChecksText report result (R.remaining console.old.reader) (R.remaining console.new.reader)
        (W.contents console.old.out) (W.contents console.new.out)
        (E.contents console.old.err) (E.contents console.new.err) }
    // For the arguments of a check, nothing is written on `err` unless the status is 2.
    ensures silent { (report : Bool) → asked_by words.now ≡ Some (Check report) → result.status ≢ 2 →
        console.new.err ≡ console.old.err }
    // For the arguments of a bench, nothing is read.
    ensures unasked { (kind : Kind) (replicas rounds : ℕ) → asked_by words.now ≡ Some (Bench kind replicas rounds) →
        console.new.reader ≡ console.old.reader }
    // For the arguments of a bench, the closure answered for just this kind and these numbers. Its report is written as
    // the bench's line, or its error is reported as `bench fault`.
    ensures benched { (kind : Kind) (replicas rounds : ℕ) → asked_by words.now ≡ Some (Bench kind replicas rounds) →
        RunsBench (B.post bench kind replicas rounds) kind replicas rounds result
        (W.contents console.old.out) (W.contents console.new.out)
        (E.contents console.old.err) (E.contents console.new.err) }
{
    match run_asked_by(words) {
        Some(asked) => run_asked(alloc, asked, bench, console),
        None => stop_unasked(words, &mut console.err),
    }
}

// Runs what the arguments ask for.
fn run_asked<R: Read, W: Write, E: Write, B: FnOnce(Kind, u8, u32) -> BenchAnswer>(
    alloc: Global,
    asked: Run,
    bench: B,
    console: &mut Console<R, W, E>,
) -> Ending
    requires { B.IsAlwaysCallable bench }
    ensures checked { (report : Bool) → asked ≡ Check report →
        ChecksText report result (R.remaining console.old.reader) (R.remaining console.new.reader)
        (W.contents console.old.out) (W.contents console.new.out)
        (E.contents console.old.err) (E.contents console.new.err) }
    ensures silent { (report : Bool) → asked ≡ Check report → result.status ≢ 2 → console.new.err ≡ console.old.err }
    ensures unasked { (kind : Kind) (replicas rounds : ℕ) → asked ≡ Bench kind replicas rounds →
        console.new.reader ≡ console.old.reader }
    ensures benched { (kind : Kind) (replicas rounds : ℕ) → asked ≡ Bench kind replicas rounds →
        RunsBench (B.post bench kind replicas rounds) kind replicas rounds result
        (W.contents console.old.out) (W.contents console.new.out)
        (E.contents console.old.err) (E.contents console.new.err) }
{
    let Console { reader, out, err } = console;
    match asked {
        Run::Check { report } => run_check(alloc, report, reader, out, err),
        Run::Bench {
            kind,
            replicas,
            rounds,
        } => {
            let answer = bench(kind, replicas, rounds);
            end_bench(alloc, kind, replicas, rounds, answer, out, err)
        }
    }
}
