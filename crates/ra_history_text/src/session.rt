//! A check that receives its text piece by piece.
ghost use Rattle.std.specs.Prelude.{◌≡◌, ◌≢◌, ◌++◌, ◌∷◌, [], All, Ok, Some, IfErr, IfOk, MatchOption, OnErr, OnOk};
ghost use Rattle.ra_history_lines.specs.Grammar.{Spells, fields_of};
ghost use Rattle.ra_history_lines.specs.Reading.{command_read};
ghost use Rattle.ra_history_text.specs.Recording.{said_of};
ghost use Rattle.ra_history_text.specs.Output.{replies_of};
ghost use Rattle.ra_history_text.specs.Sessions.{said_at, AddsReplies, StopsLine, StopsExtending, StopsClosing, StopsInside, EndsText, StopsEnding, SaysNoHistory, IsToldBy, format_said, names_said};
ghost use Rattle.ra_history_text.specs.Text as text;
ghost use Rattle.ra_history_text.specs.Text.{text_start, line_start, next_line, line_taken, taken};

use crate::fault::CheckFault;
use crate::limits::LONGEST_LINE;
use crate::recording::Recording;
use ra_history_lines::command::{command, delivery_in};
use ra_history_lines::fields::cut_near;
use ra_history_lines::kind_line::head_of;
use ra_history_lines::reply::{put_end, put_reply};
use ra_history_lines::{Format, Names};
use ra_labels::{Command, Kind};
use ra_monitor::{Monitor, Report};
use std::alloc::Global;
use std::marker::Model;

// What the whole lines of a text said.
#[derive(Drop)]
enum Stage {
    // No line so far: the first comes next.
    Nothing,
    // The format and the kind: the line of names comes next.
    OfKind(Format, Kind),
    // The format, the kind, the names and the answered commands: a command comes next.
    OfHistory(Recording),
}

impl Stage {
    // Returns the number of the next line.
    fn line(&self) -> u32
        ensures { result ≡ next_line (said_at self.now) }
    {
        match self {
            Stage::Nothing => 1,
            Stage::OfKind(_, _) => 2,
            Stage::OfHistory(history) => history.line(),
        }
    }

    // Takes a whole line, and appends the line of its reply, if it has one.
    #[inline(always)]
    fn take_line(&mut self, line: &[u8], out: &mut Vec<u8>) -> Result<(), CheckFault>
        ensures taken { OnOk result (line_taken (said_at self.old) line.now ≡ Ok (line_start (said_at self.new))) }
        ensures replied { OnOk result (AddsReplies (said_at self.old) (said_at self.new)
            out.old.items out.new.items) }
        ensures fault { IfErr result (StopsLine (said_at self.old) line.now) }
        ensures err { OnErr result (out.new.items ≡ out.old.items) }
    {
        match self {
            Stage::Nothing => self.take_first(line),
            Stage::OfKind(format, kind) => {
                let (format, kind) = (*format, *kind);
                self.take_names(*out.allocator(), format, kind, line)
            }
            Stage::OfHistory(history) => take_command(history, line, out),
        }
    }

    // Neither this function nor the next is inlined: their stack frames would be set up for each line.
    #[cold]
    #[inline(never)]
    fn take_first(&mut self, line: &[u8]) -> Result<(), CheckFault>
        ensures taken { OnOk result (line_taken text.Nothing line.now ≡ Ok (line_start (said_at self.new))) }
        ensures replied { OnOk result (replies_of (said_at self.new) ≡ []) }
        ensures fault { IfErr result (StopsLine text.Nothing line.now) }
    {
        *self = after_first(line)?;
        Ok(())
    }

    #[cold]
    #[inline(never)]
    fn take_names(
        &mut self,
        alloc: Global,
        format: Format,
        kind: Kind,
        line: &[u8],
    ) -> Result<(), CheckFault>
        ensures taken { OnOk result
            (line_taken (text.OfKind format kind) line.now ≡ Ok (line_start (said_at self.new))) }
        ensures replied { OnOk result (replies_of (said_at self.new) ≡ []) }
        ensures fault { IfErr result (StopsLine (text.OfKind format kind) line.now) }
    {
        *self = after_names(alloc, format, kind, line)?;
        Ok(())
    }
}

fn after_first(line: &[u8]) -> Result<Stage, CheckFault>
    ensures taken { IfOk result (λ next. line_taken text.Nothing line.now ≡ Ok (line_start (said_at next))) }
    ensures replied { IfOk result (λ next. replies_of (said_at next) ≡ []) }
    ensures fault { IfErr result (StopsLine text.Nothing line.now) }
{
    match head_of(line) {
        Some((format, kind)) => Ok(Stage::OfKind(format, kind)),
        None => Err(CheckFault::Syntax(1)),
    }
}

fn after_names(alloc: Global, format: Format, kind: Kind, line: &[u8]) -> Result<Stage, CheckFault>
    ensures taken { IfOk result (λ next.
        line_taken (text.OfKind format kind) line.now ≡ Ok (line_start (said_at next))) }
    ensures replied { IfOk result (λ next. replies_of (said_at next) ≡ []) }
    ensures fault { IfErr result (StopsLine (text.OfKind format kind) line.now) }
{
    let names = match Names::read(alloc, format, line) {
        Ok(names) => names,
        Err(fault) => return Err(CheckFault::at_line(fault, 2)),
    };
    let history = Recording::new(alloc, format, kind, names)?;
    Ok(Stage::OfHistory(history))
}

// Takes a line after the first two. Most are deliveries, whose command is recorded without a copy.
fn take_command(history: &mut Recording, line: &[u8], out: &mut Vec<u8>) -> Result<(), CheckFault>
    ensures taken { OnOk result (line_taken (said_of history.old) line.now ≡ Ok (line_start (said_of history.new))) }
    ensures replied { OnOk result (AddsReplies (said_of history.old) (said_of history.new)
        out.old.items out.new.items) }
    ensures fault { IfErr result (StopsLine (said_of history.old) line.now) }
    ensures err { OnErr result (out.new.items ≡ out.old.items) }
{
    match delivery_in(history.names(), line) {
        Some((replica, label)) => record(history, line, Command::Deliver { replica, label }, out),
        None => take_other(history, line, out),
    }
}

// Takes a line of any command. It is not inlined: its stack frame would be set up for each delivery.
#[inline(never)]
fn take_other(history: &mut Recording, line: &[u8], out: &mut Vec<u8>) -> Result<(), CheckFault>
    ensures taken { OnOk result (line_taken (said_of history.old) line.now ≡ Ok (line_start (said_of history.new))) }
    ensures replied { OnOk result (AddsReplies (said_of history.old) (said_of history.new)
        out.old.items out.new.items) }
    ensures fault { IfErr result (StopsLine (said_of history.old) line.now) }
    ensures err { OnErr result (out.new.items ≡ out.old.items) }
{
    let found = command(
        *out.allocator(),
        history.format(),
        history.kind(),
        history.names(),
        line,
    )?;
    let Some(command) = found else {
        return Err(CheckFault::Syntax(history.line()));
    };
    record(history, line, command, out)
}

// Records the command of the line, and appends the line of its reply.
#[inline(always)]
fn record(
    history: &mut Recording,
    line: &[u8],
    command: Command,
    out: &mut Vec<u8>,
) -> Result<(), CheckFault>
    requires read { command_read history.old.format history.old.kind (history.old.first ++ history.old.joined)
        (fields_of line.now) ≡ Some command }
    requires spells { Spells history.old.format history.old.kind (history.old.first ++ history.old.joined)
        line.now command }
    ensures taken { OnOk result (line_taken (said_of history.old) line.now ≡ Ok (line_start (said_of history.new))) }
    ensures replied { OnOk result (AddsReplies (said_of history.old) (said_of history.new)
        out.old.items out.new.items) }
    ensures fault { IfErr result (StopsLine (said_of history.old) line.now) }
    ensures err { OnErr result (out.new.items ≡ out.old.items) }
{
    let answer = history.take(line, command)?;
    put_reply(out, answer)?;
    Ok(())
}

// Takes a whole line. A line that stops the text is kept for the callers of `line_so_far`; it is not kept if its
// allocation fails.
#[inline(always)]
fn take_or_keep(
    stage: &mut Stage,
    partial: &mut Vec<u8>,
    line: &[u8],
    out: &mut Vec<u8>,
) -> Result<(), CheckFault>
    ensures taken { OnOk result (line_taken (said_at stage.old) line.now ≡ Ok (line_start (said_at stage.new))) }
    ensures replied { OnOk result (AddsReplies (said_at stage.old) (said_at stage.new) out.old.items out.new.items) }
    ensures same { OnOk result (partial.new.items ≡ partial.old.items) }
    ensures fault { IfErr result (StopsLine (said_at stage.old) line.now) }
    ensures err { OnErr result (out.new.items ≡ out.old.items) }
{
    match stage.take_line(line, out) {
        Ok(()) => Ok(()),
        Err(fault) => {
            let _ = partial.extend_from_slice(line);
            Err(fault)
        }
    }
}

/// A text that is checked as it arrives, in pieces that may end anywhere. Contracts view it as what its whole lines
/// say, and the bytes so far of the next line.
#[derive(Drop)]
pub struct Session {
    stage: Stage,
    partial: Vec<u8>,
}

impl Model for Session {
    ghost use Rattle.ra_history_text.specs.Text.{Progress};

    ghost Value = { Progress };

    ghost use Rattle.ra_history_text.specs.Sessions.{said_at};

    ghost view = { λ s. record { said = said_at s.stage; partial = s.partial.items } };
}

impl Session {
    /// Creates the session of a text of which nothing has arrived. Does not allocate.
    pub fn new(alloc: Global) -> Session
        // The new session is at the start of a text.
        ensures { result ≡ text_start }
    {
        Session {
            stage: Stage::Nothing,
            partial: Vec::new(alloc),
        }
    }

    /// Takes the next piece of the text, and appends the replies to the lines that are whole now.
    ///
    /// # Errors
    ///
    /// `Syntax`, `LineTooLong` or `Full` if the text stops inside the piece, and `NoMemory` if an allocation fails. The
    /// replies to the lines before were appended, and the session must not be used again.
    ///
    /// # Complexity
    ///
    /// O(length of the piece), and the monitor's steps. A line that lies within one piece is not copied.
    pub fn feed(&mut self, piece: &[u8], out: &mut Vec<u8>) -> Result<(), CheckFault>
        // After success, the session is where the piece leads from where it was, however the text is cut into pieces.
        ensures taken { OnOk result (taken self.old piece.now ≡ Ok self.new) }
        // After success, exactly the replies to the lines that became whole are appended.
        ensures replied { OnOk result (AddsReplies self.old.said self.new.said
            out.old.items out.new.items) }
        // After an error, the text stops inside the piece with this error, or an allocation failed there. The replies
        // to the lines before are appended.
        ensures fault { IfErr result (StopsInside self.old piece.now out.old.items out.new.items) }
    {
        let mut rest = piece;
        while let Some((front, behind)) = cut_near(b'\n', rest) {
            self.close_line(front, out)?;
            rest = behind;
        }
        self.extend(rest)
    }

    /// Ends the text, appends its end line, and returns the summary of its history.
    ///
    /// # Errors
    ///
    /// `Truncated` if the text may not end here, and `NoMemory` if an allocation fails. On an error nothing is
    /// appended.
    pub fn finish(&self, out: &mut Vec<u8>) -> Result<Report, CheckFault>
        // After success, the text has its regular end here, its end line is appended, and the report is that of its
        // history.
        ensures ended { IfOk result (EndsText self.now out.old.items out.new.items) }
        // `Truncated` is returned exactly where the text may not end. `NoMemory` is returned only where it has a
        // regular end.
        ensures fault { IfErr result (StopsEnding self.now) }
        // After an error, nothing is appended.
        ensures err { OnErr result (out.new.items ≡ out.old.items) }
    {
        if !self.partial.is_empty() {
            return Err(CheckFault::Truncated(self.stage.line()));
        }
        match &self.stage {
            Stage::OfHistory(history) => {
                let report = history.report();
                put_end(out, report.labels, report.fault)?;
                Ok(report)
            }
            Stage::Nothing | Stage::OfKind(_, _) => Err(CheckFault::Truncated(self.stage.line())),
        }
    }

    /// Returns the monitor that answered the lines so far, or `None` before the first two lines. Entry k of its log,
    /// from 0, is the command of line k + 3.
    pub fn monitor(&self) -> Option<&Monitor>
        // The monitor has the kind, the number of initial replicas and the commands of the lines so far. The result is
        // `None` exactly before the first two lines.
        ensures { MatchOption result (SaysNoHistory self.now.said) (λ monitor. IsToldBy self.now.said monitor.now) }
    {
        match &self.stage {
            Stage::OfHistory(history) => Some(history.monitor()),
            Stage::Nothing | Stage::OfKind(_, _) => None,
        }
    }

    /// Returns the names of the replicas so far, by their numbers, or `None` before the first two lines.
    pub fn names(&self) -> Option<&Names>
        // The names are those of the second line and of the accepted joins so far. The result is `None` exactly before
        // the first two lines.
        ensures { MatchOption result (SaysNoHistory self.now.said) (λ names. names.now ≡ names_said self.now.said) }
    {
        match &self.stage {
            Stage::OfHistory(history) => Some(history.names()),
            Stage::Nothing | Stage::OfKind(_, _) => None,
        }
    }

    /// Returns the monitor and the names, or `None` before the first two lines. Consumes `self`.
    pub fn into_history(self) -> Option<(Monitor, Names)>
        // The monitor and the names are those of the lines so far. The result is `None` exactly before the first two
        // lines.
        ensures { MatchOption result (SaysNoHistory self.said)
            (λ parts. IsToldBy self.said parts.0 × (parts.1 ≡ names_said self.said)) }
    {
        let Session { stage, partial: _ } = self;
        match stage {
            Stage::OfHistory(history) => Some(history.into_parts()),
            Stage::Nothing | Stage::OfKind(_, _) => None,
        }
    }

    /// Returns the format that the first line names, or `None` before that line.
    pub fn format(&self) -> Option<Format>
        // The result is the format that the first line names, or `None` before that line.
        ensures { result ≡ format_said self.now.said }
    {
        match &self.stage {
            Stage::Nothing => None,
            Stage::OfKind(format, _) => Some(*format),
            Stage::OfHistory(history) => Some(history.format()),
        }
    }

    /// Returns the bytes so far of the next line. After an error they are the kept bytes of the faulty line, which no
    /// clause states; nothing was kept if its allocation failed.
    pub fn line_so_far(&self) -> &[u8]
        // The result is the bytes so far of the next line.
        ensures { result.now ≡ self.now.partial }
    {
        &self.partial
    }

    // Takes a part of the next line, which contains no line feed.
    fn extend(&mut self, part: &[u8]) -> Result<(), CheckFault>
        requires { All (λ b. b ≢ 10) part.now }
        ensures taken { OnOk result (taken self.old part.now ≡ Ok self.new) }
        ensures said { self.new.said ≡ self.old.said }
        ensures fault { IfErr result (StopsExtending self.old part.now) }
    {
        let room = LONGEST_LINE.saturating_sub(self.partial.len());
        if part.len() > room {
            return Err(CheckFault::LineTooLong(self.stage.line()));
        }
        self.partial.extend_from_slice(part)?;
        Ok(())
    }

    // Takes the last part of the next line, which contains no line feed, and the line feed after it. A line that lies
    // within one piece is not copied.
    fn close_line(&mut self, last: &[u8], out: &mut Vec<u8>) -> Result<(), CheckFault>
        requires { All (λ b. b ≢ 10) last.now }
        ensures taken { OnOk result (taken self.old (last.now ++ 10 ∷ []) ≡ Ok self.new) }
        ensures replied { OnOk result (AddsReplies self.old.said self.new.said
            out.old.items out.new.items) }
        ensures fault { IfErr result (StopsClosing self.old last.now) }
        ensures err { OnErr result (out.new.items ≡ out.old.items) }
    {
        if self.partial.is_empty() && last.len() <= LONGEST_LINE {
            return take_or_keep(&mut self.stage, &mut self.partial, last, out);
        }
        self.extend(last)?;
        self.stage.take_line(&self.partial, out)?;
        self.partial.clear();
        Ok(())
    }
}
