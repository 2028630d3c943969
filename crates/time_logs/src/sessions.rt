//! The sessions of a timeclock text.
ghost use Rattle.std.specs.Prelude.{◌≡◌, ◌++◌, ◌∷◌, [], OnOk};
ghost use Rattle.hl_base.specs.Gives.{Gives};
ghost use Rattle.entry_reader.specs.Lines.{contents_of};
ghost use Rattle.time_logs.specs.ClockSteps as spec;
ghost use Rattle.time_logs.specs.Faults.{log_cause};
ghost use Rattle.time_logs.specs.Sessions.{ended, sessions_in};

use crate::clock_line::{ClockLine, clock_line};
use crate::faults::LogFault;
use crate::moments::Moment;
use entry_reader::scan::{cut_line, is_utf8};
use hl_base::{Memory, Text};
use std::alloc::Global;

/// A session that has begun: its line, its moment, its account and its description.
#[derive(Drop)]
pub struct Begun {
    pub line: u64,
    pub from: Moment,
    pub account: Text,
    pub description: Text,
}

/// A session: the line in which it begins, the seconds from `from` up to `until`, its account and its description.
#[derive(Drop)]
pub struct Session {
    pub line: u64,
    pub from: Moment,
    pub until: Moment,
    pub account: Text,
    pub description: Text,
}

/// The sessions of the lines so far, and the one that is open.
#[derive(Drop)]
pub struct Progress {
    pub done: Vec<Session>,
    pub open: Option<Begun>,
}

/// What a line says, or the fault of one that is of no form.
#[tactic(auto, unfolding(crate::specs::Sessions::line_says))]
fn line_said(alloc: Global, line: u64, content: &[u8]) -> Result<ClockLine, LogFault>
    ensures { Gives (λ said. said) log_cause result (spec.line_said line content.now) }
{
    if !is_utf8(content) {
        return Err(LogFault::BadLine { line });
    }
    match clock_line(alloc, content)? {
        Some(said) => Ok(said),
        None => Err(LogFault::BadLine { line }),
    }
}

/// The session of a clock-in that ends at a moment.
fn ended(begun: Begun, until: Moment) -> Session
    ensures { result ≡ ended begun until }
{
    Session {
        line: begun.line,
        from: begun.from,
        until,
        account: begun.account,
        description: begun.description,
    }
}

/// Appends a session.
fn push_session(done: &mut Vec<Session>, session: Session) -> Result<(), Memory>
    ensures { OnOk result (done.new.items ≡ done.old.items ++ session ∷ []) }
{
    done.push(session)?;
    Ok(())
}

/// Ends the session that is open.
fn end_session(progress: Progress, line: u64, moment: Moment) -> Result<Progress, LogFault>
    ensures { Gives spec.progress_of log_cause result
        (spec.after_end (spec.progress_of progress) line moment) }
{
    let mut done = progress.done;
    match progress.open {
        None => Err(LogFault::Order { line }),
        Some(begun) => {
            if moment.second() < begun.from.second() {
                return Err(LogFault::Backwards { line });
            }
            push_session(&mut done, ended(begun, moment))?;
            Ok(Progress { done, open: None })
        }
    }
}

/// Begins a session where none is open.
fn begin_session(progress: Progress, begun: Begun) -> Result<Progress, LogFault>
    ensures { Gives spec.progress_of log_cause result
        (spec.after_begin (spec.progress_of progress) begun) }
{
    let done = progress.done;
    match progress.open {
        Some(_) => Err(LogFault::Order { line: begun.line }),
        None => Ok(Progress {
            done,
            open: Some(begun),
        }),
    }
}

/// What is known after what a line says.
fn after_line(progress: Progress, line: u64, said: ClockLine) -> Result<Progress, LogFault>
    ensures { Gives spec.progress_of log_cause result
        (spec.after_line (spec.progress_of progress) line said) }
{
    match said {
        ClockLine::Gap => Ok(progress),
        ClockLine::Out { moment } => end_session(progress, line, moment),
        ClockLine::In {
            moment,
            account,
            description,
        } => begin_session(
            progress,
            Begun {
                line,
                from: moment,
                account,
                description,
            },
        ),
    }
}

/// What is known after a line.
fn after_content(
    alloc: Global,
    progress: Progress,
    line: u64,
    content: &[u8],
) -> Result<Progress, LogFault>
    ensures { Gives spec.progress_of log_cause result
        (spec.after_content (spec.progress_of progress) line content.now) }
{
    let said = line_said(alloc, line, content)?;
    after_line(progress, line, said)
}

/// The sessions at the end of a text.
fn finished(progress: Progress) -> Result<Vec<Session>, LogFault>
    ensures { Gives (λ sessions.
        sessions.items) log_cause result (spec.finished (spec.progress_of progress)) }
{
    let done = progress.done;
    match progress.open {
        None => Ok(done),
        Some(begun) => Err(LogFault::Open { line: begun.line }),
    }
}

/// The sessions of a text, each from a clock-in to the next clock-out; the first line that has a fault decides.
pub fn sessions_of(alloc: Global, text: &[u8]) -> Result<Vec<Session>, LogFault>
    ensures { Gives (λ sessions.
        sessions.items) log_cause result (sessions_in (contents_of text.now)) }
{
    let mut progress = Progress {
        done: Vec::new(alloc),
        open: None,
    };
    let mut rest = text;
    let mut line = 1;
    while !rest.is_empty() {
        let (content, after) = cut_line(rest);
        progress = after_content(alloc, progress, line, content)?;
        rest = after;
        line += 1;
    }
    finished(progress)
}
