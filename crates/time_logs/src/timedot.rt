//! Timedot texts.
ghost use Rattle.std.specs.Prelude.{◌≡◌, ◌++◌, ◌∷◌, [], Some, IfOk};
ghost use Rattle.hl_base.specs.Gives.{Gives};
ghost use Rattle.entry_reader.specs.Lines.{contents_of};
ghost use Rattle.time_logs.specs.Faults.{log_cause};
ghost use Rattle.time_logs.specs.DotSteps as spec;
ghost use Rattle.time_logs.specs.Timedot.{timedot};

use crate::amounts::{hours_entry, hours_posting};
use crate::dot_line::{DotLine, dot_line};
use crate::faults::{ENTRY_LIMIT, LogFault};
use book::{Posting, Txn};
use entry_reader::scan::{cut_line, is_utf8};
use hl_base::{List, Memory, Text};
use hl_num::Dec;
use hl_time::Day;
use std::alloc::Global;

/// A day that is being read: its line, its day, its description, and its postings so far.
#[derive(Drop)]
pub struct Head {
    pub line: u64,
    pub day: Day,
    pub description: Text,
    pub postings: Vec<Posting>,
}

/// The transactions of the days before, and the day that is being read.
#[derive(Drop)]
pub struct Dots {
    pub done: Vec<Txn>,
    pub head: Option<Head>,
}

/// What a line says, or the fault of one that is of no form.
#[tactic(auto, unfolding(crate::specs::Timedot::line_says))]
fn line_said(alloc: Global, begun: bool, line: u64, content: &[u8]) -> Result<DotLine, LogFault>
    ensures { Gives (λ said. said) log_cause result (spec.line_said begun line content.now) }
{
    if !is_utf8(content) {
        return Err(LogFault::BadLine { line });
    }
    match dot_line(alloc, begun, content)? {
        Some(said) => Ok(said),
        None => Err(LogFault::BadLine { line }),
    }
}

/// The transaction of a day.
fn head_entry(alloc: Global, head: Head) -> Txn
    ensures { result ≡ spec.head_entry (spec.head_of head) }
{
    hours_entry(
        alloc,
        head.line,
        head.day,
        head.description,
        List::from_vec(head.postings),
    )
}

/// The transactions with that of the day that is being read.
fn settled(alloc: Global, dots: Dots) -> Result<Vec<Txn>, Memory>
    ensures { IfOk result (λ txns. txns.items ≡ spec.settled (spec.dots_of dots)) }
{
    let mut done = dots.done;
    match dots.head {
        None => Ok(done),
        Some(head) => {
            done.push(head_entry(alloc, head))?;
            Ok(done)
        }
    }
}

/// A day begins.
fn with_head(
    alloc: Global,
    dots: Dots,
    line: u64,
    day: Day,
    description: Text,
) -> Result<Dots, Memory>
    ensures { IfOk result (λ more.
        spec.dots_of more ≡ spec.with_head (spec.dots_of dots) line day description) }
{
    let done = settled(alloc, dots)?;
    Ok(Dots {
        done,
        head: Some(Head {
            line,
            day,
            description,
            postings: Vec::new(alloc),
        }),
    })
}

/// A day with a posting more.
fn head_with(head: Head, posting: Posting) -> Result<Head, Memory>
    ensures { IfOk result (λ more.
        Some (spec.head_of more) ≡ spec.head_with (Some (spec.head_of head)) posting) }
{
    let mut postings = head.postings;
    postings.push(posting)?;
    Ok(Head {
        line: head.line,
        day: head.day,
        description: head.description,
        postings,
    })
}

/// Hours of the day that is being read.
fn with_hours(
    alloc: Global,
    dots: Dots,
    line: u64,
    account: Text,
    hours: Dec,
) -> Result<Dots, Memory>
    ensures { IfOk result (λ more.
        spec.dots_of more ≡ spec.with_hours (spec.dots_of dots) line account hours) }
{
    let posting = hours_posting(alloc, line, account, hours)?;
    let done = dots.done;
    match dots.head {
        None => Ok(Dots { done, head: None }),
        Some(head) => Ok(Dots {
            done,
            head: Some(head_with(head, posting)?),
        }),
    }
}

/// What is known after a line.
fn after_line(alloc: Global, dots: Dots, line: u64, said: DotLine) -> Result<Dots, Memory>
    ensures { IfOk result (λ more.
        spec.dots_of more ≡ spec.after_line (spec.dots_of dots) line said) }
{
    match said {
        DotLine::Gap => Ok(dots),
        DotLine::Head { day, description } => with_head(alloc, dots, line, day, description),
        DotLine::Spent { account, hours } => with_hours(alloc, dots, line, account, hours),
    }
}

/// Whether a day is being read.
fn has_head(dots: &Dots) -> bool
    ensures { result ≡ spec.has_head (spec.dots_of dots.now).head }
{
    match dots.head {
        None => false,
        Some(_) => true,
    }
}

/// What is known after a line.
fn after_content(alloc: Global, dots: Dots, line: u64, content: &[u8]) -> Result<Dots, LogFault>
    ensures { Gives spec.dots_of log_cause result
        (spec.after_content (spec.dots_of dots) line content.now) }
{
    let said = line_said(alloc, has_head(&dots), line, content)?;
    Ok(after_line(alloc, dots, line, said)?)
}

/// The transactions of all days, where they aren't too many.
fn finished(alloc: Global, dots: Dots) -> Result<List<Txn>, LogFault>
    ensures { Gives (λ txns. txns) log_cause result (spec.finished (spec.dots_of dots)) }
{
    let txns = settled(alloc, dots)?;
    let count = txns.len() as u64;
    if count > ENTRY_LIMIT {
        return Err(LogFault::TooMany {
            count,
            limit: ENTRY_LIMIT,
        });
    }
    Ok(List::from_vec(txns))
}

/// The transactions of a timedot text, in its order: one for each line of a day, with a posting for each line of a
/// quantity below it. The first line that has a fault decides; else more than 100,000 transactions.
pub fn read_timedot(alloc: Global, text: &[u8]) -> Result<List<Txn>, LogFault>
    ensures { Gives (λ txns. txns) log_cause result (timedot (contents_of text.now)) }
{
    let mut dots = Dots {
        done: Vec::new(alloc),
        head: None,
    };
    let mut rest = text;
    let mut line = 1;
    while !rest.is_empty() {
        let (content, after) = cut_line(rest);
        dots = after_content(alloc, dots, line, content)?;
        rest = after;
        line += 1;
    }
    finished(alloc, dots)
}
