//! The commands over a text.
ghost use Rattle.std.specs.Prelude.{◌≡◌, ◌<◌, Ok};
ghost use Rattle.hl_time.specs.Calendar.{IsDay, last_day};
ghost use Rattle.refusals.specs.Refusing.{IsOfReport};
ghost use Rattle.refusals.specs.Outcomes.{written};
ghost use Rattle.book_commands.specs.Answers.{Finds, IsQuiet, TellsWork, told_by};
ghost use Rattle.book_commands.specs.Days.{closing_day};
ghost use Rattle.book_commands.specs.Works.{IsWithin, IsWorkable, judge};

use crate::close::close_on;
use crate::explain::explain_on;
use crate::hours::hours_on;
use crate::listing::items_on;
use crate::report::report_on;
use crate::strict_checks::strict_on;
use crate::today::Today;
use book_care::Check;
use hl_base::{Bytes, List, Steps, Text};
use hl_time::{DAY_END, Day};
use query::Maker;
use refusals::Refusal;
use report_commands::Asked;
use std::alloc::Global;
use std::marker::Model;
use std::sync::ledger::Ledger;
use std::thread::Threads;

/// The forms of a time log.
#[derive(Clone, Copy, Debug, PartialEq, Eq)]
pub enum LogForm {
    /// Clock-ins and clock-outs.
    Clock,
    /// Days with quantities.
    Dot,
}

/// The day of a closing entry: one of the calendar before its last. Contracts see its number.
#[derive(Clone, Copy)]
pub struct ClosingDay {
    number: u32,
}

impl Model for ClosingDay {
    ghost use Rattle.std.specs.Prelude.{ℕ, ◌<◌};
    ghost use Rattle.hl_time.specs.Calendar.{last_day};

    ghost Value = { ℕ };

    ghost view = { λ d. d.number };

    ghost invariant = { λ d. (0 < d.number) × (d.number < last_day) };

    ghost inverse = { λ v. record { number = v } };
}

impl ClosingDay {
    /// That day, if it is before the last one.
    pub fn new(day: Day) -> Option<ClosingDay>
        requires { IsDay day.0 }
        ensures { result ≡ closing_day day }
    {
        if day.0 < DAY_END - 1 {
            Some(ClosingDay { number: day.0 })
        } else {
            None
        }
    }

    /// The day.
    pub fn day(self) -> Day
        ensures value { result.0 ≡ self }
        ensures bound { result.0 < last_day }
        ensures within { 0 < result.0 }
    {
        Day(self.number)
    }
}

/// Which of the two entries of a closing are written.
#[derive(Clone, Copy, Debug, PartialEq, Eq)]
pub enum Entries {
    /// The closing and the opening entry.
    Both,
    /// The closing entry.
    Closing,
    /// The opening entry.
    Opening,
}

/// What is closed: the accounts that the words of a query mean, on a day, into an account; and the entries that are
/// written of it.
#[derive(Drop)]
pub struct CloseAsked {
    pub entries: Entries,
    pub on: ClosingDay,
    pub into: Text,
    pub words: List<Text>,
}

/// What is asked of a text.
#[derive(Drop)]
pub enum Work {
    /// The text as it is.
    Text,
    /// A report.
    Report(Asked),
    /// The hours of a time log, as the text of a journal.
    Hours(LogForm),
    /// Checks, in this order.
    Strict(List<Check>),
    /// The entries that close accounts and open them again, or one of them.
    Close(CloseAsked),
    /// What is wrong with the text, and how it is mended.
    Explain,
    /// Its items, a line each.
    Items,
}

/// A text as it is.
fn text_on(alloc: Global, text: &[u8]) -> Result<Bytes, Refusal>
    ensures found { Finds result (Ok (written text.now)) }
    ensures kind { IsOfReport result }
    ensures quiet { IsQuiet result }
{
    Ok(Bytes::copied(alloc, text)?)
}

/// What is asked of a text, on a day: what is to be written, or why there is nothing. A text of which more is asked than
/// itself has at most 16,777,216 bytes. A journal has at most 200,000 items, and is read and loaded before anything else of it is judged. Where a report asks for
/// entries that rules make, or for a budget, the text is read once more, since its book takes the items. Threads of its own may
/// read a long journal: they are joined within the call, and the answer is that of one.
pub fn answer_text<R: Threads + Sync, M: Maker, L: Ledger>(
    rt: &R,
    alloc: Global,
    work: &Work,
    text: &[u8],
    today: Today,
    maker: &mut M,
    steps: &mut Steps<L>,
) -> Result<Bytes, Refusal>
    requires size { IsWithin work.now text.now }
    requires day { IsDay today.day.0 }
    requires valid { IsWorkable work.now }
    ensures found { Finds result (judge today.day.0 today.year work.now text.now) }
    ensures kind { IsOfReport result }
    ensures maker { TellsWork today.day.0 today.year work.now text.now
        (told_by M.Maker maker.old maker.new) result }
{
    match work {
        Work::Text => text_on(alloc, text),
        Work::Report(asked) => report_on(rt, alloc, asked, text, today, maker, steps),
        Work::Hours(form) => hours_on(alloc, *form, text),
        Work::Strict(checks) => strict_on(rt, alloc, checks.as_slice(), text, today.year, steps),
        Work::Close(asked) => close_on(rt, alloc, asked, text, today, maker, steps),
        Work::Explain => explain_on(rt, alloc, text, today.year, steps),
        Work::Items => items_on(rt, alloc, text, today.year, steps),
    }
}
