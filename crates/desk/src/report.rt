//! The reports of a journal.
ghost use Rattle.hl_time.specs.Calendar.{IsDay};
ghost use Rattle.std.specs.Prelude.{◌≡◌};
ghost use Rattle.desk.specs.Reading.{AsksReport};
ghost use Rattle.desk.specs.Reports.{Reports};
ghost use Rattle.desk.specs.States as state;

use crate::reply::Reply;
use generated::GenFault;
use hl_base::{Bytes, Steps, Text};
use hl_time::Day;
use kept_reports::{is_from_kept, report};
use live_journal::Live;
use plan_commands::{PlanFault, read_report};
use query::Maker;
use report_commands::{Loaded, WordsFault};
use std::alloc::Global;
use std::sync::ledger::Ledger;

/// The output of a report over a journal's text, on a day, by the patterns that a maker builds: the first word is the
/// command, and those after it are its options and its query. Of several causes why there is none the first in the
/// order of `PlanFault` is told: what is wrong with the words, then why the rules of the text make no book, and then what is
/// wrong with the report.
/// Nothing is read or checked. A plain balance comes from the sums that the journal keeps, if it keeps them: at most 44 nodes are
/// asked for each account and symbol of its book and each column; for any other report none.
pub fn report_text<M: Maker, L: Ledger>(
    alloc: Global,
    live: &Live,
    words: &[Text],
    day: Day,
    maker: &mut M,
    steps: &mut Steps<L>,
) -> Result<Bytes, PlanFault>
    requires { IsDay day.0 }
    ensures value { Reports day.0 live.now.year live.now.text words.now
        (M.refusals maker.old) (M.refusals maker.new)
        (M.last_refused maker.old) (M.last_refused maker.new) result }
    ensures steps { AsksReport day.0 live.now.year live.now.text words.now steps.old steps.new }
{
    let asked = match read_report(alloc, words, day) {
        Ok(asked) => asked,
        Err(fault) => return Err(PlanFault::from(fault)),
    };
    let loaded = Loaded {
        items: live.items(),
        book: live.book(),
        styles: live.styles(),
        day,
    };
    report(alloc, &asked, &loaded, live.sums(), maker, steps)
}

/// Whether the words of a report ask for a plain balance.
pub(crate) fn asks_sums(alloc: Global, words: &[Text], day: Day) -> bool
    requires { IsDay day.0 }
{
    match read_report(alloc, words, day) {
        Ok(asked) => is_from_kept(&asked),
        Err(_) => false,
    }
}

/// The reply to a report whose words aren't one.
fn words_reply(fault: WordsFault) -> Reply
    ensures { result ≡ state.words_reply fault }
{
    match fault {
        WordsFault::Memory => Reply::Memory,
        fault => Reply::Words(PlanFault::Words(fault)),
    }
}

/// The reply to a report whose rules make no book.
fn generated_reply(fault: GenFault) -> Reply
    ensures { result ≡ state.generated_reply fault }
{
    match fault {
        GenFault::Memory => Reply::Memory,
        fault => Reply::Words(PlanFault::Generated(fault)),
    }
}

/// The reply to a report that isn't made.
fn plan_reply(fault: PlanFault) -> Reply
    ensures { result ≡ state.plan_reply fault }
{
    match fault {
        PlanFault::Words(fault) => words_reply(fault),
        PlanFault::Generated(fault) => generated_reply(fault),
        PlanFault::Memory => Reply::Memory,
    }
}

/// The reply to a report that came out so, at a revision.
pub(crate) fn report_reply(revision: u64, made: Result<Bytes, PlanFault>) -> Reply
    ensures { result ≡ state.made_reply revision made }
{
    match made {
        Ok(bytes) => Reply::Text { revision, bytes },
        Err(fault) => plan_reply(fault),
    }
}
