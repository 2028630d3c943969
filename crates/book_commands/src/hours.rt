//! The hours of a time log.
ghost use Rattle.std.specs.Prelude.{◌≡◌, Ok, IfOk};
ghost use Rattle.hl_base.specs.Gives.{Gives};
ghost use Rattle.entry_reader.specs.Lines.{contents_of};
ghost use Rattle.time_logs.specs.Faults.{log_cause};
ghost use Rattle.refusals.specs.Refusing.{IsOfReport};
ghost use Rattle.book_commands.specs.Answers.{Finds, IsQuiet};
ghost use Rattle.book_commands.specs.Works as spec;

use crate::entries::entries_text;
use crate::fault_lines::refuse_log;
use crate::work::LogForm;
use book::Txn;
use entry_reader::Context;
use hl_base::{Bytes, List, Memory};
use refusals::Refusal;
use std::alloc::Global;
use time_logs::{LogFault, read_timeclock, read_timedot};

/// The transactions of a log.
fn read_log(alloc: Global, form: LogForm, text: &[u8]) -> Result<List<Txn>, LogFault>
    ensures { Gives (λ txns. txns) log_cause result (spec.log_txns form (contents_of text.now)) }
{
    match form {
        LogForm::Clock => read_timeclock(alloc, text),
        LogForm::Dot => read_timedot(alloc, text),
    }
}

/// Transactions as the text of a journal without directives.
fn hours_text(alloc: Global, txns: &[Txn]) -> Result<Bytes, Memory>
    ensures { IfOk result (λ text. text ≡ spec.entries_text spec.plain_context txns.now) }
{
    let context = Context::start(alloc, None)?;
    entries_text(alloc, &context, txns)
}

/// The transactions of a log in its order, as the text of a journal.
pub(crate) fn hours_on(alloc: Global, form: LogForm, text: &[u8]) -> Result<Bytes, Refusal>
    ensures found { Finds result (Ok (spec.hours_made form text.now)) }
    ensures kind { IsOfReport result }
    ensures quiet { IsQuiet result }
{
    match read_log(alloc, form, text) {
        Ok(txns) => Ok(hours_text(alloc, txns.as_slice())?),
        Err(fault) => Err(refuse_log(alloc, fault)),
    }
}
