//! The entries that close accounts and open them again.
ghost use Rattle.std.specs.Prelude.{◌≡◌, ◌<◌, None, IfOk, OnOk, IfErr};
ghost use Rattle.hl_time.specs.Calendar.{last_day};
ghost use Rattle.book.specs.Bounds.{TurnoverFits};
ghost use Rattle.book.specs.Postings.{postings_of};
ghost use Rattle.book_care.specs.Asked.{asked_of};
ghost use Rattle.book_care.specs.Balances.{Settles};
ghost use Rattle.book_care.specs.Entries.{made};
ghost use Rattle.book_care.specs.Judged as judged;
ghost use Rattle.book_care.specs.Lines.{closing_lines};

use crate::context_end::context_at_end;
use crate::entries::entries_with;
use crate::faults::CloseFault;
use crate::judged::judge;
use crate::late::none_late;
use crate::lines::{Line, lines_of};
use crate::moved::sums;
use crate::named::named_accounts;
use book::{Book, Items, Txn};
use hl_base::Text;
use hl_time::Day;
use query::{Query, Types};
use std::alloc::Global;

/// What is closed: a text's items and its book, the accounts of which a query means a posting, the day of the closing
/// entry, and the account that takes the balances.
#[derive(Clone, Copy)]
pub struct Closing<'a> {
    pub items: &'a Items,
    pub book: &'a Book,
    pub query: &'a Query,
    pub types: &'a Types,
    pub on: Day,
    pub into: &'a Text,
}

/// The entry that closes accounts on a day, and the one that opens them again on the next. An account but `into` is closed
/// where the query means one of its postings. The closing entry has for each such account, in order, and each symbol in
/// which it has a balance a posting that takes the balance away; and then postings by which `into` takes them all. The
/// opening entry has the opposite amounts. Their decimals don't end with zeros, and their symbols stand as in their styles
/// in the text. There are none where no such account has a balance. The book is that of the items, and the day has a next
/// one in the calendar.
///
/// With the closing entry behind the transactions of the book each of these accounts has no balance; with both behind them
/// every account, `into` among them, has the balance that it had. That the text with both entries loads isn't said here.
///
/// It refuses, in this order: a posting after the day, the first by place; the first account that doesn't read back, at
/// the end of the text, as the account of a real posting without a mark; the account of the first amount without a symbol,
/// where the text ends with a default commodity; and the first amount with more than 18 decimals.
pub fn close_entries(alloc: Global, closing: &Closing) -> Result<Option<(Txn, Txn)>, CloseFault>
    requires fits { TurnoverFits (postings_of closing.now.book.now.txns) }
    requires day { closing.now.on.0 < last_day }
    ensures entries { IfOk result (λ entries. entries ≡ made (asked_of closing.now)) }
    ensures settles { IfOk result (Settles (asked_of closing.now)) }
    ensures passes { OnOk result (judged.first_cause (asked_of closing.now) ≡ None) }
    ensures fault { IfErr result (judged.IsFault (judged.first_cause (asked_of closing.now))) }
{
    none_late(closing.book.txns.as_slice(), closing.on)?;
    let names = named_accounts(alloc, closing)?;
    let cells = sums(alloc, closing, &names)?;
    let lines = lines_of(alloc, &cells, closing.into)?;
    judged_entries(alloc, closing, &lines)
}

/// The entries of these lines, where they can be written at the end of the text; else the first reason against it.
fn judged_entries(
    alloc: Global,
    closing: &Closing,
    lines: &[Line],
) -> Result<Option<(Txn, Txn)>, CloseFault>
    requires lines { lines.now ≡ closing_lines (asked_of closing.now) }
    requires day { closing.now.on.0 < last_day }
    ensures entries { IfOk result (λ entries. entries ≡ made (asked_of closing.now)) }
    ensures passes { OnOk result (judged.closing_fault (asked_of closing.now) ≡ None) }
    ensures fault { IfErr result (judged.IsFault (judged.closing_fault (asked_of closing.now))) }
{
    let context = context_at_end(alloc, closing.items)?;
    judge(alloc, closing.items, &context, lines)?;
    Ok(entries_with(alloc, closing.items.as_slice(), closing.on, lines)?)
}
