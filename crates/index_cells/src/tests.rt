//! The cells of a small book, worked out by hand.
ghost use Rattle.std.specs.Prelude.{◌≡◌, List, ◌++◌, IfOk, OnOk};
ghost use Rattle.book.specs.declared.transaction.Txn.{Txn as Entry};
ghost use Rattle.report_cells.specs.Bounds as bounds;
ghost use Rattle.report_takings.specs.Asking.{question_of};
ghost use Rattle.index_cells.specs.Books.{KeepsBook};
ghost use Rattle.index_cells.specs.Exchange.{IsExchange};
ghost use Rattle.index_cells.specs.Posted.{AreDated, IsPlain, posted_in};

use crate::posted::posted_in;
use crate::{Kept, are_dated, is_plain, keep_book, plain_cells};
use book::{Amount, Book, Mark, Mixed, Posting, Side, Txn, Written};
use hl_base::{List, Memory, Steps, Text};
use hl_num::Dec;
use hl_time::{Day, Period, Span};
use query::{RegexMaker, Types, make_query};
use report_cells::{CellRow, Cells, Reach, ReportFault, check_range};
use report_options::{Command, Options, Start};
use report_takings::Scope;
use std::alloc::Global;
use std::marker::Brand;
use std::sync::ledger::{Blank, Ledger};
use std::test::Fail;

const TODAY: Day = Day(20);

/// So many hundredths of a symbol.
fn amount(alloc: Global, symbol: &str, hundredths: i128) -> Result<Amount, Memory> {
    let symbol = Text::copied(alloc, symbol)?;
    match Dec::new(hundredths, 2) {
        Some(value) => Ok(Amount {
            symbol,
            value,
            shape: Written {
                left: false,
                spaced: true,
                mark: None,
                group: None,
                first: 3,
                rest: 3,
            },
        }),
        None => Err(Memory),
    }
}

fn posting(
    alloc: Global,
    account: &str,
    symbol: &str,
    hundredths: i128,
) -> Result<Posting, Memory> {
    let account = Text::copied(alloc, account)?;
    let mut posting = Posting::plain(alloc, 2, Side::Real, account);
    posting.amount = Some(amount(alloc, symbol, hundredths)?);
    Ok(posting)
}

/// A transaction of two postings.
fn txn(
    alloc: Global,
    day: u32,
    first: (&str, &str, i128),
    second: (&str, &str, i128),
) -> Result<Txn, Memory> {
    let mut postings = Vec::new(alloc);
    postings.push(posting(alloc, first.0, first.1, first.2)?)?;
    postings.push(posting(alloc, second.0, second.1, second.2)?)?;
    Ok(Txn {
        line: 1,
        day: Day(day),
        mark: Mark::Unmarked,
        code: Text::new(alloc),
        description: Text::new(alloc),
        comment: Text::new(alloc),
        tags: List::new(alloc),
        postings: List::from_vec(postings),
    })
}

/// Three days of two accounts. What `purse` takes in on day 10 goes out on day 11.
fn three_days(alloc: Global) -> Result<Book, Memory> {
    let mut txns = Vec::new(alloc);
    txns.push(txn(alloc, 10, ("bank", "EUR", 500), ("purse", "EUR", 300))?)?;
    txns.push(txn(alloc, 11, ("bank", "USD", 250), ("purse", "EUR", -300))?)?;
    txns.push(txn(alloc, 12, ("bank", "EUR", 400), ("bank", "USD", -100))?)?;
    Ok(Book {
        txns: List::from_vec(txns),
    })
}

/// The columns of day 11 and of day 12.
fn two_columns(alloc: Global) -> Result<List<Span>, Memory> {
    let mut columns = Vec::new(alloc);
    columns.push(Span { from: 11, end: 12 })?;
    columns.push(Span { from: 12, end: 13 })?;
    Ok(List::from_vec(columns))
}

// ---- what is answered

/// A value of two decimals in hundredths.
fn hundredths(value: Dec) -> i128 {
    match value.places {
        0 => value.mantissa.wrapping_mul(100),
        1 => value.mantissa.wrapping_mul(10),
        _ => value.mantissa,
    }
}

/// Whether a cell holds these symbols, in hundredths, and no other.
fn holds(cell: &Mixed, wanted: &[(&str, i128)]) -> bool {
    let entries = cell.entries();
    if entries.len() != wanted.len() {
        return false;
    }
    for (entry, sum) in entries.iter().zip(wanted) {
        if entry.0.as_str() != sum.0 || hundredths(entry.1) != sum.1 {
            return false;
        }
    }
    true
}

/// Whether these are two cells with these sums.
fn are_cells(cells: &[Mixed], first: &[(&str, i128)], second: &[(&str, i128)]) -> bool {
    if cells.len() != 2 {
        return false;
    }
    holds(&cells[0], first) && holds(&cells[1], second)
}

/// Whether there is a row of `bank` with two cells and one of `purse` with a cell and an empty one.
fn are_rows(
    rows: &[CellRow],
    first: &[(&str, i128)],
    second: &[(&str, i128)],
    purse: &[(&str, i128)],
) -> bool {
    if rows.len() != 2 {
        return false;
    }
    rows[0].account.as_str() == "bank"
        && are_cells(rows[0].cells.as_slice(), first, second)
        && rows[1].account.as_str() == "purse"
        && are_cells(rows[1].cells.as_slice(), purse, &[])
}

// ---- what is asked

/// Refuses transactions that are out of range, or have a day behind the calendar.
fn check_book(alloc: Global, txns: &[Txn]) -> Result<(), ReportFault>
    ensures fits { OnOk result (bounds.TurnoverFits (posted_in txns.now)) }
    ensures dated { OnOk result (AreDated txns.now) }
{
    let takings = posted_in(alloc, txns)?;
    let dated = are_dated(txns);
    if !dated {
        return Err(ReportFault::Memory);
    }
    check_range(alloc, takings.as_slice())?;
    Ok(())
}

/// What is kept of some transactions after others were put behind them.
fn kept_behind(alloc: Global, front: &[Txn], more: &[Txn], all: &[Txn]) -> Result<Kept, ReportFault>
    requires { all.now ≡ front.now ++ more.now }
    ensures { IfOk result (KeepsBook all.now) }
{
    check_book(alloc, front)?;
    check_book(alloc, all)?;
    let mut kept = keep_book(alloc, front)?;
    let changed = kept.prepare(alloc, &[], more)?;
    kept.put(changed);
    Ok(kept)
}

/// What is kept of a book after its second half was put behind the first.
fn kept_of(alloc: Global, book: &Book) -> Result<Kept, ReportFault>
    ensures { IfOk result (KeepsBook book.now.txns) }
{
    let all = book.txns.as_slice();
    let (front, more) = all.split_at(all.len() / 2);
    kept_behind(alloc, front, more, all)
}

/// Refuses what isn't plain.
fn check_plain(scope: &Scope) -> Result<(), ReportFault>
    ensures { OnOk result (IsPlain scope.now (question_of scope.now)) }
{
    let plain = is_plain(scope);
    if !plain {
        return Err(ReportFault::Memory);
    }
    Ok(())
}

/// The sums of a plain report on days 11 and 12.
fn report_sums<L: Ledger>(
    alloc: Global,
    blank: Blank,
    scope: &Scope,
    reach: Reach,
) -> Result<Cells, ReportFault>
    requires name { blank.name ≡ L.name }
    requires parts { blank.parts ≡ L.parts }
    requires three { blank.parts ≡ 3 }
{
    check_plain(scope)?;
    let kept = kept_of(alloc, scope.book)?;
    let columns = two_columns(alloc)?;
    let mut steps = Steps::<L>::start(blank);
    plain_cells(alloc, scope, &kept, columns, reach, &mut steps)
}

/// The options of a balance.
fn options(start: Start) -> Options {
    Options {
        command: Command::Balance,
        bounds: Period {
            from: None,
            end: None,
            interval: None,
        },
        unmarked: false,
        pending: false,
        cleared: false,
        real_only: false,
        empty: false,
        depth: None,
        cost: false,
        value: None,
        auto: false,
        forecast: None,
        start,
        tree: false,
        average: false,
        row_total: false,
        no_total: false,
        sort_amount: false,
        budget: false,
        explicit: false,
    }
}

/// The sums of the book on days 11 and 12.
fn sums_of<L: Ledger>(
    alloc: Global,
    blank: Blank,
    start: Start,
    reach: Reach,
) -> Result<Cells, Fail>
    requires name { blank.name ≡ L.name }
    requires parts { blank.parts ≡ L.parts }
    requires three { blank.parts ≡ 3 }
{
    let book = three_days(alloc)?;
    let query = make_query(alloc, &[], TODAY, &mut RegexMaker::new())?;
    let types = Types::new(alloc, &List::new(alloc))?;
    let options = options(start);
    let scope = Scope {
        book: &book,
        query: &query,
        types: &types,
        options: &options,
        day: TODAY,
    };
    Ok(report_sums::<L>(alloc, blank, &scope, reach)?)
}

/// Whether no name goes with some transactions, in whose place others stand.
fn names_stay(alloc: Global, all: &[Txn], gone: &[Txn], more: &[Txn]) -> Result<bool, ReportFault>
    requires { (after : List Entry)
        × (IsExchange (posted_in all.now) (posted_in gone.now) (posted_in more.now)
        (posted_in after)
        × bounds.TurnoverFits (posted_in after)) }
{
    check_book(alloc, all)?;
    let mut kept = keep_book(alloc, all)?;
    let changed = kept.prepare(alloc, gone, more)?;
    Ok(changed.names_stay)
}

/// Whether no name goes with the second half of the book: where it stands again in its own place, and where nothing does.
fn names_of_halves(alloc: Global) -> Result<(bool, bool), ReportFault> {
    let book = three_days(alloc)?;
    let all = book.txns.as_slice();
    let (front, half) = all.split_at(all.len() / 2);
    check_book(alloc, front)?;
    check_book(alloc, all)?;
    let replaced = names_stay(alloc, all, half, half)?;
    let gone = names_stay(alloc, all, half, &[])?;
    Ok((replaced, gone))
}

#[test]
fn historical_sums(rt: HostRuntime) -> Result<(), Fail> {
    let cells = sums_of::<Brand>(rt.alloc(), Blank::new(3), Start::Historical, Reach::UpTo)?;
    let first = [("EUR", 500), ("USD", 250)];
    let second = [("EUR", 900), ("USD", 150)];
    assert!(rt;
        are_rows(cells.rows.as_slice(), &first, &second, &[]),
        "rows"
    );
    assert!(rt;
        are_cells(cells.totals.as_slice(), &first, &second),
        "totals"
    );
    Ok(())
}

#[test]
fn sums_of_each_day(rt: HostRuntime) -> Result<(), Fail> {
    let cells = sums_of::<Brand>(rt.alloc(), Blank::new(3), Start::Change, Reach::Within)?;
    let second = [("EUR", 400), ("USD", -100)];
    let bank = [("USD", 250)];
    let purse = [("EUR", -300)];
    assert!(rt;
        are_rows(cells.rows.as_slice(), &bank, &second, &purse),
        "rows"
    );
    let first = [("EUR", -300), ("USD", 250)];
    assert!(rt;
        are_cells(cells.totals.as_slice(), &first, &second),
        "totals"
    );
    Ok(())
}

#[test]
fn names_that_stay(rt: HostRuntime) -> Result<(), Fail> {
    let (replaced, gone) = names_of_halves(rt.alloc())?;
    assert!(rt; replaced, "in its place");
    assert!(rt; !gone, "gone");
    Ok(())
}
