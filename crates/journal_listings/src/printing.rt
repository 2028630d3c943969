//! The transactions that a query means, as they are printed.
ghost use Rattle.std.specs.Prelude.{◌≡◌, map, IfOk};
ghost use Rattle.query.specs.Matching.{is_from, is_before, lies_in};
ghost use Rattle.report_takings.specs.Asking.{Serves, question_of};
ghost use Rattle.journal_printer.specs.Journal.{styled};
ghost use Rattle.journal_listings.specs.Printed as spec;

use book::{Styles, Txn};
use hl_base::{Bytes, Memory};
use hl_time::Period;
use journal_printer::{Detail, print_chosen};
use query::{Search, earlier, later};
use report_options::Options;
use report_takings::Scope;
use std::alloc::Global;

/// The transactions that the query means and whose own day lies in the bounds that are given, by day and then by number,
/// each as `print_txn` gives it and with an empty line after it; with `-x` all amounts and costs that balancing found are
/// shown. A missing bound narrows nothing (docs/DECISIONS.md). Fails only for want of memory.
pub fn print_report(alloc: Global, scope: &Scope, styles: &Styles) -> Result<Bytes, Memory>
    ensures { IfOk result (λ text.
        text ≡ spec.print_text (question_of scope.now) (styled styles.now)) }
{
    let chosen = chosen_of(alloc, scope)?;
    print_chosen(
        alloc,
        scope.book,
        chosen.as_slice(),
        styles,
        detail_of(scope.options),
    )
}

/// How much is shown of what balancing found.
fn detail_of(options: &Options) -> Detail
    ensures { result ≡ spec.detail_of options.now }
{
    if options.explicit {
        Detail::Explicit
    } else {
        Detail::Written
    }
}

/// Whether a day isn't before a beginning, if there is one.
fn is_from(from: Option<u32>, day: u32) -> bool
    ensures { result ≡ is_from from day }
{
    match from {
        None => true,
        Some(from) => from <= day,
    }
}

/// Whether a day is before an end, if there is one.
fn is_before(end: Option<u32>, day: u32) -> bool
    ensures { result ≡ is_before end day }
{
    match end {
        None => true,
        Some(end) => day < end,
    }
}

/// Whether a day lies in some bounds, of which a missing one narrows nothing.
fn lies_in(bounds: Period, day: u32) -> bool
    ensures { result ≡ lies_in bounds day }
{
    is_from(bounds.from, day) && is_before(bounds.end, day)
}

/// The bounds that are given: of the options, narrowed by the terms of days outside `not:`.
fn given(scope: &Scope) -> Period
    ensures { result ≡ spec.given (question_of scope.now) }
{
    let dates = scope.query.dates();
    Period {
        from: later(scope.options.bounds.from, dates.from),
        end: earlier(scope.options.bounds.end, dates.end),
        interval: None,
    }
}

/// Whether a transaction is printed.
fn is_printed(search: &mut Search, scope: &Scope, bounds: Period, txn: &Txn) -> bool
    requires serves { Serves search.old scope.now.query.now }
    requires bounds { bounds ≡ spec.given (question_of scope.now) }
    ensures printed { result ≡ spec.is_printed (question_of scope.now) txn.now }
    ensures serves { Serves search.new scope.now.query.now }
{
    if lies_in(bounds, txn.day.0) {
        search.txn(txn, scope.types)
    } else {
        false
    }
}

/// Which transactions are printed, an item for each.
fn chosen_of(alloc: Global, scope: &Scope) -> Result<Vec<bool>, Memory>
    ensures { IfOk result
        (λ chosen. chosen.items
        ≡ map (spec.is_printed (question_of scope.now)) scope.now.book.now.txns) }
{
    let bounds = given(scope);
    let mut search = scope.query.search(alloc)?;
    let mut chosen = Vec::with_capacity(alloc, scope.book.txns.len())?;
    for txn in scope.book.txns.as_slice() {
        chosen.push(is_printed(&mut search, scope, bounds, txn))?;
    }
    Ok(chosen)
}
