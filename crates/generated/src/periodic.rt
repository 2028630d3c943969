//! The books of forecasts and of goals.
ghost use Rattle.std.specs.Prelude.{◌≡◌, ◌≤◌, ◌++◌, IfOk};
ghost use Rattle.hl_base.specs.Gives.{Gives};
ghost use Rattle.hl_time.specs.Calendar.{day_end};
ghost use Rattle.book.specs.Postings.{txns_of};
ghost use Rattle.generated.specs.Judged as judging;
ghost use Rattle.generated.specs.Periodic as spec;
ghost use Rattle.generated.specs.Refusals.{cause_of};
ghost use Rattle.rule_entries.specs.Making.{made_by_day};

use crate::fault::{GenFault, too_many};
use crate::judging::{judged, place_all};
use book::{Book, Items, Placed, Txn, copied_txns};
use hl_base::Memory;
use hl_time::Span;
use rule_entries::{excess_in, made_txns};
use std::alloc::Global;

/// Some transactions, and behind them those that the periodic rules make within a window.
fn forecast_items(
    alloc: Global,
    items: &Items,
    txns: &[Txn],
    window: Span,
) -> Result<Vec<Placed>, Memory>
    requires first { 1 ≤ window.from }
    requires last { window.end ≤ day_end }
    ensures { IfOk result (λ placed. txns_of placed.items
        ≡ txns.now ++ made_by_day window items.now) }
{
    let mut placed = Vec::new(alloc);
    let copies = copied_txns(alloc, txns)?;
    place_all(&mut placed, copies)?;
    let made = made_txns(alloc, items, window)?;
    place_all(&mut placed, made)?;
    Ok(placed)
}

/// The transactions that the periodic rules make within a span.
fn goal_items(alloc: Global, items: &Items, span: Span) -> Result<Vec<Placed>, Memory>
    requires first { 1 ≤ span.from }
    requires last { span.end ≤ day_end }
    ensures { IfOk result (λ placed. txns_of placed.items ≡ made_by_day span items.now) }
{
    let mut placed = Vec::new(alloc);
    let made = made_txns(alloc, items, span)?;
    place_all(&mut placed, made)?;
    Ok(placed)
}

/// The book of some transactions, and behind them those that the periodic rules make within a window.
fn judged_with(alloc: Global, items: &Items, txns: &[Txn], window: Span) -> Result<Book, GenFault>
    requires first { 1 ≤ window.from }
    requires last { window.end ≤ day_end }
    ensures { Gives (λ book. book) cause_of result
        (judging.told_book (judging.judged (txns.now ++ made_by_day window items.now))) }
{
    match forecast_items(alloc, items, txns, window) {
        Ok(placed) => judged(alloc, placed),
        Err(Memory) => Err(GenFault::Memory),
    }
}

/// The book of the transactions that the periodic rules make within a span.
fn judged_alone(alloc: Global, items: &Items, span: Span) -> Result<Book, GenFault>
    requires first { 1 ≤ span.from }
    requires last { span.end ≤ day_end }
    ensures { Gives (λ book. book) cause_of result
        (judging.told_book (judging.judged (made_by_day span items.now))) }
{
    match goal_items(alloc, items, span) {
        Ok(placed) => judged(alloc, placed),
        Err(Memory) => Err(GenFault::Memory),
    }
}

/// A text's book with the transactions that its periodic rules make within a window, which stand behind those of the text,
/// by day and on one day in the order of the rules. They are judged with the others as a text's transactions are, and take
/// their missing amounts; the line of one is its rule's. `TooMany` comes first, where more than 100,000 transactions would be
/// made, or else more than 1,000,000 postings; then `Journal`, with the fault of the first group that has one. The window's
/// days are those of the calendar.
pub fn forecast(alloc: Global, items: &Items, book: &Book, window: Span) -> Result<Book, GenFault>
    requires first { 1 ≤ window.from }
    requires last { window.end ≤ day_end }
    ensures { Gives (λ book. book) cause_of result
        (spec.forecast_of items.now book.now.txns window) }
{
    match excess_in(items, window) {
        Some(excess) => Err(too_many(excess)),
        None => judged_with(alloc, items, book.txns.as_slice(), window),
    }
}

/// The transactions that a text's periodic rules make within a span, in a book of their own, whose postings are the goals of
/// a budget. They are judged, and refused, as a forecast is; automated rules add nothing to them.
pub fn goals(alloc: Global, items: &Items, span: Span) -> Result<Book, GenFault>
    requires first { 1 ≤ span.from }
    requires last { span.end ≤ day_end }
    ensures { Gives (λ book. book) cause_of result (spec.goals_of items.now span) }
{
    match excess_in(items, span) {
        Some(excess) => Err(too_many(excess)),
        None => judged_alone(alloc, items, span),
    }
}
