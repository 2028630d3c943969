//! What a register takes of the postings of its book.
ghost use Rattle.std.specs.Prelude.{◌≡◌, ◌++◌, None, map, filter, IfOk, IfErr, OnOk};
ghost use Rattle.report_takings.specs.Asking.{question_of};
ghost use Rattle.report_takings.specs.Takings.{out_among, taken};
ghost use Rattle.report_takings.specs.declared.entries.Part.TheVariants.{Counted};
ghost use Rattle.register_report.specs.Selected as spec;

use crate::head::Head;
use hl_base::Memory;
use hl_time::Span;
use report_cells::{ReportFault, Taking};
use report_options::Start;
use report_takings::{Entry, Scope, chosen_entries, take_entries};
use std::alloc::Global;

/// What a register takes: for historical sums what comes before the first day of its span, and then what it shows, with
/// the heads of these last ones.
#[derive(Drop)]
pub struct Register<'a> {
    pub takings: Vec<Taking<'a>>,
    pub heads: Vec<Head<'a>>,
}

/// What a register takes of its postings. It shows those on the days of the span that the query means, by day, and on
/// one day in the order of the book. Before them stand for historical sums all before the span that the query means
/// whatever their days. Each has its account cut to the query's depth, its day, and its amount, or with `-B` or
/// `--value=cost` what that costs. `Range` comes exactly where a product is out of range, and tells the least symbol of
/// such an amount.
pub fn register_takings<'a>(
    alloc: Global,
    scope: &Scope<'a>,
    span: Span,
) -> Result<Register<'a>, ReportFault>
    ensures takings { IfOk result (λ r. r.takings.items
        ≡ map (taken Counted (question_of scope.now)) (spec.all_in (question_of scope.now) span)) }
    ensures heads { IfOk result (λ r.
        r.heads.items ≡ map spec.head_of (spec.shown_in (question_of scope.now) span)) }
    ensures within { OnOk result
        (out_among scope.now.options.now (spec.all_in (question_of scope.now) span) ≡ None) }
    ensures fault { IfErr result (spec.IsOut (question_of scope.now) span) }
{
    let mut shown = shown_in(alloc, scope, span)?;
    let heads = heads_of(alloc, &shown)?;
    let mut all = earlier_in(alloc, scope, span)?;
    append(&mut all, &mut shown)?;
    let takings = take_entries(alloc, scope, &all)?;
    Ok(Register { takings, heads })
}

/// Puts postings behind others.
fn append<'a>(all: &mut Vec<Entry<'a>>, more: &mut Vec<Entry<'a>>) -> Result<(), Memory>
    ensures { OnOk result (all.new.items ≡ all.old.items ++ more.old.items) }
{
    all.append(more)?;
    Ok(())
}

/// The postings that come before the first day of a span, where sums begin before all days.
fn earlier_in<'a>(alloc: Global, scope: &Scope<'a>, span: Span) -> Result<Vec<Entry<'a>>, Memory>
    ensures { IfOk result (λ earlier.
        earlier.items ≡ spec.earlier_in (question_of scope.now) span) }
{
    match scope.options.start {
        Start::Historical => {
            let before = Span {
                from: 0,
                end: span.from,
            };
            chosen_entries(alloc, scope, Start::Historical, before)
        }
        Start::Change | Start::Cumulative => Ok(Vec::new(alloc)),
    }
}

/// The postings that a register shows, by day.
fn shown_in<'a>(alloc: Global, scope: &Scope<'a>, span: Span) -> Result<Vec<Entry<'a>>, Memory>
    ensures { IfOk result (λ shown. shown.items ≡ spec.shown_in (question_of scope.now) span) }
{
    let mut shown = chosen_entries(alloc, scope, Start::Change, span)?;
    sort_by_day(&mut shown)?;
    Ok(shown)
}

/// Sorts postings by day; those of one day stay in their order.
fn sort_by_day(entries: &mut Vec<Entry>) -> Result<(), Memory>
    ensures { OnOk result (entries.new.items ≡ spec.by_day entries.old.items) }
{
    entries.sort_by_key(|entry| entry.day().0)?;
    Ok(())
}

/// What a register shows of a posting's transaction.
fn head_of<'a>(entry: &Entry<'a>) -> Head<'a>
    ensures { result ≡ spec.head_of entry.now }
{
    let txn = entry.txn();
    Head {
        line: txn.line,
        description: &txn.description,
    }
}

/// The same of some postings.
fn heads_of<'a>(alloc: Global, entries: &[Entry<'a>]) -> Result<Vec<Head<'a>>, Memory>
    ensures { IfOk result (λ heads. heads.items ≡ map spec.head_of entries.now) }
{
    let mut heads = Vec::with_capacity(alloc, entries.len())?;
    for entry in entries {
        heads.push(head_of(entry))?;
    }
    Ok(heads)
}
