//! The accounts of the postings that a query means.
ghost use Rattle.std.specs.Prelude.{◌≡◌, ◌++◌, ◌∷◌, [], None, map, IfOk, OnOk};
ghost use Rattle.std.specs.List.{flat_map};
ghost use Rattle.hl_base.specs.Ascii.{line_feed};
ghost use Rattle.report_cells.specs.Bounds.{first_out};
ghost use Rattle.report_cells.specs.Follows.{Follow};
ghost use Rattle.report_cells.specs.Report.{accounts_in};
ghost use Rattle.report_cells.specs.declared.fault.ReportFault.TheVariants as report_fault;
ghost use Rattle.report_takings.specs.Asking.{question_of};
ghost use Rattle.report_takings.specs.Spans.{span_of};
ghost use Rattle.journal_listings.specs.Listed.{account_lines};
ghost use Rattle.journal_listings.specs.Listed as spec;

use hl_base::{Bytes, List, Memory};
use hl_time::{Period, Span};
use report_cells::{CellRow, Reach, ReportFault, Taking, make_cells};
use report_options::{Command, Options, Start};
use report_takings::{Scope, columns_of, take};
use std::alloc::Global;

/// The accounts of the postings that the query means on the days of the report's span, each cut to the query's depth, a
/// line for each, in the order of accounts, each once. Of the options the bounds alone are asked. Fails only for want of
/// memory.
#[tactic(auto, using(crate::proofs::Spanned::same_text))]
pub fn accounts_report(alloc: Global, scope: &Scope) -> Result<Bytes, Memory>
    ensures { IfOk result (λ text. text ≡ spec.accounts_text (question_of scope.now)) }
{
    let options = bounds_alone(scope.options.bounds);
    let bounded = Scope {
        book: scope.book,
        query: scope.query,
        types: scope.types,
        options: &options,
        day: scope.day,
    };
    let columns = one_column(alloc, &bounded)?;
    list_accounts(alloc, &bounded, columns)
}

/// Options that say some bounds and nothing else.
fn bounds_alone(bounds: Period) -> Options
    ensures alone { spec.AreBounds result }
    ensures from { result.bounds.from ≡ bounds.from }
    ensures end { result.bounds.end ≡ bounds.end }
{
    Options {
        command: Command::Accounts,
        bounds: Period {
            from: bounds.from,
            end: bounds.end,
            interval: None,
        },
        unmarked: false,
        pending: false,
        cleared: false,
        real_only: false,
        empty: false,
        depth: None,
        cost: false,
        value: None,
        auto: false,
        forecast: None,
        start: Start::Change,
        tree: false,
        average: false,
        row_total: false,
        no_total: false,
        sort_amount: false,
        budget: false,
        explicit: false,
    }
}

/// The want of memory that a fault is.
fn want_in(fault: ReportFault) -> Memory
    requires { fault ≡ report_fault.Memory }
{
    Memory
}

/// A report's span, as its one column.
#[tactic(auto, using(crate::proofs::Spanned::no_interval, crate::proofs::Spanned::one_span, crate::proofs::Spanned::never_wide))]
fn one_column(alloc: Global, scope: &Scope) -> Result<List<Span>, Memory>
    requires { spec.AreBounds scope.now.options.now }
    ensures span { IfOk result (λ columns. columns ≡ span_of (question_of scope.now) ∷ []) }
    ensures follow { IfOk result Follow }
{
    match columns_of(alloc, scope) {
        Ok(columns) => Ok(columns),
        Err(fault) => Err(want_in(fault)),
    }
}

/// What is taken of the postings on the days of a report's span.
#[tactic(auto, using(crate::proofs::Shown::shown_are, crate::proofs::Shown::never_out))]
fn taken<'a>(alloc: Global, scope: &Scope<'a>, columns: &[Span]) -> Result<Vec<Taking<'a>>, Memory>
    requires alone { spec.AreBounds scope.now.options.now }
    requires span { columns.now ≡ span_of (question_of scope.now) ∷ [] }
    ensures { IfOk result
        (λ takings. spec.named takings.items ≡ spec.accounts_shown (question_of scope.now)) }
{
    match take(alloc, scope, columns) {
        Ok(takings) => Ok(takings),
        Err(fault) => Err(want_in(fault)),
    }
}

/// Some takings without their amounts.
fn without_amounts<'a>(alloc: Global, takings: &[Taking<'a>]) -> Result<Vec<Taking<'a>>, Memory>
    ensures { IfOk result (λ bare. bare.items ≡ map spec.without_amount takings.now) }
{
    let mut bare = Vec::with_capacity(alloc, takings.len())?;
    for taking in takings {
        bare.push(Taking {
            account: taking.account,
            day: taking.day,
            amount: None,
        })?;
    }
    Ok(bare)
}

/// The accounts of the postings on the days of a report's span.
#[tactic(auto, using(crate::proofs::Shown::bare_out, crate::proofs::Shown::listed_are))]
fn list_accounts(alloc: Global, scope: &Scope, columns: List<Span>) -> Result<Bytes, Memory>
    requires alone { spec.AreBounds scope.now.options.now }
    requires span { columns ≡ span_of (question_of scope.now) ∷ [] }
    requires follow { Follow columns }
    ensures { IfOk result (λ text. text ≡ spec.accounts_text (question_of scope.now)) }
{
    let takings = taken(alloc, scope, columns.as_slice())?;
    let bare = without_amounts(alloc, &takings)?;
    account_list(alloc, &bare, columns)
}

/// The accounts of some takings that have no amounts, a line for each.
#[tactic(auto, using(crate::proofs::Shown::lines_are, crate::proofs::Shown::never_ranged))]
fn account_list(alloc: Global, takings: &[Taking], columns: List<Span>) -> Result<Bytes, Memory>
    requires follow { Follow columns }
    requires bare { first_out takings.now ≡ None }
    ensures { IfOk result (λ text. text ≡ account_lines (accounts_in takings.now)) }
{
    match make_cells(alloc, takings, columns, Reach::Within) {
        Ok(cells) => row_accounts(alloc, cells.rows.as_slice()),
        Err(fault) => Err(want_in(fault)),
    }
}

/// The line of each row's account.
fn row_accounts(alloc: Global, rows: &[CellRow]) -> Result<Bytes, Memory>
    ensures { IfOk result (λ text.
        text ≡ flat_map (λ row. row.account ++ line_feed ∷ []) rows.now) }
{
    let mut out = Vec::new(alloc);
    for row in rows {
        push_account(&mut out, row.account.as_bytes())?;
    }
    Ok(Bytes::from_vec(out))
}

/// Appends the line of an account.
fn push_account(out: &mut Vec<u8>, account: &[u8]) -> Result<(), Memory>
    ensures { OnOk result (out.new.items ≡ out.old.items ++ (account.now ++ line_feed ∷ [])) }
{
    out.extend_from_slice(account)?;
    out.push(b'\n')?;
    Ok(())
}
