//! The report that is asked for over a book of which sums may be kept.
ghost use Rattle.std.specs.Prelude.{◌≡◌, ℕ, List, [], true, IfSome};
ghost use Rattle.book.specs.Style.{style_of};
ghost use Rattle.book.specs.Styles.{style_in};
ghost use Rattle.book.specs.declared.item.Placed.{Placed};
ghost use Rattle.hl_base.specs.Gives.{Gives};
ghost use Rattle.hl_time.specs.Calendar.{IsDay};
ghost use Rattle.index_cells.specs.Asks.{AsksFor, nodes_shown};
ghost use Rattle.index_cells.specs.Books.{KeepsBook};
ghost use Rattle.query.specs.Made.{IsQueryOf};
ghost use Rattle.plan_commands.specs.Telling.{Answers};
ghost use Rattle.report_commands.specs.Commands.{words_cause};
ghost use Rattle.report_commands.specs.Reports as plain;
ghost use Rattle.report_options.specs.Options.{IsValid};
ghost use Rattle.kept_reports.specs.Nodes.{Asks, AsksWhere, bare_columns};
ghost use Rattle.kept_reports.specs.Served.{IsServed, is_from_kept};

use crate::balance::kept_balance;
use crate::plain::is_from_kept;
use book::Styles;
use hl_base::{Bytes, List, Steps};
use index_cells::Kept;
use plan_commands::PlanFault;
use query::{Maker, Query, Types, make_query};
use report_commands::{Asked, Loaded, WordsFault};
use report_takings::Scope;
use std::alloc::Global;
use std::sync::ledger::Ledger;

/// What is asked over the items of a text and their book, as `report` of `plan_commands` answers it, where sums of the book
/// may be kept: a balance without words of a query, of amounts as they are written, of the accounts that have sums, and
/// without entries that rules make, is then answered from these. Nothing is read or checked. For such a balance at most 44
/// nodes are asked for each account and symbol of the book and each column; for any other report none.
pub fn report<M: Maker, L: Ledger>(
    alloc: Global,
    asked: &Asked,
    loaded: &Loaded,
    kept: Option<&Kept>,
    maker: &mut M,
    steps: &mut Steps<L>,
) -> Result<Bytes, PlanFault>
    requires day { IsDay loaded.now.day.0 }
    requires valid { IsValid asked.now.options }
    requires styles { (symbol : List ℕ)
        → style_in loaded.now.styles.now symbol ≡ style_of loaded.now.items.now symbol }
    requires keeps { IfSome kept (λ kept. KeepsBook loaded.now.book.now.txns kept.now) }
    ensures answers { Answers asked.now loaded.now.day.0 loaded.now.items.now loaded.now.book.now
        (M.refusals maker.old) (M.refusals maker.new) (M.last_refused maker.old)
        (M.last_refused maker.new) result }
    ensures asked { Asks asked.now loaded.now.day.0 loaded.now.items.now loaded.now.book.now
        steps.old steps.new }
{
    match kept {
        Some(kept) => with_kept(alloc, asked, loaded, kept, maker, steps),
        None => plan_commands::report(alloc, asked, loaded, maker),
    }
}

/// The same where sums are kept.
fn with_kept<M: Maker, L: Ledger>(
    alloc: Global,
    asked: &Asked,
    loaded: &Loaded,
    kept: &Kept,
    maker: &mut M,
    steps: &mut Steps<L>,
) -> Result<Bytes, PlanFault>
    requires day { IsDay loaded.now.day.0 }
    requires valid { IsValid asked.now.options }
    requires styles { (symbol : List ℕ)
        → style_in loaded.now.styles.now symbol ≡ style_of loaded.now.items.now symbol }
    requires keeps { KeepsBook loaded.now.book.now.txns kept.now }
    ensures answers { Answers asked.now loaded.now.day.0 loaded.now.items.now loaded.now.book.now
        (M.refusals maker.old) (M.refusals maker.new) (M.last_refused maker.old)
        (M.last_refused maker.new) result }
    ensures asked { AsksWhere (is_from_kept asked.now) (nodes_shown kept.now
        (bare_columns asked.now loaded.now.day.0 loaded.now.items.now loaded.now.book.now))
        steps.old steps.new }
{
    let served = is_from_kept(asked);
    if served {
        return widened(alloc, asked, loaded, kept, maker, steps);
    }
    plan_commands::report(alloc, asked, loaded, maker)
}

/// The balance from what is kept, as it is told beside entries that rules make.
fn widened<M: Maker, L: Ledger>(
    alloc: Global,
    asked: &Asked,
    loaded: &Loaded,
    kept: &Kept,
    maker: &mut M,
    steps: &mut Steps<L>,
) -> Result<Bytes, PlanFault>
    requires day { IsDay loaded.now.day.0 }
    requires valid { IsValid asked.now.options }
    requires styles { (symbol : List ℕ)
        → style_in loaded.now.styles.now symbol ≡ style_of loaded.now.items.now symbol }
    requires keeps { KeepsBook loaded.now.book.now.txns kept.now }
    requires served { is_from_kept asked.now ≡ true }
    ensures answers { Answers asked.now loaded.now.day.0 loaded.now.items.now loaded.now.book.now
        (M.refusals maker.old) (M.refusals maker.new) (M.last_refused maker.old)
        (M.last_refused maker.new) result }
    ensures asked { AsksFor (nodes_shown kept.now
        (bare_columns asked.now loaded.now.day.0 loaded.now.items.now loaded.now.book.now))
        steps.old steps.new }
{
    match from_kept(alloc, asked, loaded, kept, maker, steps) {
        Ok(text) => Ok(text),
        Err(fault) => Err(PlanFault::from(fault)),
    }
}

/// The balance from what is kept.
fn from_kept<M: Maker, L: Ledger>(
    alloc: Global,
    asked: &Asked,
    loaded: &Loaded,
    kept: &Kept,
    maker: &mut M,
    steps: &mut Steps<L>,
) -> Result<Bytes, WordsFault>
    requires day { IsDay loaded.now.day.0 }
    requires valid { IsValid asked.now.options }
    requires styles { (symbol : List ℕ)
        → style_in loaded.now.styles.now symbol ≡ style_of loaded.now.items.now symbol }
    requires keeps { KeepsBook loaded.now.book.now.txns kept.now }
    requires served { is_from_kept asked.now ≡ true }
    ensures answers { plain.Answers asked.now loaded.now.day.0 loaded.now.items.now
        loaded.now.book.now
        (M.refusals maker.old) (M.refusals maker.new) (M.last_refused maker.old)
        (M.last_refused maker.new) result }
    ensures asked { AsksFor (nodes_shown kept.now
        (bare_columns asked.now loaded.now.day.0 loaded.now.items.now loaded.now.book.now))
        steps.old steps.new }
{
    match make_query(alloc, asked.words.as_slice(), loaded.day, maker) {
        Ok(query) => by_query(alloc, asked, loaded, kept, &query, steps),
        Err(fault) => Err(WordsFault::from(fault)),
    }
}

/// The same by the query, which has no words. No term of it asks for a type, so none is looked for in the items.
fn by_query<L: Ledger>(
    alloc: Global,
    asked: &Asked,
    loaded: &Loaded,
    kept: &Kept,
    query: &Query,
    steps: &mut Steps<L>,
) -> Result<Bytes, WordsFault>
    requires valid { IsValid asked.now.options }
    requires styles { (symbol : List ℕ)
        → style_in loaded.now.styles.now symbol ≡ style_of loaded.now.items.now symbol }
    requires keeps { KeepsBook loaded.now.book.now.txns kept.now }
    requires served { is_from_kept asked.now ≡ true }
    requires query { IsQueryOf loaded.now.day.0 asked.now.words query.now }
    ensures answer { Gives (λ text. text) words_cause result
        (plain.answer_over asked.now loaded.now.day.0 loaded.now.items.now loaded.now.book.now) }
    ensures asked { AsksFor (nodes_shown kept.now
        (bare_columns asked.now loaded.now.day.0 loaded.now.items.now loaded.now.book.now))
        steps.old steps.new }
{
    let types = Types::new(alloc, &List::new(alloc))?;
    let scope = Scope {
        book: loaded.book,
        query,
        types: &types,
        options: &asked.options,
        day: loaded.day,
    };
    over_scope(alloc, asked, &scope, kept, loaded.styles, steps)
}

/// The same by what its sums are made of.
fn over_scope<L: Ledger>(
    alloc: Global,
    asked: &Asked,
    scope: &Scope,
    kept: &Kept,
    styles: &Styles,
    steps: &mut Steps<L>,
) -> Result<Bytes, WordsFault>
    requires valid { IsValid asked.now.options }
    requires options { scope.now.options.now ≡ asked.now.options }
    requires words { asked.now.words ≡ [] }
    requires bare { scope.now.query.now.terms.items ≡ [] }
    requires served { IsServed asked.now.options }
    requires keeps { KeepsBook scope.now.book.now.txns kept.now }
    ensures answer { (items : List Placed)
        → ((symbol : List ℕ) → style_in styles.now symbol ≡ style_of items symbol)
        → Gives (λ text. text) words_cause result
        (plain.answer_over asked.now scope.now.day.0 items scope.now.book.now) }
    ensures asked { (items : List Placed) → AsksFor (nodes_shown kept.now
        (bare_columns asked.now scope.now.day.0 items scope.now.book.now)) steps.old steps.new }
{
    Ok(kept_balance(alloc, scope, kept, styles, steps)?)
}
