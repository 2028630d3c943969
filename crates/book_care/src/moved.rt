//! What the postings of some accounts sum to.
ghost use Rattle.std.specs.Prelude.{◌≡◌, ◌++◌, ◌∷◌, [], ℕ, List, map, IfOk, OnOk};
ghost use Rattle.std.specs.List.{flat_map};
ghost use Rattle.std.specs.Option.{option_map};
ghost use Rattle.book.specs.Bounds.{TurnoverFits};
ghost use Rattle.book.specs.Postings.{postings_of};
ghost use Rattle.report_cells.specs.Report.{row_seen, rows_in, seen, totals_in};
ghost use Rattle.report_cells.specs.declared.reach.Reach.TheVariants.{Within};
ghost use Rattle.book_care.specs.Asked.{asked_of, is_meant, named_postings};
ghost use Rattle.book_care.specs.Kept as spec;
ghost use Rattle.book_care.specs.Names.{has};

use crate::close::Closing;
use crate::names::Names;
use book::{Amount, Posting, Txn};
use hl_base::{List, Memory, Text};
use hl_time::{Day, Span};
use report_cells::{Cells, Reach, ReportFault, Share, Taking, make_cells};
use std::alloc::Global;

/// An amount with its symbol, if there is one.
fn share(amount: &Option<Amount>) -> Option<Share<'_>>
    ensures { result ≡ option_map (λ a. (a.symbol, a.value)) amount.now }
{
    match amount {
        Some(amount) => Some(Share {
            symbol: &amount.symbol,
            value: amount.value,
        }),
        None => None,
    }
}

/// What a posting moves.
fn taken(posting: &Posting) -> Taking<'_>
    ensures { result ≡ spec.taken posting.now }
{
    Taking {
        account: posting.account.as_str(),
        day: Day(0),
        amount: share(&posting.amount),
    }
}

/// Whether a posting is of an account among some names that isn't the one that takes the balances.
fn is_kept(names: &Names, into: &Text, posting: &Posting) -> bool
    ensures { result ≡ spec.is_kept names.now into.now posting.now }
{
    posting.account.as_str() != into.as_str() && names.has(posting.account.as_str())
}

/// Adds what a posting moves, if it is kept.
fn keep<'a>(
    kept: &mut Vec<Taking<'a>>,
    names: &Names,
    into: &Text,
    posting: &'a Posting,
) -> Result<(), Memory>
    ensures { OnOk result
        (kept.new.items ≡ kept.old.items ++ spec.kept_of names.now into.now posting.now) }
{
    if is_kept(names, into, posting) {
        kept.push(taken(posting))?;
    }
    Ok(())
}

/// Adds what the postings of a transaction move that are kept.
fn keep_all<'a>(
    kept: &mut Vec<Taking<'a>>,
    names: &Names,
    into: &Text,
    txn: &'a Txn,
) -> Result<(), Memory>
    ensures { OnOk result
        (kept.new.items ≡ kept.old.items ++ spec.kept_in names.now into.now txn.now) }
{
    for posting in txn.postings.as_slice() {
        keep(kept, names, into, posting)?;
    }
    Ok(())
}

/// What the postings of the named accounts move.
fn named_takings<'a>(
    alloc: Global,
    closing: &Closing<'a>,
    names: &Names,
) -> Result<Vec<Taking<'a>>, Memory>
    requires { (q : List ℕ) → has names.now q ≡ is_meant (asked_of closing.now) q }
    ensures { IfOk result (λ kept.
        kept.items ≡ map spec.taken (named_postings (asked_of closing.now))) }
{
    let mut kept = Vec::new(alloc);
    for txn in closing.book.txns.as_slice() {
        keep_all(&mut kept, names, closing.into, txn)?;
    }
    Ok(kept)
}

/// The one column of all days.
fn one_column(alloc: Global) -> Result<List<Span>, Memory>
    ensures { IfOk result (λ columns. columns ≡ spec.one_day ∷ []) }
{
    let mut columns = Vec::new(alloc);
    columns.push(Span { from: 0, end: 1 })?;
    Ok(List::from_vec(columns))
}

/// The sums of the named accounts, each alone and all together.
#[tactic(auto, using(crate::proofs::Within::none_out, crate::proofs::Within::follows))]
pub(crate) fn sums(alloc: Global, closing: &Closing, names: &Names) -> Result<Cells, Memory>
    requires names { (q : List ℕ) → has names.now q ≡ is_meant (asked_of closing.now) q }
    requires fits { TurnoverFits (postings_of closing.now.book.now.txns) }
    ensures rows { IfOk result (λ cells. map row_seen cells.rows
        ≡ rows_in Within (spec.one_day
        ∷ []) (map spec.taken (named_postings (asked_of closing.now)))) }
    ensures totals { IfOk result (λ cells. map seen cells.totals
        ≡ totals_in Within (spec.one_day
        ∷ []) (map spec.taken (named_postings (asked_of closing.now)))) }
{
    let takings = named_takings(alloc, closing, names)?;
    let columns = one_column(alloc)?;
    match make_cells(alloc, &takings, columns, Reach::Within) {
        Ok(cells) => Ok(cells),
        Err(ReportFault::Memory) => Err(Memory),
        Err(ReportFault::Range { symbol: _ }) => unreachable!(),
        Err(
            ReportFault::TooWide {
                columns: _,
                limit: _,
            },
        ) => unreachable!(),
    }
}
