//! The rows that the postings of transactions are in an index.
ghost use Rattle.std.specs.Prelude.{◌≡◌, ◌∷◌, ◌++◌, [], IfOk, OnOk};
ghost use Rattle.book.specs.Bounds.{TurnoverFits};
ghost use Rattle.book.specs.Postings.{postings_of};
ghost use Rattle.live_index.specs.Net.{negated_row};
ghost use Rattle.placed_sums.specs.Replaced.{rows_replacing};
ghost use Rattle.placed_sums.specs.Rows as spec;
ghost use Rattle.placed_sums.specs.Taken.{taken_of_posting, taken_of_txn};

use book::{Amount, Posting, Txn};
use hl_base::{Memory, Text};
use hl_num::Dec;
use live_index::{Index, Row};
use std::alloc::Global;

/// An index of the rows of a book whose amounts are in range, as those of a loaded book are.
pub fn index_of(alloc: Global, book: &[Txn]) -> Result<Index, Memory>
    requires { TurnoverFits (postings_of book.now) }
    ensures rows { IfOk result (λ index. index ≡ spec.rows_of book.now) }
    ensures stand { IfOk result (λ index. spec.Stand index book.now) }
{
    let rows = rows_of(alloc, book)?;
    let index = Index::of(alloc, &rows)?;
    Ok(index)
}

/// The rows of some transactions: one for each posting that has an amount, on the posting's own
/// day or else on that of its transaction.
pub fn rows_of(alloc: Global, txns: &[Txn]) -> Result<Vec<Row>, Memory>
    ensures { IfOk result (λ rows. rows.items ≡ spec.rows_of txns.now) }
{
    let mut rows = Vec::new(alloc);
    for txn in txns {
        push_txn(alloc, &mut rows, txn)?;
    }
    Ok(rows)
}

/// The rows that are put in where a transaction gets another form.
pub(crate) fn rows_replacing(alloc: Global, old: &Txn, new: &Txn) -> Result<Vec<Row>, Memory>
    ensures { IfOk result (λ rows. rows.items ≡ rows_replacing old.now new.now) }
{
    let mut rows = Vec::new(alloc);
    take_txn(alloc, &mut rows, old)?;
    push_txn(alloc, &mut rows, new)?;
    Ok(rows)
}

/// Adds the rows of a transaction.
fn push_txn(alloc: Global, rows: &mut Vec<Row>, txn: &Txn) -> Result<(), Memory>
    ensures { OnOk result (rows.new.items ≡ rows.old.items ++ spec.rows_of_txn txn.now) }
{
    for posting in txn.postings.as_slice() {
        push_posting(alloc, rows, txn, posting)?;
    }
    Ok(())
}

fn push_posting(
    alloc: Global,
    rows: &mut Vec<Row>,
    txn: &Txn,
    posting: &Posting,
) -> Result<(), Memory>
    ensures { OnOk result (rows.new.items
        ≡ rows.old.items ++ spec.rows_of_posting txn.now posting.now) }
{
    match &posting.amount {
        Some(amount) => push_amount(alloc, rows, txn, posting, amount),
        None => Ok(()),
    }
}

fn push_amount(
    alloc: Global,
    rows: &mut Vec<Row>,
    txn: &Txn,
    posting: &Posting,
    amount: &Amount,
) -> Result<(), Memory>
    ensures { OnOk result (rows.new.items
        ≡ rows.old.items ++ spec.row_of txn.now posting.now amount.now ∷ []) }
{
    push_value(alloc, rows, txn, posting, amount, amount.value)
}

/// Adds the rows of a transaction, negated.
fn take_txn(alloc: Global, rows: &mut Vec<Row>, txn: &Txn) -> Result<(), Memory>
    ensures { OnOk result (rows.new.items ≡ rows.old.items ++ taken_of_txn txn.now) }
{
    for posting in txn.postings.as_slice() {
        take_posting(alloc, rows, txn, posting)?;
    }
    Ok(())
}

fn take_posting(
    alloc: Global,
    rows: &mut Vec<Row>,
    txn: &Txn,
    posting: &Posting,
) -> Result<(), Memory>
    ensures { OnOk result (rows.new.items
        ≡ rows.old.items ++ taken_of_posting txn.now posting.now) }
{
    match &posting.amount {
        Some(amount) => take_amount(alloc, rows, txn, posting, amount),
        None => Ok(()),
    }
}

fn take_amount(
    alloc: Global,
    rows: &mut Vec<Row>,
    txn: &Txn,
    posting: &Posting,
    amount: &Amount,
) -> Result<(), Memory>
    ensures { OnOk result (rows.new.items
        ≡ rows.old.items ++ negated_row (spec.row_of txn.now posting.now amount.now) ∷ []) }
{
    push_value(alloc, rows, txn, posting, amount, amount.value.negated())
}

/// Adds a row of a posting's account and day, of an amount's symbol, and of a value.
fn push_value(
    alloc: Global,
    rows: &mut Vec<Row>,
    txn: &Txn,
    posting: &Posting,
    amount: &Amount,
    value: Dec,
) -> Result<(), Memory>
    ensures { OnOk result (rows.new.items ≡ rows.old.items
        ++ record (spec.row_of txn.now posting.now amount.now) { value = value } ∷ []) }
{
    let row = Row {
        account: Text::copied(alloc, posting.account.as_str())?,
        symbol: Text::copied(alloc, amount.symbol.as_str())?,
        day: posting.day_in(txn),
        value,
    };
    rows.push(row)?;
    Ok(())
}
