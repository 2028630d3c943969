//! Whether a book keeps what is asked of it, or the first place that breaks it.
ghost use Rattle.std.specs.Prelude.{◌≡◌, true, false, None, OnOk, IfErr};
ghost use Rattle.std.specs.Option.{option_map};
ghost use Rattle.book_care.specs.Breaks as spec;
ghost use Rattle.book_care.specs.Breaks.{IsFault};

use crate::declarations::{Declarations, Declared};
use crate::faults::{Check, StrictFault};
use crate::uses::{Use, first_lacking};
use book::{Book, Items, Txn};
use hl_base::Text;
use std::alloc::Global;

/// What a check says of a name.
fn name_fault(alloc: Global, check: Check, found: &Use) -> Result<(), StrictFault>
    ensures holds { OnOk result (spec.name_fault check found.now ≡ None) }
    ensures fault { IfErr result (IsFault (spec.name_fault check found.now)) }
{
    let line = found.line();
    match check {
        Check::Accounts => {
            let name = Text::copied(alloc, found.name())?;
            Err(StrictFault::Account { line, name })
        }
        Check::Commodities => {
            let symbol = Text::copied(alloc, found.name())?;
            Err(StrictFault::Commodity { line, symbol })
        }
        Check::Payees => {
            let payee = Text::copied(alloc, found.name())?;
            Err(StrictFault::Payee { line, payee })
        }
        Check::Tags => {
            let name = Text::copied(alloc, found.name())?;
            Err(StrictFault::Tag { line, name })
        }
        Check::OrderedDates => Ok(()),
    }
}

/// Whether each name that is asked about is among those that are kept as declared.
fn names_kept(alloc: Global, declared: &Declared, txns: &[Txn]) -> Result<(), StrictFault>
    ensures holds { OnOk result (spec.first_lacked declared.now txns.now ≡ None) }
    ensures fault { IfErr result (IsFault (spec.first_lacked declared.now txns.now)) }
{
    match first_lacking(declared, txns) {
        Some(found) => name_fault(alloc, declared.check, &found),
        None => Ok(()),
    }
}

/// Whether a transaction is no earlier than the one above it.
fn is_after(above: &Txn, txn: &Txn) -> Result<(), StrictFault>
    ensures holds { OnOk result (spec.is_early (above.now, txn.now) ≡ false) }
    ensures fault { IfErr result (λ fault. (spec.is_early (above.now, txn.now) ≡ true)
        × (fault ≡ spec.early_fault (above.now, txn.now))) }
{
    if txn.day.0 < above.day.0 {
        return Err(StrictFault::Dates {
            line: txn.line,
            before: above.day,
            day: txn.day,
        });
    }
    Ok(())
}

/// Whether no transaction is before the one above it.
#[tactic(auto, using(crate::proofs::Neighbours::early_here, crate::proofs::Neighbours::early_more, crate::proofs::Neighbours::early_none))]
fn dates_ordered(txns: &[Txn]) -> Result<(), StrictFault>
    ensures holds { OnOk result (option_map spec.early_fault (spec.first_early txns.now) ≡ None) }
    ensures fault { IfErr result (IsFault
        (option_map spec.early_fault (spec.first_early txns.now))) }
{
    for at in 1..txns.len() {
        let before = at - 1;
        is_after(&txns[before], &txns[at])?;
    }
    Ok(())
}

/// Whether a check asks about the order of days.
fn is_of_days(check: Check) -> bool
    ensures { result ≡ spec.is_of_days check }
{
    match check {
        Check::OrderedDates => true,
        Check::Accounts | Check::Commodities | Check::Payees | Check::Tags => false,
    }
}

/// Whether a book keeps what is asked, by what its text declares: each account of its postings, each symbol of their
/// written amounts, costs and assertions that isn't empty, each payee that isn't empty, or each tag of a transaction or a
/// posting but `date` is declared by a directive, wherever that stands; or no transaction is before the one above it. The
/// fault is of the first transaction or posting in the text that breaks this, with its line, and has the first name in it
/// in the order written.
pub fn strict_by(
    alloc: Global,
    declarations: &Declarations,
    book: &Book,
    check: Check,
) -> Result<(), StrictFault>
    ensures holds { OnOk result (spec.first_by declarations.now check book.now.txns ≡ None) }
    ensures fault { IfErr result (IsFault (spec.first_by declarations.now check book.now.txns)) }
{
    if is_of_days(check) {
        dates_ordered(book.txns.as_slice())
    } else {
        names_kept(alloc, declarations.kept_for(check), book.txns.as_slice())
    }
}

/// Whether a book, which stands for the items, keeps what is asked of it, as `strict_by` says.
pub fn strict(alloc: Global, items: &Items, book: &Book, check: Check) -> Result<(), StrictFault>
    ensures holds { OnOk result (spec.first_fault check items.now book.now.txns ≡ None) }
    ensures fault { IfErr result (IsFault (spec.first_fault check items.now book.now.txns)) }
{
    let declarations = Declarations::new(alloc, items)?;
    strict_by(alloc, &declarations, book, check)
}
