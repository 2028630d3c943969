//! Transactions as they are printed.
ghost use Rattle.std.specs.Prelude.{◌≡◌, ◌++◌, IfOk, OnOk};
ghost use Rattle.std.specs.List.{flat_map, slice_get};
ghost use Rattle.std.specs.Option.{option_copied};
ghost use Rattle.journal_printer.specs.Journal.{styled, spaced_text, journal_text, chosen_text};
ghost use Rattle.journal_printer.specs.Layout.{txn_text};
ghost use Rattle.journal_printer.specs.Order as order;

use crate::detail::Detail;
use crate::fields::fields_shown;
use crate::head::push_head;
use crate::layout::push_postings;
use crate::order::{Name, keep_chosen, names_in_order};
use crate::shapes::Shapes;
use book::{Book, Styles, Txn};
use hl_base::{Bytes, Memory};
use std::alloc::Global;

/// The lines of a transaction, each with its LF: the head, then each posting. Accounts are padded to the widest and
/// amounts right aligned to the widest of the transaction. Amounts stand in their symbols' styles with their own
/// decimals; a number without decimals in which a group mark stands ends with the decimal mark. Fails only for want of
/// memory.
pub fn print_txn(alloc: Global, txn: &Txn, styles: &Styles, detail: Detail) -> Result<Bytes, Memory>
    ensures { IfOk result (λ text. text ≡ txn_text (styled styles.now) detail txn.now) }
{
    let mut out = Vec::new(alloc);
    push_txn(alloc, &mut out, styles, detail, txn)?;
    Ok(Bytes::from_vec(out))
}

/// The transactions of a book by day and then by number, each as `print_txn` gives it and with an empty line after it.
/// Fails only for want of memory.
pub fn print_book(
    alloc: Global,
    book: &Book,
    styles: &Styles,
    detail: Detail,
) -> Result<Bytes, Memory>
    ensures { IfOk result (λ text. text ≡ journal_text (styled styles.now) detail book.now.txns) }
{
    let names = names_in_order(alloc, book.txns.as_slice())?;
    let mut out = Vec::new(alloc);
    push_named(
        alloc,
        &mut out,
        styles,
        detail,
        book.txns.as_slice(),
        names.as_slice(),
    )?;
    Ok(Bytes::from_vec(out))
}

/// The chosen transactions of a book alone, by day and then by number, each as `print_txn` gives it and with an empty
/// line after it. `chosen` has an item for each transaction, by number; one without an item isn't chosen. Fails only for
/// want of memory.
pub fn print_chosen(
    alloc: Global,
    book: &Book,
    chosen: &[bool],
    styles: &Styles,
    detail: Detail,
) -> Result<Bytes, Memory>
    ensures { IfOk result
        (λ text. text ≡ chosen_text (styled styles.now) detail book.now.txns chosen.now) }
{
    let mut names = names_in_order(alloc, book.txns.as_slice())?;
    keep_chosen(&mut names, chosen);
    let mut out = Vec::new(alloc);
    push_named(
        alloc,
        &mut out,
        styles,
        detail,
        book.txns.as_slice(),
        names.as_slice(),
    )?;
    Ok(Bytes::from_vec(out))
}

/// Puts the lines of the transactions that are named, and an empty line after each.
fn push_named<S: Shapes>(
    alloc: Global,
    out: &mut Vec<u8>,
    shapes: &S,
    detail: Detail,
    txns: &[Txn],
    names: &[Name],
) -> Result<(), Memory>
    ensures { OnOk result (out.new.items ≡ out.old.items
        ++ flat_map (λ name.
        spaced_text (S.shape_of shapes.now) detail (slice_get txns.now name.1)) names.now) }
{
    for name in names {
        push_spaced(alloc, out, shapes, detail, txn_at(txns, name.1))?;
    }
    Ok(())
}

/// The transaction of a number, if there is one.
fn txn_at(txns: &[Txn], number: usize) -> Option<&Txn>
    ensures { option_copied result ≡ slice_get txns.now number }
{
    txns.get(number)
}

/// Puts the lines of a transaction, if there is one, and an empty line.
fn push_spaced<S: Shapes>(
    alloc: Global,
    out: &mut Vec<u8>,
    shapes: &S,
    detail: Detail,
    txn: Option<&Txn>,
) -> Result<(), Memory>
    ensures { OnOk result (out.new.items ≡ out.old.items
        ++ spaced_text (S.shape_of shapes.now) detail (option_copied txn.entry)) }
{
    let Some(txn) = txn else {
        return Ok(());
    };
    push_txn(alloc, out, shapes, detail, txn)?;
    out.push(b'\n')?;
    Ok(())
}

/// Puts the lines of a transaction.
pub fn push_txn<S: Shapes>(
    alloc: Global,
    out: &mut Vec<u8>,
    shapes: &S,
    detail: Detail,
    txn: &Txn,
) -> Result<(), Memory>
    ensures { OnOk result (out.new.items ≡ out.old.items
        ++ txn_text (S.shape_of shapes.now) detail txn.now) }
{
    push_head(out, txn)?;
    let fields = fields_shown(alloc, shapes, detail, txn.postings.as_slice())?;
    push_postings(out, fields.as_slice())
}
