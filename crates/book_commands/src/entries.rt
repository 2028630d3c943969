//! Transactions as the text of a journal.
ghost use Rattle.std.specs.Prelude.{◌≡◌, ◌++◌, IfOk, OnOk};
ghost use Rattle.book_commands.specs.Works as spec;

use crate::work::Entries;
use book::Txn;
use entry_reader::Context;
use hl_base::{Bytes, Memory};
use journal_printer::print_entry;
use std::alloc::Global;

/// Puts a transaction as an entry that is read in a context, and an empty line.
pub(crate) fn push_entry(
    alloc: Global,
    out: &mut Vec<u8>,
    context: &Context,
    txn: &Txn,
) -> Result<(), Memory>
    ensures { OnOk result (out.new.items ≡ out.old.items ++ spec.entry_text context.now txn.now) }
{
    let text = print_entry(alloc, txn, context)?;
    out.extend_from_slice(text.as_slice())?;
    out.push(b'\n')?;
    Ok(())
}

/// Transactions as entries that are read in a context, each with an empty line behind it.
pub(crate) fn entries_text(alloc: Global, context: &Context, txns: &[Txn]) -> Result<Bytes, Memory>
    ensures { IfOk result (λ text. text ≡ spec.entries_text context.now txns.now) }
{
    let mut out = Vec::new(alloc);
    for txn in txns {
        push_entry(alloc, &mut out, context, txn)?;
    }
    Ok(Bytes::from_vec(out))
}

/// Two entries.
fn two_text(alloc: Global, context: &Context, first: &Txn, second: &Txn) -> Result<Bytes, Memory>
    ensures { IfOk result (λ text.
        text ≡ spec.entry_text context.now first.now ++ spec.entry_text context.now second.now) }
{
    let mut out = Vec::new(alloc);
    push_entry(alloc, &mut out, context, first)?;
    push_entry(alloc, &mut out, context, second)?;
    Ok(Bytes::from_vec(out))
}

/// One entry.
fn one_text(alloc: Global, context: &Context, txn: &Txn) -> Result<Bytes, Memory>
    ensures { IfOk result (λ text. text ≡ spec.entry_text context.now txn.now) }
{
    let mut out = Vec::new(alloc);
    push_entry(alloc, &mut out, context, txn)?;
    Ok(Bytes::from_vec(out))
}

/// Those of a closing and an opening entry that are asked for.
fn chosen_text(
    alloc: Global,
    context: &Context,
    chosen: Entries,
    closing: &Txn,
    opening: &Txn,
) -> Result<Bytes, Memory>
    ensures { IfOk result (λ text.
        text ≡ spec.chosen_text context.now chosen (closing.now, opening.now)) }
{
    match chosen {
        Entries::Both => two_text(alloc, context, closing, opening),
        Entries::Closing => one_text(alloc, context, closing),
        Entries::Opening => one_text(alloc, context, opening),
    }
}

/// Those of a closing and an opening entry that are asked for, if there are any.
pub(crate) fn pair_text(
    alloc: Global,
    context: &Context,
    chosen: Entries,
    entries: &Option<(Txn, Txn)>,
) -> Result<Bytes, Memory>
    ensures { IfOk result (λ text. text ≡ spec.pair_text context.now chosen entries.now) }
{
    match entries {
        Some((closing, opening)) => chosen_text(alloc, context, chosen, closing, opening),
        None => Ok(Bytes::new(alloc)),
    }
}
