//! The symbols that a text writes with other transactions in their place.
ghost use Rattle.std.specs.Prelude.{◌≡◌, ◌∷◌, ◌++◌, [], ◌<◌, Some, IfOk, IsTrue, length, map, slice_get};
ghost use Rattle.kept_books.specs.Beginning.{lent, renewed_in};
ghost use Rattle.kept_books.specs.Renewing.{AreWithin};
ghost use Rattle.kept_books.specs.Writing.{AreSymbolsOf, symbols_written};

use crate::gathering::{are_same, gathered, symbols_of, symbols_with};
use crate::written::Renewal;
use book::Txn;
use hl_base::{List, Memory, Text};
use placed_sums::ByNumber;
use std::alloc::Global;
use std::slice::from_ref;

/// Whether all symbols that a transaction writes are among those that others write.
fn are_among(alloc: Global, txn: &Txn, forms: &[&Txn]) -> Result<bool, Memory>
    ensures { IfOk result (λ among. IsTrue among
        → AreWithin (txn.now ∷ []) (map (λ t. t.now) forms.now)) }
{
    let own = symbols_of(alloc, forms)?;
    let both = symbols_with(alloc, own.as_slice(), from_ref(&txn))?;
    Ok(are_same(own.as_slice(), both.as_slice()))
}

/// The symbols of the new text where a transaction of the old one isn't there any more: as they are, where its symbols are
/// among those that are put in its place.
fn symbols_over(
    alloc: Global,
    renewal: &Renewal,
    old: &Txn,
    symbols: List<Text>,
) -> Result<List<Text>, Memory>
    requires there { slice_get (lent renewal.now.former) renewal.now.first ≡ Some old.now }
    requires alone { length renewal.now.forms.txns.items ≡ 1 }
    requires both { symbols ≡ symbols_written (lent renewal.now.former ++ renewed_in renewal.now) }
    ensures { IfOk result (AreSymbolsOf (renewed_in renewal.now)) }
{
    let among = are_among(alloc, old, renewal.forms.txns.as_slice())?;
    if among {
        Ok(symbols)
    } else {
        gathered(alloc, renewal)
    }
}

/// The symbols of the new text, of those of both texts.
pub(crate) fn symbols_kept(
    alloc: Global,
    renewal: &Renewal,
    symbols: List<Text>,
) -> Result<List<Text>, Memory>
    requires alone { renewal.now.first < length renewal.now.former.txns.items
        → length renewal.now.forms.txns.items ≡ 1 }
    requires both { symbols ≡ symbols_written (lent renewal.now.former ++ renewed_in renewal.now) }
    ensures { IfOk result (AreSymbolsOf (renewed_in renewal.now)) }
{
    match renewal.former.txn(renewal.first) {
        Some(old) => symbols_over(alloc, renewal, old, symbols),
        None => Ok(symbols),
    }
}
