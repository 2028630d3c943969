//! Whether no name goes with takings that are gone.
ghost use Rattle.std.specs.Prelude.{◌≡◌, IfOk};
ghost use Rattle.std.specs.Str.{bytes_eq};
ghost use Rattle.index_cells.specs.Keys.{AreInOrder};
ghost use Rattle.index_cells.specs.Staying as spec;

use crate::kept::Kept;
use crate::names::{accounts_of, are_named, symbols_of};
use hl_base::{Memory, Text};
use report_cells::{Share, Taking};
use std::alloc::Global;

/// Whether no name goes with some takings: all of theirs are kept, and in the place of each stands one that is put in, of
/// the same account and symbol.
pub(crate) fn no_name_goes(
    alloc: Global,
    kept: &Kept,
    gone: &[Taking],
    more: &[Taking],
) -> Result<bool, Memory>
    requires accounts { AreInOrder kept.now.accounts }
    requires symbols { AreInOrder kept.now.symbols }
    ensures { IfOk result (λ stay. stay ≡ spec.no_name_goes kept.now gone.now more.now) }
{
    let replaced = are_replaced(gone, more);
    if !replaced {
        return Ok(false);
    }
    let accounts = accounts_of(alloc, gone)?;
    let accounts_stay = are_named(kept.accounts.as_slice(), accounts.as_slice());
    if !accounts_stay {
        return Ok(false);
    }
    let symbols = symbols_of(alloc, gone)?;
    let symbols_stay = are_named(kept.symbols.as_slice(), symbols.as_slice());
    Ok(symbols_stay)
}

/// Whether in the place of each taking that is gone another stands, of the same account and symbol.
fn are_replaced(gone: &[Taking], more: &[Taking]) -> bool
    ensures { result ≡ spec.are_replaced gone.now more.now }
{
    let few = more.len() < gone.len();
    if few {
        return false;
    }
    for at in 0..gone.len() {
        let same = is_replaced(&gone[at], &more[at]);
        if !same {
            return false;
        }
    }
    true
}

/// Whether a taking is of the account and the symbol of another.
fn is_replaced(gone: &Taking, new: &Taking) -> bool
    ensures { result ≡ spec.is_replaced gone.now new.now }
{
    is_same(gone.account, new.account) && has_symbol(&gone.amount, &new.amount)
}

/// Whether an amount is in the symbol of another, if there is another.
fn has_symbol(gone: &Option<Share>, new: &Option<Share>) -> bool
    ensures { result ≡ spec.has_symbol gone.now new.now }
{
    match gone {
        Some(share) => is_of(share.symbol, new),
        None => true,
    }
}

/// Whether an amount is in a symbol.
fn is_of(symbol: &Text, amount: &Option<Share>) -> bool
    ensures { result ≡ spec.is_of symbol.now amount.now }
{
    match amount {
        Some(share) => is_same(symbol.as_str(), share.symbol.as_str()),
        None => false,
    }
}

fn is_same(a: &str, b: &str) -> bool
    ensures { result ≡ bytes_eq a.now b.now }
{
    a.as_bytes() == b.as_bytes()
}
