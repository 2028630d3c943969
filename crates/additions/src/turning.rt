//! What a book moves with further transactions.
ghost use Rattle.std.specs.Prelude.{◌≡◌, ◌++◌, IfOk, List, map, true};
ghost use Rattle.std.specs.List.{AllByRecursion};
ghost use Rattle.book.specs.Postings.{postings_of};
ghost use Rattle.entry_balance.specs.Entry.{costs_fit, moved};
ghost use Rattle.entry_balance.specs.Values.{Value};
ghost use Rattle.kept_turnover.specs.Keeping.{IsTurnover};

use crate::settling::Judged;
use hl_base::Memory;
use kept_turnover::Turnover;
use std::alloc::Global;

/// A turnover with that of further transactions, whose costs can be told.
pub(crate) fn turnover_with(
    alloc: Global,
    turnover: &Turnover,
    more: &[Judged],
) -> Result<Turnover, Memory>
    requires { AllByRecursion (λ j. costs_fit j.txn.postings ≡ true) more.now }
    ensures { IfOk result (λ t. (moves : List Value) → IsTurnover turnover.now moves
        → IsTurnover t (moves ++ moved (postings_of (map (λ j. j.txn) more.now)))) }
{
    let mut all = turnover.copied()?;
    for judged in more {
        all.add(alloc, &judged.txn)?;
    }
    Ok(all)
}
