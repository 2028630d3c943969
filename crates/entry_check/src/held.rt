//! What accounts hold before a transaction and after some of its postings.
ghost use Rattle.std.specs.Prelude.{◌≡◌, ◌≤◌, ◌+◌, true, false, List, IfOk, IfErr};
ghost use Rattle.book.specs.SumsBefore.{OnlyAsked};
ghost use Rattle.book.specs.declared.transaction.Posting.{Posting};
ghost use Rattle.entry_balance.specs.Tally.{total_of, turnover_fits, IsRange};
ghost use Rattle.assertions.specs.Kept.{IsBalance, is_kept_for};
ghost use Rattle.entry_check.specs.Checked.{told_before, held_after};

use assertions::{Balances, asked_for, total_in};
use book::Sums;
use entry_balance::{TallyFault, checked_sum};
use hl_base::{Steps, Text};
use hl_num::Dec;
use std::sync::ledger::Ledger;

/// What an account holds in a symbol just before a transaction, with as few decimals as it needs.
pub(crate) fn told<S: Sums, L: Ledger>(
    sums: &S,
    account: &Text,
    symbol: &Text,
    below: bool,
    steps: &mut Steps<L>,
) -> Dec
    ensures value { result ≡ told_before (S.txns sums.now) (S.place sums.now) below account.now
        symbol.now }
    ensures steps { OnlyAsked steps.old steps.new }
    ensures few { steps.new.nodes ≤ steps.old.nodes + S.asks sums.now account.now symbol.now below }
{
    sums.before(account, symbol, below, steps).trimmed()
}

/// What an account holds in a symbol before a transaction and by some of its postings.
pub(crate) fn held<S: Sums, L: Ledger>(
    sums: &S,
    here: &Balances,
    account: &Text,
    symbol: &Text,
    below: bool,
    steps: &mut Steps<L>,
) -> Result<Dec, TallyFault>
    ensures value { IfOk result (λ held. (done : List Posting)
        → IsBalance done here.now.own here.now.below
        → is_kept_for here.now.own here.now.below account.now below ≡ true
        → held ≡ total_of symbol.now
        (held_after (told_before (S.txns sums.now) (S.place sums.now)) below account.now symbol.now
        done)) }
    ensures range { IfErr result (λ e. IsRange e → (done : List Posting)
        → IsBalance done here.now.own here.now.below
        → is_kept_for here.now.own here.now.below account.now below ≡ true
        → turnover_fits
        (held_after (told_before (S.txns sums.now) (S.place sums.now)) below account.now symbol.now
        done) ≡ false) }
    ensures steps { OnlyAsked steps.old steps.new }
    ensures few { steps.new.nodes ≤ steps.old.nodes + S.asks sums.now account.now symbol.now below }
{
    let before = told(sums, account, symbol, below, steps);
    let so_far = total_in(asked_for(here, account.as_bytes(), below), symbol.as_str());
    checked_sum(before, so_far)
}
