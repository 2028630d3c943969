//! One assertion, judged just after its posting.
ghost use Rattle.std.specs.Prelude.{◌≡◌, ◌++◌, ◌∷◌, [], true, false, Some, None, List, IfOk, IfErr, IsSomeAnd};
ghost use Rattle.book.specs.declared.transaction.Posting.{Posting};
ghost use Rattle.entry_balance.specs.Values.{Value};
ghost use Rattle.entry_balance.specs.Entry.{moved};
ghost use Rattle.entry_balance.specs.Tally.{sums_of, turnover_fits, IsRange};
ghost use Rattle.assertions.specs.Assertions.{held_in, is_same, found_instead, failure_at, failure_of};
ghost use Rattle.assertions.specs.Kept.{IsBalance, is_asked, is_kept_for};
ghost use Rattle.assertions.specs.Claims.{IsClaimed};

use crate::balances::{Balances, add_posting};
use crate::totals::Totals;
use book::{Assertion, Boxed, Cause, Fault, Posting, copied_amount};
use entry_balance::{TallyFault, plain_amount};
use hl_base::Memory;
use hl_num::Dec;
use std::alloc::Global;
use std::cmp::Ordering;

/// Adds a posting to the balances, and judges its assertion.
pub fn claim(
    alloc: Global,
    balances: &mut Balances,
    posting: &Posting,
) -> Result<Option<Fault>, TallyFault>
    ensures ok { IfOk result (λ fault. (seen : List Posting)
        → IsBalance seen balances.old.own balances.old.below
        → is_asked balances.old.own balances.old.below posting.now ≡ true
        → IsClaimed seen posting.now balances.new.own balances.new.below fault) }
    ensures own { IfOk result (λ fault. balances.new.own.1 ≡ balances.old.own.1) }
    ensures below { IfOk result (λ fault. balances.new.below.1 ≡ balances.old.below.1) }
    ensures range { IfErr result (λ e. IsRange e → (seen : List Posting)
        → IsBalance seen balances.old.own balances.old.below
        → turnover_fits (moved (seen ++ posting.now ∷ [])) ≡ false) }
{
    match add_posting(alloc, balances, posting) {
        Ok(()) => {}
        Err(fault) => return Err(fault),
    }
    match failure(alloc, balances, posting) {
        Ok(fault) => Ok(fault),
        Err(Memory) => Err(TallyFault::Memory),
    }
}

/// The fault of a posting's assertion, if it has one that fails.
fn failure(alloc: Global, balances: &Balances, posting: &Posting) -> Result<Option<Fault>, Memory>
    ensures { IfOk result (λ fault. (seen : List Posting)
        → IsBalance seen balances.now.own balances.now.below
        → is_asked balances.now.own balances.now.below posting.now ≡ true
        → fault ≡ failure_of seen posting.now posting.now.wanted) }
{
    match &posting.wanted {
        Some(wanted) => {
            let wanted = wanted.get();
            let account = posting.account.as_bytes();
            match asked_for(balances, account, wanted.below) {
                Some(totals) => judged(alloc, posting.line, wanted, totals),
                None => Ok(None),
            }
        }
        None => Ok(None),
    }
}

/// The sums of an account that an assertion asks for.
pub fn asked_for<'a>(balances: &'a Balances, account: &[u8], below: bool) -> Option<&'a Totals>
    ensures { (seen : List Posting) → IsBalance seen balances.now.own balances.now.below
        → is_kept_for balances.now.own balances.now.below account.now below ≡ true
        → IsSomeAnd result (λ totals. totals.now ≡ sums_of (held_in below account.now seen)) }
{
    if below {
        balances.below.totals(account)
    } else {
        balances.own.totals(account)
    }
}

/// The fault of an assertion in a line, by the sums of its account.
fn judged(
    alloc: Global,
    line: u64,
    wanted: &Assertion,
    totals: &Totals,
) -> Result<Option<Fault>, Memory>
    ensures { IfOk result (λ fault. (values : List Value) → totals.now ≡ sums_of values
        → fault ≡ failure_at line wanted.now (found_instead wanted.now values)) }
{
    let symbol = wanted.amount.symbol.as_str();
    let total = totals.total(symbol);
    if !is_same(total, wanted.amount.value) {
        return failed(alloc, line, wanted, symbol, total);
    }
    if !wanted.only {
        return Ok(None);
    }
    match totals.first_other(symbol) {
        Some((other, sum)) => failed(alloc, line, wanted, other, sum),
        None => Ok(None),
    }
}

/// Whether two numbers are one, however many decimals they have.
pub fn is_same(a: Dec, b: Dec) -> bool
    ensures { result ≡ is_same a b }
{
    matches!(a.compare(b), Ordering::Equal)
}

/// The fault that an assertion fails: so much of a symbol is there in its place.
pub fn failed(
    alloc: Global,
    line: u64,
    wanted: &Assertion,
    symbol: &str,
    sum: Dec,
) -> Result<Option<Fault>, Memory>
    ensures { IfOk result (λ fault. fault ≡ failure_at line wanted.now (Some (symbol.now, sum))) }
{
    let wanted = Boxed::new(alloc, copied_amount(alloc, &wanted.amount)?)?;
    let found = Boxed::new(alloc, plain_amount(alloc, symbol, sum)?)?;
    Ok(Some(Fault {
        line,
        cause: Cause::AssertionFailed { wanted, found },
    }))
}
