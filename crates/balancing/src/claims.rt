//! Assertions, each judged just after its posting.
ghost use Rattle.std.specs.Prelude.{◌≡◌, ◌++◌, ◌∷◌, [], true, false, Some, None, List, IfOk, IfErr, IsSomeAnd};
ghost use Rattle.std.specs.List.{list_all};
ghost use Rattle.book.specs.declared.transaction.Posting.{Posting};
ghost use Rattle.entry_balance.specs.Values.{Value};
ghost use Rattle.entry_balance.specs.Entry.{moved};
ghost use Rattle.entry_balance.specs.Tally.{sums_of, turnover_fits, IsRange};
ghost use Rattle.assertions.specs.Assertions.{held_in, is_same, found_instead, failure_at, failure_of};
ghost use Rattle.balancing.specs.Parts.{part_on, postings_on};
ghost use Rattle.assertions.specs.Kept.{IsBalance, is_asked, is_kept_for};
ghost use Rattle.assertions.specs.Claims.{IsClaimed};
ghost use Rattle.balancing.specs.Claims.{AreClaimed};

use crate::groups::{Part, has_assigned, is_chosen};
use assertions::{Balances, claim};
use book::{Fault, Posting, Txn};
use entry_balance::TallyFault;
use std::alloc::Global;

/// Adds the postings of a transaction's group on a day to the balances, each assertion judged just after its posting,
/// up to the first one that fails.
pub(crate) fn claim_group(
    alloc: Global,
    balances: &mut Balances,
    txn: &Txn,
    day: u32,
) -> Result<Option<Fault>, TallyFault>
    ensures ok { IfOk result (λ fault. (seen : List Posting)
        → IsBalance seen balances.old.own balances.old.below
        → list_all (is_asked balances.old.own balances.old.below) txn.now.postings ≡ true
        → AreClaimed seen (postings_on day txn.now) balances.new.own balances.new.below fault) }
    ensures own { IfOk result (λ fault. balances.new.own.1 ≡ balances.old.own.1) }
    ensures below { IfOk result (λ fault. balances.new.below.1 ≡ balances.old.below.1) }
    ensures range { IfErr result (λ e. IsRange e → (seen : List Posting)
        → IsBalance seen balances.old.own balances.old.below
        → list_all (is_asked balances.old.own balances.old.below) txn.now.postings ≡ true
        → turnover_fits (moved (seen ++ postings_on day txn.now)) ≡ false) }
{
    if !has_assigned(txn.postings.as_slice()) {
        return claim_part(alloc, balances, txn, day, Part::All);
    }
    match claim_part(alloc, balances, txn, day, Part::ButFound) {
        Ok(None) => claim_part(alloc, balances, txn, day, Part::Found),
        Ok(Some(fault)) => Ok(Some(fault)),
        Err(fault) => Err(fault),
    }
}

/// Adds the postings of a part of a transaction on a day to the balances, each assertion judged just after its posting,
/// up to the first one that fails.
fn claim_part(
    alloc: Global,
    balances: &mut Balances,
    txn: &Txn,
    day: u32,
    part: Part,
) -> Result<Option<Fault>, TallyFault>
    ensures ok { IfOk result (λ fault. (seen : List Posting)
        → IsBalance seen balances.old.own balances.old.below
        → list_all (is_asked balances.old.own balances.old.below) txn.now.postings ≡ true
        → AreClaimed seen (part_on part day txn.now) balances.new.own balances.new.below fault) }
    ensures own { IfOk result (λ fault. balances.new.own.1 ≡ balances.old.own.1) }
    ensures below { IfOk result (λ fault. balances.new.below.1 ≡ balances.old.below.1) }
    ensures range { IfErr result (λ e. IsRange e → (seen : List Posting)
        → IsBalance seen balances.old.own balances.old.below
        → list_all (is_asked balances.old.own balances.old.below) txn.now.postings ≡ true
        → turnover_fits (moved (seen ++ part_on part day txn.now)) ≡ false) }
{
    for posting in txn.postings.as_slice() {
        if is_chosen(part, txn, posting, day) {
            match claim(alloc, balances, posting) {
                Ok(None) => {}
                Ok(Some(fault)) => return Ok(Some(fault)),
                Err(fault) => return Err(fault),
            }
        }
    }
    Ok(None)
}
