//! What the accounts hold that assertions ask for.
ghost use Rattle.std.specs.Prelude.{◌≡◌, ◌++◌, ◌∷◌, [], true, false, List, ℕ, OnOk, IfOk, IfErr};
ghost use Rattle.std.specs.List.{list_all};
ghost use Rattle.book.specs.declared.transaction.Posting.{Posting};
ghost use Rattle.entry_balance.specs.Values.{Value};
ghost use Rattle.entry_balance.specs.Entry.{moved};
ghost use Rattle.entry_balance.specs.Tally.{turnover_fits, IsRange};
ghost use Rattle.assertions.specs.Assertions.{lies_under};
ghost use Rattle.assertions.specs.Kept.{IsKept, IsBalance, Stays, and_under, is_asked, are_asked};

use crate::kept::Kept;
use book::{Posting, Txn};
use entry_balance::TallyFault;
use hl_base::Memory;
use hl_num::Dec;
use std::alloc::Global;

/// The sums of the accounts that assertions ask for: of each alone, and of each with those under it.
#[derive(Drop)]
pub struct Balances {
    pub own: Kept,
    pub below: Kept,
}

impl Balances {
    /// Balances of nothing, which take no memory.
    pub fn new(alloc: Global) -> Balances
        ensures { IsBalance [] result.own result.below }
    {
        Balances {
            own: Kept::new(alloc),
            below: Kept::new(alloc),
        }
    }

    /// Whether no assertion asks for anything.
    pub fn is_empty(&self) -> bool
        ensures own { result ≡ true → self.now.own.0 ≡ [] }
        ensures below { result ≡ true → self.now.below.0 ≡ [] }
    {
        self.own.is_empty() && self.below.is_empty()
    }
}

/// The balances before any posting, of all that the assertions of some transactions ask for.
pub fn asked(alloc: Global, txns: &[Txn]) -> Result<Balances, Memory>
    ensures fresh { IfOk result (λ balances. IsBalance [] balances.own balances.below) }
    ensures asked { IfOk result (λ balances.
        are_asked balances.own balances.below txns.now ≡ true) }
{
    let mut balances = Balances::new(alloc);
    for txn in txns {
        ask_each(alloc, &mut balances, txn.postings.as_slice())?;
    }
    Ok(balances)
}

/// The balances before any posting, of all that the assertions of some postings ask for.
pub fn asked_by(alloc: Global, postings: &[Posting]) -> Result<Balances, Memory>
    ensures fresh { IfOk result (λ balances. IsBalance [] balances.own balances.below) }
    ensures asked { IfOk result (λ balances.
        list_all (is_asked balances.own balances.below) postings.now ≡ true) }
{
    let mut balances = Balances::new(alloc);
    ask_each(alloc, &mut balances, postings)?;
    Ok(balances)
}

/// Asks for all that the assertions of some postings ask for.
fn ask_each(alloc: Global, balances: &mut Balances, postings: &[Posting]) -> Result<(), Memory>
    ensures fresh { OnOk result (IsBalance [] balances.old.own balances.old.below
        → IsBalance [] balances.new.own balances.new.below) }
    ensures asked { OnOk result (list_all (is_asked balances.new.own balances.new.below)
        postings.now ≡ true) }
    ensures stays { OnOk result (Stays balances.old.own balances.old.below balances.new.own
        balances.new.below) }
{
    for posting in postings {
        ask(alloc, balances, posting)?;
    }
    Ok(())
}

/// Asks for what the assertion of a posting asks for, if it has one.
fn ask(alloc: Global, balances: &mut Balances, posting: &Posting) -> Result<(), Memory>
    ensures fresh { OnOk result (IsBalance [] balances.old.own balances.old.below
        → IsBalance [] balances.new.own balances.new.below) }
    ensures asked { OnOk result (is_asked balances.new.own balances.new.below posting.now ≡ true) }
    ensures stays { OnOk result (Stays balances.old.own balances.old.below balances.new.own
        balances.new.below) }
{
    let account = posting.account.as_bytes();
    match &posting.wanted {
        Some(wanted) => {
            if wanted.get().below {
                balances.below.ask(alloc, account)
            } else {
                balances.own.ask(alloc, account)
            }
        }
        None => Ok(()),
    }
}

/// Adds a posting's amount to its account, and to those that it lies under.
pub fn add_posting(
    alloc: Global,
    balances: &mut Balances,
    posting: &Posting,
) -> Result<(), TallyFault>
    ensures ok { OnOk result ((seen : List Posting)
        → IsBalance seen balances.old.own balances.old.below
        → IsBalance (seen ++ posting.now ∷ []) balances.new.own balances.new.below) }
    ensures own { OnOk result (balances.new.own.1 ≡ balances.old.own.1) }
    ensures below { OnOk result (balances.new.below.1 ≡ balances.old.below.1) }
    ensures range { IfErr result (λ e. IsRange e → (seen : List Posting)
        → IsBalance seen balances.old.own balances.old.below
        → turnover_fits (moved (seen ++ posting.now ∷ [])) ≡ false) }
{
    match &posting.amount {
        Some(amount) => {
            let account = posting.account.as_bytes();
            let symbol = amount.symbol.as_str();
            match balances.own.add(alloc, account, symbol, amount.value) {
                Ok(()) => {}
                Err(fault) => return Err(fault),
            }
            add_above(alloc, &mut balances.below, account, symbol, amount.value)
        }
        None => Ok(()),
    }
}

/// Adds a number to an account and to each that it lies under.
fn add_above(
    alloc: Global,
    below: &mut Kept,
    account: &[u8],
    symbol: &str,
    value: Dec,
) -> Result<(), TallyFault>
    ensures ok { OnOk result ((values : List ℕ → List Value) → IsKept values below.old
        → IsKept (and_under values account.now (symbol.now, value)) below.new) }
    ensures places { OnOk result (below.new.1 ≡ below.old.1) }
    ensures range { IfErr result (λ e. IsRange e → (values : List ℕ → List Value)
        → IsKept values below.old
        → (root : List ℕ) × (lies_under account.now root ≡ true)
        × (turnover_fits (values root ++ (symbol.now, value) ∷ []) ≡ false)) }
{
    if below.is_empty() {
        return Ok(());
    }
    for at in 0..account.len() {
        if account[at] == b':' {
            match below.add(alloc, &account[..at], symbol, value) {
                Ok(()) => {}
                Err(fault) => return Err(fault),
            }
        }
    }
    below.add(alloc, account, symbol, value)
}
