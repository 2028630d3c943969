//! What is remembered of accounts: which rules mean their postings, so that a rule that asks for accounts alone is asked once
//! an account.
ghost use Rattle.std.specs.Prelude.{◌≡◌, ℕ, List, [], Some, None, IfOk, OnOk, get_or, if◌then◌else◌};
ghost use Rattle.std.specs.HashMap.{get_by_text};
ghost use Rattle.std.specs.Str.{bytes_eq};
ghost use Rattle.generated.specs.Alone.{AreVerdicts, known_at};
ghost use Rattle.generated.specs.Asking.{AllAnswer, AllAsk, all_asked};
ghost use Rattle.generated.specs.Remembering.{AreReady, Remembers};
ghost use Rattle.generated.specs.Rules.{Asked};

use crate::asking::{Asker, verdict_of};
use book::{Posting, Txn};
use hl_base::{List, Memory, Text};
use query::Types;
use std::alloc::Global;
use std::collections::HashMap;

/// How much is remembered: the rules of all accounts that are. Of further accounts each rule is asked each time.
const MOST_VERDICTS: usize = 16_777_216;

/// What is known of accounts: the place of each among lists that tell of each rule whether it means the account's postings.
#[derive(Drop)]
pub(crate) struct Remembered {
    places: HashMap<String, usize>,
    verdicts: Vec<List<Option<bool>>>,
}

/// What rules are asked with: the letters of accounts, and what is remembered of these.
#[derive(Clone, Copy)]
pub(crate) struct Accounts<'a> {
    pub(crate) types: &'a Types,
    pub(crate) kept: &'a Remembered,
}

/// Puts a place under the name of an account.
#[tactic(auto, using(std::proofs::lemmas::Map::Text::text_keys))]
fn put(
    places: &mut HashMap<String, usize>,
    alloc: Global,
    name: &Text,
    place: usize,
) -> Result<(), Memory>
    ensures { OnOk result ((q : List ℕ) → get_by_text places.new q
        ≡ (if bytes_eq q name.now then Some place else get_by_text places.old q)) }
{
    let key = String::from_str(alloc, name.as_str())?;
    places.insert(key, place)?;
    Ok(())
}

/// The place under a name.
fn place_under(places: &HashMap<String, usize>, name: &str) -> Option<usize>
    ensures { result ≡ get_by_text places.now name.now }
{
    places.get(name).copied()
}

/// What stands at a place, or nothing.
fn listed(verdicts: &[List<Option<bool>>], at: usize) -> &[Option<bool>]
    ensures { result.now ≡ get_or verdicts.now at [] }
{
    match verdicts.get(at) {
        Some(list) => list.as_slice(),
        None => &[],
    }
}

/// What is known at a place.
pub(crate) fn known_at(known: &[Option<bool>], at: usize) -> Option<bool>
    ensures { result ≡ known_at known.now at }
{
    match known.get(at) {
        Some(means) => *means,
        None => None,
    }
}

impl Remembered {
    /// Nothing yet.
    fn none(alloc: Global) -> Remembered
        ensures { (rules : List Asked) → Remembers rules result }
    {
        let places = HashMap::new(alloc);
        let verdicts = Vec::new(alloc);
        Remembered { places, verdicts }
    }

    /// Whether an account is remembered, or there is no room for it.
    fn is_done(&self, account: &Text, rules: usize) -> bool {
        let room = self.verdicts.len().saturating_mul(rules) < MOST_VERDICTS;
        !room || place_under(&self.places, account.as_str()).is_some()
    }

    /// Remembers an account.
    fn keep(
        &mut self,
        alloc: Global,
        account: &Text,
        known: List<Option<bool>>,
    ) -> Result<(), Memory>
        ensures { OnOk result ((rules : List Asked) → AreVerdicts account.now rules known
            → Remembers rules self.old → Remembers rules self.new) }
    {
        let place = self.verdicts.as_slice().len();
        self.verdicts.push(known)?;
        put(&mut self.places, alloc, account, place)
    }

    /// What is known of an account: of each rule, in their order, whether it means the account's postings; or nothing.
    pub(crate) fn known(&self, account: &Text) -> &[Option<bool>]
        ensures { (rules : List Asked) → Remembers rules self.now
            → AreVerdicts account.now rules result.now }
    {
        match place_under(&self.places, account.as_str()) {
            Some(at) => listed(self.verdicts.as_slice(), at),
            None => &[],
        }
    }
}

/// What is known of some rules, in their order, and each posting of the account of one.
fn verdicts_of(
    alloc: Global,
    askers: &mut [Asker<'_>],
    types: &Types,
    txn: &Txn,
    posting: &Posting,
) -> Result<List<Option<bool>>, Memory>
    requires { AllAnswer askers.old }
    ensures verdicts { IfOk result (λ known.
        AreVerdicts posting.now.account (all_asked askers.old) known) }
    ensures ask { OnOk result (AllAsk askers.old askers.new) }
{
    let mut known = Vec::with_capacity(alloc, askers.len())?;
    for asker in askers.iter_mut() {
        known.push(verdict_of(asker, types, txn, posting))?;
    }
    Ok(List::from_vec(known))
}

/// Remembers the account of a posting.
fn remember(
    alloc: Global,
    kept: &mut Remembered,
    askers: &mut [Asker<'_>],
    types: &Types,
    txn: &Txn,
    posting: &Posting,
) -> Result<(), Memory>
    requires { AreReady askers.old kept.old }
    ensures kept { OnOk result (Remembers (all_asked askers.old) kept.new) }
    ensures ask { OnOk result (AllAsk askers.old askers.new) }
{
    if kept.is_done(&posting.account, askers.len()) {
        return Ok(());
    }
    let known = verdicts_of(alloc, askers, types, txn, posting)?;
    kept.keep(alloc, &posting.account, known)
}

/// Remembers the accounts of a transaction.
fn remember_in(
    alloc: Global,
    kept: &mut Remembered,
    askers: &mut [Asker<'_>],
    types: &Types,
    txn: &Txn,
) -> Result<(), Memory>
    requires { AreReady askers.old kept.old }
    ensures kept { OnOk result (Remembers (all_asked askers.old) kept.new) }
    ensures ask { OnOk result (AllAsk askers.old askers.new) }
{
    for posting in txn.postings.as_slice() {
        remember(alloc, kept, askers, types, txn, posting)?;
    }
    Ok(())
}

/// What is known of the accounts of some transactions.
pub(crate) fn remember_all(
    alloc: Global,
    askers: &mut [Asker<'_>],
    types: &Types,
    txns: &[Txn],
) -> Result<Remembered, Memory>
    requires { AllAnswer askers.old }
    ensures kept { IfOk result (λ kept. Remembers (all_asked askers.old) kept) }
    ensures ask { OnOk result (AllAsk askers.old askers.new) }
{
    let mut kept = Remembered::none(alloc);
    for txn in txns {
        remember_in(alloc, &mut kept, askers, types, txn)?;
    }
    Ok(kept)
}
