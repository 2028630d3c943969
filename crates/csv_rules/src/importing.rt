//! The entries of a file that an import adds, and the state that it leaves.
ghost use Rattle.std.specs.Prelude.{◌≡◌, ◌+◌, ◌<◌, ◌≤◌, ◌^◌, ◌++◌, ◌==◌, [], ℕ, List, Option, true, nat_lt, min, count_by, length, drop, IfOk, Some};
ghost use Rattle.std.specs.Option.{option_map};
ghost use Rattle.hl_base.specs.declared.change.Latest.{Latest};
ghost use Rattle.book.specs.declared.transaction.Txn.{Txn};
ghost use Rattle.csv_rules.specs.Importing.{is_ordered, before_day, on_day, greatest_day, new_after, state_by, state_after};

use book::Txn;
use hl_base::{Latest, List, Memory, Text};
use std::alloc::Global;

/// Which entries of a file an import adds, and the state after it. The entries stand by day; those before the state's
/// day and the first so many on it are skipped, in their order. With something new the state becomes the greatest new
/// day and the number of the file's entries on that day; with nothing new it stays.
pub fn new_ones(
    alloc: Global,
    state: Option<&Latest>,
    name: &Text,
    txns: List<Txn>,
) -> Result<(List<Txn>, Option<Latest>), Memory>
    requires ordered { is_ordered txns ≡ true }
    requires few { length txns < 2 ^ 32 }
    ensures new { IfOk result (λ r. r.0 ≡ new_after (option_map (λ s. s.now) state.entry) txns) }
    ensures state { IfOk result (λ r.
        r.1 ≡ state_after name.now (option_map (λ s. s.now) state.entry) txns) }
{
    let start = first_new(state, txns.as_slice());
    let latest = latest_after(alloc, state, name, txns.as_slice(), start)?;
    let mut txns = txns.into_vec();
    let new = txns.split_off(start)?;
    Ok((List::from_vec(new), latest))
}

/// The laws of importing. A file that is imported twice adds nothing the second time and leaves the state as it is.
/// A file that is imported, and then with further entries that don't stand before its last: both together add what
/// the longer file alone does, and leave the same state.
pub fn import_laws()
    ensures twice_new { (name : List ℕ) (state : Option Latest) (ts : List Txn)
        → is_ordered ts ≡ true
        → new_after (state_after name state ts) ts ≡ [] }
    ensures twice_state { (name : List ℕ) (state : Option Latest) (ts : List Txn)
        → is_ordered ts ≡ true
        → state_after name (state_after name state ts) ts ≡ state_after name state ts }
    ensures further_new { (name : List ℕ) (state : Option Latest) (ts us : List Txn)
        → is_ordered (ts ++ us) ≡ true
        → new_after state ts ++ new_after (state_after name state ts) (ts ++ us)
        ≡ new_after state (ts ++ us) }
    ensures further_state { (name : List ℕ) (state : Option Latest) (ts us : List Txn)
        → is_ordered (ts ++ us) ≡ true
        → state_after name (state_after name state ts) (ts ++ us)
        ≡ state_after name state (ts ++ us) }
{}

/// The place of the first new entry.
fn first_new(state: Option<&Latest>, txns: &[Txn]) -> usize
    requires { is_ordered txns.now ≡ true }
    ensures within { result ≤ length txns.now }
    ensures new { drop result txns.now ≡ new_after (option_map (λ s. s.now) state.entry) txns.now }
{
    match state {
        Some(state) => skipped(txns, state.day, state.count),
        None => 0,
    }
}

/// How many entries stand before a day, or are the first so many on it.
fn skipped(txns: &[Txn], day: u32, count: u32) -> usize
    requires { is_ordered txns.now ≡ true }
    ensures within { result ≤ length txns.now }
    ensures new { drop result txns.now
        ≡ new_after (Some (record { name = []; day = day; count = count })) txns.now }
{
    let before = count_before(txns, day);
    let on = count_on(txns, day);
    let start = before.saturating_add(on.min(count as usize));
    start.min(txns.len())
}

/// How many entries stand before a day.
fn count_before(txns: &[Txn], day: u32) -> usize
    ensures { result ≡ length (before_day day txns.now) }
{
    txns.iter().filter(|txn| txn.day.0 < day).count()
}

/// How many entries are of a day.
fn count_on(txns: &[Txn], day: u32) -> usize
    ensures count { result ≡ length (on_day day txns.now) }
    ensures within { result ≤ length txns.now }
{
    txns.iter().filter(|txn| txn.day.0 == day).count()
}

/// The state after an import of some entries, of which those from a place on are new.
fn latest_after(
    alloc: Global,
    state: Option<&Latest>,
    name: &Text,
    txns: &[Txn],
    start: usize,
) -> Result<Option<Latest>, Memory>
    requires within { start ≤ length txns.now }
    requires few { length txns.now < 2 ^ 32 }
    ensures { IfOk result (λ latest.
        latest ≡ state_by name.now (option_map (λ s.
        s.now) state.entry) txns.now (drop start txns.now)) }
{
    let new = &txns[start..];
    if new.is_empty() {
        return copied(alloc, state);
    }
    let day = greatest_day(new);
    let count = count_on(txns, day) as u32;
    let name = Text::copied(alloc, name.as_str())?;
    Ok(Some(Latest { name, day, count }))
}

/// The greatest day of some entries.
fn greatest_day(txns: &[Txn]) -> u32
    ensures { result ≡ greatest_day txns.now }
{
    let mut greatest = 0u32;
    for txn in txns {
        greatest = greatest.max(txn.day.0);
    }
    greatest
}

/// A copy of a state.
fn copied(alloc: Global, state: Option<&Latest>) -> Result<Option<Latest>, Memory>
    ensures { IfOk result (λ copy. copy ≡ option_map (λ s. s.now) state.entry) }
{
    match state {
        Some(state) => {
            let name = Text::copied(alloc, state.name.as_str())?;
            Ok(Some(Latest {
                name,
                day: state.day,
                count: state.count,
            }))
        }
        None => Ok(None),
    }
}
