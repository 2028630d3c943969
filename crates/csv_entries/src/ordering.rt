//! The order of the entries of a file.
ghost use Rattle.std.specs.Prelude.{◌≡◌, ◌==◌, ◌<◌, ◌≤◌, ◌+◌, ◌++◌, ◌∷◌, ◌||◌, length, take, drop, reverse, OnOk};
ghost use Rattle.std.specs.List.{prefix_len};
ghost use Rattle.csv_entries.specs.Ordering as spec;

use book::{Txn, sort_by_day};
use csv_rules::Settings;
use hl_base::Memory;

/// Whether the first day is later than the last.
fn is_falling(txns: &[Txn]) -> bool
    ensures { result ≡ spec.is_falling txns.now }
{
    match (txns.first(), txns.last()) {
        (Some(first), Some(last)) => last.day.0 < first.day.0,
        _ => false,
    }
}

/// How many of the entries from a place on are of the day of the first of them.
fn run_length(txns: &[Txn], at: usize) -> usize
    requires { at < length txns.now }
    ensures cut { spec.runs_of (drop at txns.now)
        ≡ take result (drop at txns.now) ∷ spec.runs_of (drop result (drop at txns.now)) }
    ensures some { 0 < result }
    ensures within { result ≤ length (drop at txns.now) }
{
    let (_, rest) = txns.split_at(at);
    first_run(rest)
}

/// How many of some entries are of the day of the first.
#[tactic(auto, using(crate::proofs::Runs::run_cut, crate::proofs::Runs::some_count, crate::proofs::Runs::within))]
fn first_run(txns: &[Txn]) -> usize
    requires { 0 < length txns.now }
    ensures cut { spec.runs_of txns.now
        ≡ take result txns.now ∷ spec.runs_of (drop result txns.now) }
    ensures some { 0 < result }
    ensures within { result ≤ length txns.now }
{
    let day = txns[0].day.0;
    day_length(txns, day)
}

/// How many of the first entries are of a day.
#[tactic(auto, using(crate::proofs::Runs::counted, crate::proofs::Runs::within))]
fn day_length(txns: &[Txn], day: u32) -> usize
    ensures count { result ≡ prefix_len (λ t. t.day.0 == day) txns.now }
    ensures within { result ≤ length txns.now }
{
    txns.iter().take_while(|txn| txn.day.0 == day).count()
}

/// Turns so many entries from a place on.
fn turn_run(txns: &mut [Txn], at: usize, count: usize)
    requires { at + count ≤ length txns.old }
    ensures { txns.new ≡ take at txns.old
        ++ (reverse (take count (drop at txns.old)) ++ drop count (drop at txns.old)) }
{
    let (_, rest) = txns.split_at_mut(at);
    let (run, _) = rest.split_at_mut(count);
    run.reverse();
}

/// Turns each run of entries of one day.
#[tactic(auto, using(crate::proofs::Runs::one_more, crate::proofs::Runs::all_done))]
fn turn_runs(txns: &mut [Txn])
    ensures { txns.new ≡ spec.turned_runs txns.old }
{
    let mut at = 0;
    while at < txns.len() {
        let count = run_length(txns, at);
        turn_run(txns, at, count);
        at += count;
    }
}

/// Whether the entries of a file are turned: the newest stand first, or the first day is later than
/// the last.
fn is_turned(newest_first: bool, txns: &[Txn]) -> bool
    ensures { result ≡ (newest_first || spec.is_falling txns.now) }
{
    newest_first || is_falling(txns)
}

/// Turns the entries of a file, if they are to be turned.
fn turn_all(turns: bool, txns: &mut Vec<Txn>)
    ensures { txns.new.items ≡ spec.turned turns txns.old.items }
{
    if turns {
        txns.reverse();
    }
}

/// Turns each run of entries of one day, if they are to be turned.
fn turn_days(turns: bool, txns: &mut Vec<Txn>)
    ensures { txns.new.items ≡ spec.days_turned turns txns.old.items }
{
    if turns {
        turn_runs(txns.as_mut_slice());
    }
}

/// Puts the entries of a file in order.
pub(crate) fn put_in_order(settings: Settings, txns: &mut Vec<Txn>) -> Result<(), Memory>
    ensures { OnOk result (txns.new.items ≡ spec.in_order settings txns.old.items) }
{
    let turns = is_turned(settings.newest_first, txns.as_slice());
    turn_all(turns, txns);
    turn_days(settings.reversed_days, txns);
    sort_by_day(txns)
}
