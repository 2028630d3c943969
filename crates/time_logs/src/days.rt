//! The hours of sessions, day by day.
ghost use Rattle.std.specs.Prelude.{◌≡◌, ◌≤◌, ◌+◌, ◌++◌, ◌∷◌, [], IfOk, OnOk};
ghost use Rattle.std.specs.List.{flat_map};
ghost use Rattle.hl_time.specs.Calendar.{IsDay, last_day};
ghost use Rattle.time_logs.specs.Days as spec;

use crate::amounts::{hours_entry, hours_of, hours_posting, one_posting};
use crate::sessions::Session;
use book::Txn;
use hl_base::{Memory, Text};
use hl_time::Day;
use std::alloc::Global;

/// The seconds of a day.
const DAY_SECONDS: u64 = 86_400;

/// The number of the day on which a second lies.
fn day_at(second: u64) -> u64
    ensures { result ≡ spec.day_at second }
{
    second / DAY_SECONDS + 1
}

/// How many of a session's seconds lie on a day.
fn seconds_on(session: &Session, day: u64) -> u64
    requires { IsDay day }
    ensures { result ≡ spec.seconds_on session.now day }
{
    let from = session.from.second().max((day - 1) * DAY_SECONDS);
    let until = session.until.second().min(day * DAY_SECONDS);
    until.saturating_sub(from)
}

/// The day on which a session begins, and on how many days it has a second; 1 where it has none.
fn first_day_and_count(session: &Session) -> (u64, u64)
    ensures first { result.0 ≡ spec.day_at session.now.from }
    ensures count { result.1 ≡ spec.day_count session.now }
    ensures last { result.0 + result.1 ≤ last_day + 1 }
{
    let from = session.from.second();
    let last = from.max(session.until.second().saturating_sub(1));
    let first = day_at(from);
    (first, day_at(last) - first + 1)
}

/// A session's transaction of a day.
fn entry_on(alloc: Global, session: &Session, day: u64) -> Result<Txn, Memory>
    requires { IsDay day }
    ensures { IfOk result (λ txn. txn ≡ spec.entry_on session.now day) }
{
    let account = Text::copied(alloc, session.account.as_str())?;
    let hours = hours_of(u128::from(seconds_on(session, day)));
    let posting = hours_posting(alloc, session.line, account, hours)?;
    let description = Text::copied(alloc, session.description.as_str())?;
    let postings = one_posting(alloc, posting)?;
    Ok(hours_entry(alloc, session.line, Day(day as u32), description, postings))
}

/// Appends a session's transaction of a day.
fn push_entry(alloc: Global, txns: &mut Vec<Txn>, session: &Session, day: u64) -> Result<(), Memory>
    requires { IsDay day }
    ensures { OnOk result (txns.new.items ≡ txns.old.items ++ spec.entry_on session.now day ∷ []) }
{
    txns.push(entry_on(alloc, session, day)?)?;
    Ok(())
}

/// Appends a transaction for each day of a session.
fn push_days(alloc: Global, txns: &mut Vec<Txn>, session: &Session) -> Result<(), Memory>
    ensures { OnOk result (txns.new.items ≡ txns.old.items ++ spec.entries_of session.now) }
{
    let (first, count) = first_day_and_count(session);
    for day in first..first + count {
        push_entry(alloc, txns, session, day)?;
    }
    Ok(())
}

/// Appends a transaction for each day of each session.
pub fn push_entries(alloc: Global, txns: &mut Vec<Txn>, sessions: &[Session]) -> Result<(), Memory>
    ensures { OnOk result (txns.new.items ≡ txns.old.items
        ++ flat_map spec.entries_of sessions.now) }
{
    for session in sessions {
        push_days(alloc, txns, session)?;
    }
    Ok(())
}

/// How many transactions these are, or the greatest number that is told.
pub fn days_in(sessions: &[Session]) -> u64
    ensures { result ≡ spec.days_in sessions.now }
{
    let mut days: u64 = 0;
    for session in sessions {
        let (_, count) = first_day_and_count(session);
        days = days.saturating_add(count);
    }
    days
}
