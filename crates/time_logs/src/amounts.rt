//! Transactions of hours.
ghost use Rattle.std.specs.Prelude.{◌≡◌, ◌<◌, ◌^◌, ◌∷◌, [], IfOk};
ghost use Rattle.time_logs.specs.Days as spec;

use book::{Amount, Mark, Posting, Side, Txn, Written};
use hl_base::{List, Memory, Text};
use hl_num::{Dec, div_round};
use hl_time::Day;
use std::alloc::Global;

/// Seconds as hours, half to even at two decimals.
pub fn hours_of(seconds: u128) -> Dec
    requires { seconds < 2 ^ 100 }
    ensures { result ≡ spec.hours_of seconds }
{
    match div_round(seconds as i128, 3600, 2) {
        Ok(hours) => hours,
        Err(_) => unreachable!(),
    }
}

/// An amount of hours: `h` to the right without a space.
fn hours(alloc: Global, value: Dec) -> Result<Amount, Memory>
    ensures { IfOk result (λ amount. amount ≡ spec.hours value) }
{
    Ok(Amount {
        symbol: Text::copied(alloc, "h")?,
        value,
        shape: Written {
            left: false,
            spaced: false,
            mark: Some(b'.'),
            group: None,
            first: 3,
            rest: 3,
        },
    })
}

/// Hours on an account: a free virtual posting.
pub fn hours_posting(alloc: Global, line: u64, account: Text, value: Dec) -> Result<Posting, Memory>
    ensures { IfOk result (λ posting. posting ≡ spec.hours_posting line account value) }
{
    let amount = hours(alloc, value)?;
    let mut posting = Posting::plain(alloc, line, Side::Free, account);
    posting.amount = Some(amount);
    Ok(posting)
}

/// A cleared transaction.
pub fn hours_entry(
    alloc: Global,
    line: u64,
    day: Day,
    description: Text,
    postings: List<Posting>,
) -> Txn
    ensures { result ≡ spec.hours_entry line day.0 description postings }
{
    Txn {
        line,
        day,
        mark: Mark::Cleared,
        code: Text::new(alloc),
        description,
        comment: Text::new(alloc),
        tags: List::new(alloc),
        postings,
    }
}

/// A list of one posting.
pub fn one_posting(alloc: Global, posting: Posting) -> Result<List<Posting>, Memory>
    ensures { IfOk result (λ postings. postings ≡ posting ∷ []) }
{
    let mut postings = Vec::with_capacity(alloc, 1)?;
    postings.push(posting)?;
    Ok(List::from_vec(postings))
}
