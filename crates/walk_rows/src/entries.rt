//! Transactions of two postings, as rows make them.
use book::{Amount, Assertion, Boxed, Mark, Posting, Side, Txn, Written};
use hl_base::{List, Memory, Text};
use hl_num::Dec;
use hl_time::Day;
use std::alloc::Global;

/// So many euros.
pub(crate) fn euros(alloc: Global, count: i128) -> Result<Amount, Memory> {
    let symbol = Text::copied(alloc, "EUR")?;
    match Dec::new(count, 0) {
        Some(value) => Ok(Amount {
            symbol,
            value,
            shape: Written {
                left: false,
                spaced: true,
                mark: None,
                group: None,
                first: 3,
                rest: 3,
            },
        }),
        None => Err(Memory),
    }
}

/// A posting of an account: `ACCOUNT`
pub(crate) fn plain(alloc: Global, account: &str) -> Result<Posting, Memory> {
    let name = Text::copied(alloc, account)?;
    Ok(Posting::plain(alloc, 2, Side::Real, name))
}

/// A posting that assigns the balance of its account with its subaccounts: `ACCOUNT  =* 0 EUR`
pub(crate) fn asking(alloc: Global, account: &str) -> Result<Posting, Memory> {
    let assertion = Assertion {
        amount: euros(alloc, 0)?,
        only: false,
        below: true,
    };
    let mut posting = plain(alloc, account)?;
    posting.wanted = Some(Boxed::new(alloc, assertion)?);
    Ok(posting)
}

/// A transaction of two postings.
pub(crate) fn txn_of(
    alloc: Global,
    day: u32,
    first: Posting,
    second: Posting,
) -> Result<Txn, Memory> {
    let mut postings = Vec::new(alloc);
    postings.push(first)?;
    postings.push(second)?;
    Ok(Txn {
        line: 1,
        day: Day(day),
        mark: Mark::Unmarked,
        code: Text::new(alloc),
        description: Text::new(alloc),
        comment: Text::new(alloc),
        tags: List::new(alloc),
        postings: List::from_vec(postings),
    })
}
