//! Amounts and postings.
use book::{Amount, Posting, Side, Written};
use hl_base::{Memory, Text};
use hl_num::Dec;
use std::alloc::Global;

/// An amount of so many units of the last place.
pub(crate) fn amount(
    alloc: Global,
    mantissa: i128,
    places: u8,
    symbol: &str,
) -> Result<Amount, Memory> {
    let symbol = Text::copied(alloc, symbol)?;
    match Dec::new(mantissa, places) {
        Some(value) => Ok(Amount {
            symbol,
            value,
            shape: Written {
                left: false,
                spaced: true,
                mark: None,
                group: None,
                first: 3,
                rest: 3,
            },
        }),
        None => Err(Memory),
    }
}

/// A posting that says no more than its amount, if it has one.
pub(crate) fn posting(
    alloc: Global,
    account: &str,
    amount: Option<Amount>,
) -> Result<Posting, Memory> {
    let account = Text::copied(alloc, account)?;
    let mut posting = Posting::plain(alloc, 2, Side::Real, account);
    posting.amount = amount;
    Ok(posting)
}
