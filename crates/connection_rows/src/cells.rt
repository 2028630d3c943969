//! What a journal tells beside its text: sums of accounts before a day, and the bytes of its items.
ghost use Rattle.std.specs.Prelude.{◌≡◌};

use book::DaySums;
use desk::import_again;
use hl_base::{Steps, Text};
use hl_num::Dec;
use hl_time::day_of;
use live_journal::Live;
use std::alloc::Global;
use std::marker::Brand;
use std::sync::ledger::{Blank, Ledger};
use std::test::Fail;

/// A posting that counts from another day than its transaction, and an amount that is assigned two days later.
const SET: &[u8] =
    b"2024-01-05 bread\n    expenses:food  10 EUR\n    assets:cash  -10 EUR  ; date:2024-01-08\n\n2024-01-10 set\n    assets:cash  = 100 EUR\n    equity:start\n";

/// The sum in EUR of an account with its subaccounts before a day of January 2024.
fn sum_before<L: Ledger>(
    alloc: Global,
    live: &Live,
    account: &str,
    day: u8,
    steps: &mut Steps<L>,
) -> Result<Dec, Fail> {
    let account = Text::copied(alloc, account)?;
    let symbol = Text::copied(alloc, "EUR")?;
    match day_of(2024, 1, day) {
        Some(end) => Ok(live.cell(&account, &symbol, end, true, steps)),
        None => Err(Fail::new("a day of January")),
    }
}

/// It is so many EUR.
fn holds<L: Ledger>(
    alloc: Global,
    live: &Live,
    account: &str,
    day: u8,
    mantissa: i128,
    steps: &mut Steps<L>,
) -> Result<(), Fail> {
    let sum = sum_before(alloc, live, account, day, steps)?.trimmed();
    if sum.mantissa != mantissa || sum.places != 0 {
        return Err(Fail::new("the sum before a day"));
    }
    Ok(())
}

/// The sums of a book: a posting counts from its own day.
fn has_sums<L: Ledger>(alloc: Global, live: &Live, steps: &mut Steps<L>) -> Result<(), Fail> {
    holds(alloc, live, "assets", 8, 0, steps)?;
    holds(alloc, live, "assets", 9, -10, steps)?;
    holds(alloc, live, "equity", 11, -110, steps)
}

/// The bytes of the items, put one behind the other, are the text.
fn has_pieces(alloc: Global, live: &Live) -> Result<(), Fail> {
    let mut text = Vec::new(alloc);
    for bytes in live.pieces() {
        text.extend_from_slice(bytes)?;
    }
    if text.as_slice() != live.text() {
        return Err(Fail::new("the text"));
    }
    Ok(())
}

fn opened<L: Ledger>(alloc: Global, blank: Blank, text: &[u8]) -> Result<(), Fail>
    requires name { blank.name ≡ L.name }
    requires parts { blank.parts ≡ L.parts }
    requires three { blank.parts ≡ 3 }
{
    let mut steps = Steps::<L>::start(blank);
    let live = Live::open(alloc, text, None, 0, &mut steps)?;
    has_sums(alloc, &live, &mut steps)?;
    has_pieces(alloc, &live)
}

#[test]
fn sums_before_days(rt: HostRuntime) -> Result<(), Fail> {
    import_again();
    opened::<Brand>(rt.alloc(), Blank::new(3), SET)
}
