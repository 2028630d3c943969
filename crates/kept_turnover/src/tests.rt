//! Rows of what transactions move.
ghost use Rattle.std.specs.Prelude.{◌≡◌, true, IfOk};
ghost use Rattle.entry_balance.specs.Entry.{costs_fit};

use crate::{Turnover, are_told, turnover_is_whole};
use book::{Amount, Boxed, Cost, Mark, Posting, Side, Txn, Written};
use entry_balance::costs_fit;
use hl_base::{List, Memory, Text};
use hl_num::Dec;
use hl_time::Day;
use std::alloc::Global;
use std::test::Fail;

/// `2^126 - 1`.
const HALF: i128 = 85_070_591_730_234_615_865_843_651_857_942_052_863;

fn amount(alloc: Global, mantissa: i128, places: u8, symbol: &str) -> Result<Amount, Memory> {
    let symbol = Text::copied(alloc, symbol)?;
    match Dec::new(mantissa, places) {
        Some(value) => Ok(Amount {
            symbol,
            value,
            shape: Written {
                left: false,
                spaced: true,
                mark: None,
                group: None,
                first: 3,
                rest: 3,
            },
        }),
        None => Err(Memory),
    }
}

fn posting(alloc: Global, mantissa: i128, places: u8, symbol: &str) -> Result<Posting, Memory> {
    let account = Text::copied(alloc, "a")?;
    let amount = amount(alloc, mantissa, places, symbol)?;
    let mut posting = Posting::plain(alloc, 1, Side::Free, account);
    posting.amount = Some(amount);
    Ok(posting)
}

fn txn(alloc: Global, postings: Vec<Posting>) -> Txn
    ensures { result.postings ≡ postings.items }
{
    Txn {
        line: 1,
        day: Day(1),
        mark: Mark::Unmarked,
        code: Text::new(alloc),
        description: Text::new(alloc),
        comment: Text::new(alloc),
        tags: List::new(alloc),
        postings: List::from_vec(postings),
    }
}

/// A transaction whose costs can be told.
fn told(txn: Txn) -> Result<Txn, Memory>
    ensures { IfOk result (λ t. costs_fit t.postings ≡ true) }
{
    if costs_fit(txn.postings.as_slice()) {
        Ok(txn)
    } else {
        Err(Memory)
    }
}

/// `(a)  MANTISSA SYMBOL` with so many decimals.
fn one(alloc: Global, mantissa: i128, places: u8, symbol: &str) -> Result<Txn, Memory>
    ensures { IfOk result (λ t. costs_fit t.postings ≡ true) }
{
    let mut postings = Vec::new(alloc);
    postings.push(posting(alloc, mantissa, places, symbol)?)?;
    told(txn(alloc, postings))
}

/// `(a)  1 A @@ MANTISSA SYMBOL`
fn at_cost(alloc: Global, mantissa: i128, symbol: &str) -> Result<Txn, Memory>
    ensures { IfOk result (λ t. costs_fit t.postings ≡ true) }
{
    let cost = Cost::Total(amount(alloc, mantissa, 0, symbol)?);
    let mut costly = posting(alloc, 1, 0, "A")?;
    costly.cost = Some(Boxed::new(alloc, cost)?);
    let mut postings = Vec::new(alloc);
    postings.push(costly)?;
    told(txn(alloc, postings))
}

/// 2^126 - 1 EUR, and the same with a minus.
fn half(alloc: Global) -> Result<Turnover, Memory> {
    let mut postings = Vec::new(alloc);
    postings.push(posting(alloc, HALF, 0, "EUR")?)?;
    postings.push(posting(alloc, -HALF, 0, "EUR")?)?;
    let mut txns = Vec::new(alloc);
    txns.push(txn(alloc, postings))?;
    if are_told(&txns) {
        Turnover::of(alloc, &txns)
    } else {
        Err(Memory)
    }
}

/// Whether these and one more amount fit.
fn fits_with(alloc: Global, mantissa: i128, places: u8, symbol: &str) -> Result<bool, Memory> {
    let mut turnover = half(alloc)?;
    turnover.add(alloc, &one(alloc, mantissa, places, symbol)?)?;
    Ok(turnover.fits())
}

#[test]
fn fits_up_to_its_bound(rt: HostRuntime) -> Result<(), Fail> {
    turnover_is_whole();
    let alloc = rt.alloc();
    assert!(rt; Turnover::new(alloc).fits());
    assert!(rt; fits_with(alloc, 1, 0, "EUR")?);
    assert!(rt; !fits_with(alloc, 2, 0, "EUR")?);
    assert!(rt; !fits_with(alloc, -2, 0, "EUR")?);
    assert!(rt; !fits_with(alloc, 0, 1, "EUR")?);
    assert!(rt; fits_with(alloc, HALF, 36, "USD")?);
    Ok(())
}

/// Whether what is there, with one more amount, and without it again fits.
fn fits_around(alloc: Global, txn: &Txn) -> Result<(bool, bool, bool), Memory>
    requires { costs_fit txn.now.postings ≡ true }
{
    let mut turnover = half(alloc)?;
    let first = turnover.fits();
    turnover.add(alloc, txn)?;
    let second = turnover.copied()?.fits();
    turnover.remove(txn);
    Ok((first, second, turnover.fits()))
}

#[test]
fn fits_again_without_what_was_too_much(rt: HostRuntime) -> Result<(), Fail> {
    let alloc = rt.alloc();
    let zero = one(alloc, 0, 1, "EUR")?;
    assert_eq!(rt; fits_around(alloc, &zero)?, (true, false, true));
    let far = one(alloc, HALF, 36, "EUR")?;
    assert_eq!(rt; fits_around(alloc, &far)?, (true, false, true));
    let costly = at_cost(alloc, 2, "EUR")?;
    assert_eq!(rt; fits_around(alloc, &costly)?, (true, false, true));
    Ok(())
}

#[test]
fn replaces_one_form_by_another(rt: HostRuntime) -> Result<(), Fail> {
    let alloc = rt.alloc();
    let small = one(alloc, 1, 0, "EUR")?;
    let large = at_cost(alloc, 2, "EUR")?;
    let mut turnover = half(alloc)?;
    turnover.add(alloc, &large)?;
    turnover.replace(alloc, &large, &small)?;
    assert!(rt; turnover.fits());
    turnover.replace(alloc, &small, &large)?;
    assert!(rt; !turnover.fits());
    Ok(())
}
