//! What an edit of a small text reaches.
ghost use Rattle.std.specs.Prelude.{◌<◌, length};

use crate::entries::{asking, plain, txn_of};
use book::Txn;
use hl_base::{List, Memory};
use reached_walk::{
    ReachFault, Spot, reached_from, solved_as_written, watches_of_a_book, watches_of_a_text,
    watches_of_an_edit,
};
use std::alloc::Global;
use std::test::Fail;
use watchers::Watchers;

/// A transaction of two accounts, of which the first is asked for.
fn asking_txn(alloc: Global, day: u32, account: &str, other: &str) -> Result<Txn, Memory> {
    let first = asking(alloc, account)?;
    let second = plain(alloc, other)?;
    txn_of(alloc, day, first, second)
}

/// One of two accounts that asks for nothing.
fn plain_txn(alloc: Global, day: u32, account: &str, other: &str) -> Result<Txn, Memory> {
    let first = plain(alloc, account)?;
    let second = plain(alloc, other)?;
    txn_of(alloc, day, first, second)
}

/// The first one counts for the second one, which hands on to the last one; the third one has other accounts.
fn four_txns(alloc: Global) -> Result<Vec<Txn>, Memory> {
    let mut txns = Vec::new(alloc);
    txns.push(plain_txn(alloc, 10, "assets:cash", "income")?)?;
    txns.push(asking_txn(alloc, 11, "assets", "food")?)?;
    txns.push(asking_txn(alloc, 12, "bank", "rent")?)?;
    txns.push(asking_txn(alloc, 12, "food", "gifts")?)?;
    Ok(txns)
}

/// What an edit of the first transaction reaches that leaves its accounts.
fn reached_from_first(alloc: Global, txns: &[Txn]) -> Result<List<Spot>, ReachFault>
    requires { 0 < length txns.now }
{
    let watchers = Watchers::of(alloc, txns)?;
    reached_from(alloc, &watchers, 0, txns, txns)
}

/// Their numbers, each as a digit; 0 where a posting is on another day, or there is no transaction.
fn numbers_reached(alloc: Global, txns: &[Txn]) -> Result<u64, Memory> {
    if txns.len() == 0 {
        return Ok(0);
    }
    match reached_from_first(alloc, txns) {
        Ok(spots) => Ok(digits_of(spots.as_slice())),
        Err(ReachFault::Dated) => Ok(0),
        Err(ReachFault::Memory) => Err(Memory),
    }
}

fn digits_of(spots: &[Spot]) -> u64 {
    let mut digits = 0_u64;
    for spot in spots {
        digits = digits.wrapping_mul(10).wrapping_add(spot.number);
    }
    digits
}

#[test]
fn an_edit_is_handed_on(rt: HostRuntime) -> Result<(), Fail> {
    let alloc = rt.alloc();
    solved_as_written();
    watches_of_a_book();
    watches_of_a_text();
    watches_of_an_edit();
    let txns = four_txns(alloc)?;
    assert_eq!(rt; numbers_reached(alloc, txns.as_slice())?, 13);
    Ok(())
}
