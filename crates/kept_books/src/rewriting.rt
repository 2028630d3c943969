//! What an edit makes of the transactions of a text.

use book::{Placed, Txn};

/// What an edit makes of the transactions of a text, as they are written: those of some items stand behind the others, or another
/// one stands under a number, which counts transactions from 0.
#[derive(Clone, Copy, Debug, Drop)]
pub enum Rewriting<'a> {
    Behind(&'a [Placed]),
    At { number: usize, txn: &'a Txn },
}
