//! Transactions in another form.

use book::Txn;
use reached_walk::Spot;

/// A transaction of a book in another form, and where it stands.
#[derive(Debug, Drop)]
pub struct Replaced {
    pub spot: Spot,
    pub txn: Txn,
}
