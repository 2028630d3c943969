//! Transactions by their numbers.
ghost use Rattle.std.specs.Prelude.{◌≡◌, List, slice_get};
ghost use Rattle.std.specs.Option.{option_copied};
ghost use Rattle.book.specs.declared.transaction.Txn.{Txn};

use book::Txn;

/// Tells the transactions of a book one by one, as they stand now.
pub trait ByNumber {
    /// The book's transactions, in the order of the text.
    ghost txns: { Self → List Txn };

    /// The transaction with a number, counted from 0, if the book has it.
    fn txn(&self, number: usize) -> Option<&Txn>
        ensures { option_copied result ≡ slice_get (txns self.now) number };
}

impl ByNumber for Vec<Txn> {
    ghost txns = { λ book. book.items };

    fn txn(&self, number: usize) -> Option<&Txn> {
        txn_at(self.as_slice(), number)
    }
}

/// The transaction with a number.
fn txn_at(txns: &[Txn], number: usize) -> Option<&Txn>
    ensures { option_copied result ≡ slice_get txns.now number }
{
    txns.get(number)
}
