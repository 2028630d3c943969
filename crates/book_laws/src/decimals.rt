//! Decimals of a book and of its text.
ghost use Rattle.std.specs.Prelude.{List};
ghost use Rattle.balancing.specs.Solves.{HaveFew, Solves};
ghost use Rattle.book.specs.declared.transaction.Txn.{Txn};
ghost use Rattle.book_laws.specs.Decimals.{WriteFew};

/// A law for callers; it does nothing. No amount of a book has more than 36 decimals where none has that the text writes which it
/// solves: whatever is found or assigned has no more than what it comes from.
pub fn decimals_of_a_book()
    ensures { (text book : List Txn) → Solves text book → WriteFew text → HaveFew book }
{}
