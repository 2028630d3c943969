//! What the watches of a book are.
ghost use Rattle.std.specs.Prelude.{◌≡◌, List};
ghost use Rattle.std.specs.List.{flat_map};
ghost use Rattle.book.specs.SumsBefore.{placed_from};
ghost use Rattle.book.specs.declared.transaction.Txn.{Txn};
ghost use Rattle.watchers.specs.Watches.{numbered_from, watch_at, watches_of};

/// The watches of a book's transactions under their places are those of its postings at the places at which balances
/// are asked for.
pub fn watches_of_a_book()
    ensures { (txns : List Txn)
        → watches_of (numbered_from 0 txns) ≡ flat_map watch_at (placed_from 0 txns) }
{}
