//! What is true of the book that a text is loaded to, and of its fault.
ghost use Rattle.std.specs.Prelude.{◌≡◌, ℕ, Bool, true, List, Ok, Err};
ghost use Rattle.hl_num.specs.Decimal.{units_of};
ghost use Rattle.book.specs.declared.fault.Fault.{Fault};
ghost use Rattle.book.specs.declared.item.Book.{Book};
ghost use Rattle.book.specs.declared.item.Placed.{Placed};
ghost use Rattle.book.specs.declared.transaction.Txn.{Txn};
ghost use Rattle.book.specs.Postings.{txns_of};
ghost use Rattle.book.specs.SumsBefore.{Place, sum_before, other_before};
ghost use Rattle.entry_balance.specs.Tally.{total_of};
ghost use Rattle.balancing.specs.Faults.{IsFaultOf};
ghost use Rattle.balancing.specs.Load.{load};
ghost use Rattle.balancing.specs.Solves.{Solves, HaveFew, are_unmarked, symbol_beside, values_before};

/// The book that items are loaded to solves their transactions, where nothing in them is marked as found, as in what
/// is read. A book that solves them is the one that they are loaded to, and at most one does.
pub fn solves()
    ensures one { (items : List Placed) (book : Book)
        → are_unmarked (txns_of items) ≡ true → load items ≡ Ok book
        → Solves (txns_of items) book.txns }
    ensures each { (items : List Placed) (book : Book) → Solves (txns_of items) book.txns
        → load items ≡ Ok book }
    ensures only { (written a b : List Txn) → Solves written a → Solves written b → a ≡ b }
{}

/// The fault that items have in place of a book is that of the first group, by day and then by transaction, that has
/// one by its place, where nothing in them is marked as found. Items with such a fault have no book, but this fault;
/// and they have at most one.
pub fn faults()
    ensures one { (items : List Placed) (fault : Fault)
        → are_unmarked (txns_of items) ≡ true → load items ≡ Err fault
        → IsFaultOf (txns_of items) fault }
    ensures each { (items : List Placed) (fault : Fault) → IsFaultOf (txns_of items) fault
        → load items ≡ Err fault }
    ensures only { (written : List Txn) (a b : Fault) → IsFaultOf written a → IsFaultOf written b
        → a ≡ b }
{}

/// The sums at a place by which a book solves what is written are those of the book in units of 10^-36, where no
/// amount has more than 36 decimals; and so is the least other symbol whose sum isn't zero.
pub fn sums_at_places()
    ensures sum { (book : List Txn) (account symbol : List ℕ) (below : Bool) (place : Place)
        → HaveFew book
        → units_of (total_of symbol (values_before book account below place))
        ≡ sum_before book account symbol below place }
    ensures other { (book : List Txn) (account symbol : List ℕ) (below : Bool) (place : Place)
        → HaveFew book
        → symbol_beside symbol (values_before book account below place)
        ≡ other_before book account symbol below place }
{}
