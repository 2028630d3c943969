//! What a book owes to what its text reads as.
ghost use Rattle.std.specs.Prelude.{◌≡◌, ℕ, List, Option, Ok, Err};
ghost use Rattle.book.specs.Postings.{txns_of};
ghost use Rattle.book.specs.declared.fault.Fault.{Fault};
ghost use Rattle.book.specs.declared.item.Book.{Book};
ghost use Rattle.book.specs.declared.item.Placed.{Placed};
ghost use Rattle.journal_reader.specs.Items.{items_in};
ghost use Rattle.balancing.specs.Faults.{IsFaultOf};
ghost use Rattle.balancing.specs.Load.{load};
ghost use Rattle.balancing.specs.Solves.{Solves};

/// The book that a text is loaded to solves what the text reads as, and a book that does is the one that it is loaded
/// to.
pub fn text_solves()
    ensures one { (year : Option ℕ) (text : List ℕ) (items : List Placed) (book : Book)
        → items_in year text ≡ Ok items → load items ≡ Ok book → Solves (txns_of items) book.txns }
    ensures each { (year : Option ℕ) (text : List ℕ) (items : List Placed) (book : Book)
        → items_in year text ≡ Ok items → Solves (txns_of items) book.txns → load items ≡ Ok book }
{}

/// The fault that a text has, if it reads, in place of a book is that of what it reads as, and a fault of this is the
/// one that the text has.
pub fn text_faults()
    ensures one { (year : Option ℕ) (text : List ℕ) (items : List Placed) (fault : Fault)
        → items_in year text ≡ Ok items → load items ≡ Err fault → IsFaultOf (txns_of items) fault }
    ensures each { (year : Option ℕ) (text : List ℕ) (items : List Placed) (fault : Fault)
        → items_in year text ≡ Ok items → IsFaultOf (txns_of items) fault → load items ≡ Err fault }
{}
