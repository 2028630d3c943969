//! What it means that entries are put behind a text.
ghost use Rattle.std.specs.Prelude.{◌≡◌, ◌++◌, ℕ, Bool, false, List, Ok, Option, Some, map, true};
ghost use Rattle.std.specs.List.{AllByRecursion};
ghost use Rattle.hl_base.specs.Items.{items_of};
ghost use Rattle.book.specs.Postings.{postings_of};
ghost use Rattle.book.specs.declared.item.Book.{Book};
ghost use Rattle.book.specs.declared.item.Placed.{Placed};
ghost use Rattle.book.specs.declared.transaction.Txn.{Txn};
ghost use Rattle.entry_balance.specs.Entry.{moved, settled};
ghost use Rattle.entry_balance.specs.Tally.{turnover_fits};
ghost use Rattle.entry_balance.specs.Values.{Value};
ghost use Rattle.balancing.specs.Load.{load};
ghost use Rattle.journal_reader.specs.Items.{items_in};
ghost use Rattle.kept_turnover.specs.Keeping.{are_told};
ghost use Rattle.text_ends.specs.Ends.{end_of};
ghost use Rattle.text_ends.specs.Growth.{goes_behind, put_behind};
ghost use Rattle.text_ends.specs.Told.{as_told, is_head, told_behind};
ghost use Rattle.additions.specs.Adding.{added};
ghost use Rattle.additions.specs.Apart.{IsQuietEntry};
ghost use Rattle.additions.specs.Asked.{has_assigned, last_asked};
ghost use Rattle.additions.specs.Coming.{added_to_book, comes_to};
ghost use Rattle.additions.specs.Meaning.{IsWhole};

/// Where an entry is added to a text, what is put there may stand behind it, whatever the text ends with (`behind`). Where the
/// entry has no directive, all that comes of it is told: what it comes to, or the fault of the whole (`told`).
pub fn added_goes_behind()
    ensures behind { (year : Option ℕ) (text entry : List ℕ) (items : List Placed)
        → goes_behind (end_of year text items) (added text entry) ≡ true }
    ensures told { (year : Option ℕ) (text entry : List ℕ) (items : List Placed)
        → AllByRecursion (λ p. is_head p.kind ≡ false) (items_of entry)
        → told_behind (end_of year text items) (added text entry)
        ≡ as_told (put_behind (end_of year text items) (added text entry)) }
{}

/// What is put behind a book is told where none of the new transactions has an assertion or an assignment, none is of a day
/// before the last one on which the book has one, each is balanced, and all that the book moves with them stays in range: as
/// balancing leaves them. Others may be told too.
pub fn quiet_entries_are_told()
    ensures { (asked : ℕ) (assigned : Bool) (moves : List Value) (txns : List Txn)
        → AllByRecursion (IsQuietEntry asked) txns
        → turnover_fits (moves ++ moved (postings_of (map settled txns))) ≡ true
        → added_to_book asked assigned moves txns ≡ Ok (Some (map settled txns)) }
{}

/// All costs of the book that a text is loaded to can be told, so that what is kept of it can be made.
pub fn books_are_told()
    ensures { (year : Option ℕ) (text : List ℕ) (items : List Placed) (book : Book)
        → items_in year text ≡ Ok items
        → load items ≡ Ok book → are_told book.txns ≡ true }
{}

/// A load of a text with bytes behind it gives what a load of the text gives, and what its definition says that they come to: the
/// items of the text and those that were read; where more is told, its transactions and these; or the fault that is told.
pub fn additions_add()
    ensures { (year : Option ℕ) (text bytes : List ℕ) (items : List Placed) (book : List Txn)
        → items_in year text ≡ Ok items → load items ≡ Ok (record { txns = book })
        → goes_behind (end_of year text items) bytes ≡ true
        → IsWhole year text bytes items book
        (comes_to (end_of year text items) (last_asked book) (has_assigned book)
        (moved (postings_of book)) bytes) }
{}
