//! Days and decimals of the transactions of a text.
ghost use Rattle.std.specs.Prelude.{◌≡◌, ◌^◌, ◌<◌, ℕ, Bool, List, Ok, Option, Some, unwrap_or};
ghost use Rattle.std.specs.List.{slice_get, AllByRecursion};
ghost use Rattle.balancing.specs.Solves.{HaveFew, Solves};
ghost use Rattle.book.specs.Postings.{txns_of};
ghost use Rattle.book.specs.declared.item.Placed.{Placed};
ghost use Rattle.book.specs.declared.transaction.Posting.{Posting};
ghost use Rattle.book.specs.declared.transaction.Txn.{Txn};
ghost use Rattle.book_laws.specs.Decimals.{WriteFew};
ghost use Rattle.book_laws.specs.Reaching.{HasNoPlainReach, HasNoUnmixedReach, IsPlainReach, IsUnmixedReach};
ghost use Rattle.journal_reader.specs.Items.{items_in};
ghost use Rattle.reached_walk.specs.Closed.{Edit};
ghost use Rattle.read_days.specs.Dating.{IsInCalendar};

/// Laws for callers; it does nothing. The transactions of a text that reads are on days of the calendar, and so are their
/// postings (`calendar`); sums of whole days reach all of these (`near`, `postings`).
pub fn days_of_a_text()
    ensures calendar { (year : Option ℕ) (text : List ℕ) (items : List Placed)
        → items_in year text ≡ Ok items
        → AllByRecursion IsInCalendar (txns_of items) }
    ensures near { (year : Option ℕ) (text : List ℕ) (items : List Placed)
        → items_in year text ≡ Ok items
        → (n : ℕ) (txn : Txn) → slice_get (txns_of items) n ≡ Some txn → txn.day.0 < 2 ^ 22 }
    ensures postings { (year : Option ℕ) (text : List ℕ) (items : List Placed)
        → items_in year text ≡ Ok items
        → (n : ℕ) (txn : Txn) → slice_get (txns_of items) n ≡ Some txn
        → AllByRecursion (λ (p : Posting). (unwrap_or p.day txn.day).0 < 2 ^ 22) txn.postings }
{}

/// Laws for callers; it does nothing. No amount that a text writes which reads has more than 36 decimals (`written`), and so
/// none of the book that solves it has (`book`).
pub fn decimals_of_a_text()
    ensures written { (year : Option ℕ) (text : List ℕ) (items : List Placed)
        → items_in year text ≡ Ok items
        → WriteFew (txns_of items) }
    ensures book { (year : Option ℕ) (text : List ℕ) (items : List Placed) (book : List Txn)
        → items_in year text ≡ Ok items
        → Solves (txns_of items) book → HaveFew book }
{}

/// Laws for callers; it does nothing. Where the new text reads, a walk can do an edit wherever it reaches no mixed transaction
/// and replaces no dated one (`plain`), and there is no such reach where a walk can't (`none`).
pub fn reach_of_a_text()
    ensures plain { (year : Option ℕ) (text : List ℕ) (items : List Placed)
        → items_in year text ≡ Ok items
        → (edit : Edit) → edit.after ≡ txns_of items
        → (set : ℕ → Bool) (after : List Txn) → IsUnmixedReach edit set after
        → IsPlainReach edit set after }
    ensures none { (year : Option ℕ) (text : List ℕ) (items : List Placed)
        → items_in year text ≡ Ok items
        → (edit : Edit) → edit.after ≡ txns_of items → HasNoPlainReach edit
        → HasNoUnmixedReach edit }
{}
