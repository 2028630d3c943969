//! What is true of books in which a transaction gets another form.
ghost use Rattle.std.specs.Prelude.{◌≡◌, ◌<◌, ◌≤◌, ◌+◌, ◌==◌, ◌++◌, ◌∷◌, [], ℕ, Bool, List, Some, false, true, length, max, set, slice_get};
ghost use Rattle.std.specs.List.{flat_map};
ghost use Rattle.std.specs.Ordering.{nat_cmp};
ghost use Rattle.std.specs.Cmp.Lexicographic.{slice_cmp};
ghost use Rattle.hl_time.specs.declared.day.Day.{Day};
ghost use Rattle.book.specs.Bounds.{places_of, turnover};
ghost use Rattle.book.specs.Order.{each_once};
ghost use Rattle.book.specs.Postings.{postings_of};
ghost use Rattle.book.specs.Sums.{symbol_in, symbols_of};
ghost use Rattle.book.specs.SumsBefore.{Place, is_before, other_before, postings_before, sum_before};
ghost use Rattle.book.specs.declared.transaction.Txn.{Txn};
ghost use Rattle.live_index.specs.declared.row.Row.{Row};
ghost use Rattle.placed_sums.specs.Accounts.{HasSymbols, is_among, is_moved};
ghost use Rattle.placed_sums.specs.Days.{AreDaysOf, numbers_in, places_before};
ghost use Rattle.placed_sums.specs.Numbers.{earlier_on, has_on};
ghost use Rattle.placed_sums.specs.Replaced.{IsWithin, rows_replacing};
ghost use Rattle.placed_sums.specs.Rows.{Stand, rows_of};
ghost use Rattle.placed_sums.specs.declared.on_day.OnDay.{OnDay};

/// Laws for callers; it does nothing. The rows of a book stand for it (`own`), and with the rows of
/// more transactions for the book with these behind it (`more`), so that a blank one changes
/// nothing (`blank`). Where a transaction gets another form, rows that stand for the book do so for
/// the new one with the old form's rows negated and the new form's (`replaced`). Where all postings
/// of both forms are on one day, what comes before any place that isn't after the first posting of
/// that transaction on that day stays: the postings of each account (`postings`), and so its sums
/// (`sums`) and the least other symbol (`others`).
pub fn replacing_laws()
    ensures own { (book : List Txn) → Stand (rows_of book) book }
    ensures more { (rows : List Row) (book more : List Txn) → Stand rows book
        → Stand (rows ++ rows_of more) (book ++ more) }
    ensures blank { (rows : List Row) (book : List Txn) (blank : Txn) → Stand rows book
        → blank.postings ≡ [] → Stand rows (book ++ blank ∷ []) }
    ensures replaced { (rows : List Row) (book : List Txn) (number : ℕ) (old new : Txn)
        → Stand rows book → slice_get book number ≡ Some old
        → Stand (rows ++ rows_replacing old new) (set book number new) }
    ensures postings { (book : List Txn) (number day : ℕ) (old new : Txn) (place : Place)
        (account : List ℕ) (below : Bool)
        → slice_get book number ≡ Some old → IsWithin day old → IsWithin day new
        → is_before (record { day = day; txn = number; posting = 0 }) place ≡ false
        → postings_before (set book number new) account below place
        ≡ postings_before book account below place }
    ensures sums { (book : List Txn) (number day : ℕ) (old new : Txn) (place : Place)
        (account symbol : List ℕ) (below : Bool)
        → slice_get book number ≡ Some old → IsWithin day old → IsWithin day new
        → is_before (record { day = day; txn = number; posting = 0 }) place ≡ false
        → sum_before (set book number new) account symbol below place
        ≡ sum_before book account symbol below place }
    ensures others { (book : List Txn) (number day : ℕ) (old new : Txn) (place : Place)
        (account symbol : List ℕ) (below : Bool)
        → slice_get book number ≡ Some old → IsWithin day old → IsWithin day new
        → is_before (record { day = day; txn = number; posting = 0 }) place ≡ false
        → other_before (set book number new) account symbol below place
        ≡ other_before book account symbol below place }
{}

/// Laws for callers; it does nothing. The symbols of a book's amounts serve it (`own`). Those of
/// more transactions, put among symbols that serve a book, serve the book with these behind it
/// (`wider`). Symbols that have those of a transaction's new form, but for amounts of zero, serve the
/// book in which it gets this form (`replaced`).
pub fn symbol_laws()
    ensures own { (book : List Txn) → HasSymbols (symbols_of (postings_of book)) book }
    ensures wider { (symbols wider : List (List ℕ)) (book more : List Txn) → HasSymbols symbols book
        → wider ≡ each_once (slice_cmp nat_cmp)
        (symbols ++ flat_map (λ p. symbol_in p.amount) (postings_of more))
        → HasSymbols wider (book ++ more) }
    ensures replaced { (symbols : List (List ℕ)) (book : List Txn) (number : ℕ) (old new : Txn)
        → HasSymbols symbols book → slice_get book number ≡ Some old
        → ((symbol : List ℕ) → is_moved symbol new.postings ≡ true
        → is_among symbol symbols ≡ true)
        → HasSymbols symbols (set book number new) }
{}

/// Laws for callers; it does nothing. What `Days::before` answers serves `SumsAt` (`earlier`). The
/// days stay where a transaction gets another form with postings on the same days (`stays`), and
/// where a blank one comes behind all (`blank`). A transaction with postings, all on one day, has
/// one on this day alone (`one`).
pub fn day_laws()
    ensures earlier { (places : List OnDay) (book : List Txn) (day : Day) (number : ℕ)
        → AreDaysOf places book
        → numbers_in (places_before day number places) ≡ earlier_on day.0 number book }
    ensures stays { (places : List OnDay) (book : List Txn) (number : ℕ) (old new : Txn)
        → AreDaysOf places book → slice_get book number ≡ Some old
        → ((day : ℕ) → has_on day new ≡ has_on day old)
        → AreDaysOf places (set book number new) }
    ensures blank { (places : List OnDay) (book : List Txn) (blank : Txn)
        → AreDaysOf places book → blank.postings ≡ []
        → AreDaysOf places (book ++ blank ∷ []) }
    ensures one { (day : ℕ) (txn : Txn) (other : ℕ) → IsWithin day txn
        → 0 < length txn.postings → has_on other txn ≡ (day == other) }
{}

/// Laws for callers; it does nothing. Where a transaction gets another form a book moves at most
/// what it moved and what this form moves (`moves`), and has at most as many decimals as both
/// (`places`): so a caller who keeps both can tell that the book's amounts stay in range.
pub fn bound_laws()
    ensures moves { (symbol : List ℕ) (book : List Txn) (number : ℕ) (new : Txn)
        → turnover symbol (postings_of (set book number new))
        ≤ turnover symbol (postings_of book) + turnover symbol new.postings }
    ensures places { (symbol : List ℕ) (book : List Txn) (number : ℕ) (new : Txn)
        → places_of symbol (postings_of (set book number new))
        ≤ max (places_of symbol (postings_of book)) (places_of symbol new.postings) }
{}
