//! What is true of transactions that are checked at their places.
ghost use Rattle.std.specs.Prelude.{◌≡◌, ℕ, true, List, Result, Ok};
ghost use Rattle.std.specs.List.{list_all};
ghost use Rattle.book.specs.Postings.{postings_of};
ghost use Rattle.book.specs.SumsBefore.{Place};
ghost use Rattle.book.specs.declared.transaction.Txn.{Txn};
ghost use Rattle.entry_balance.specs.Entry.{moved};
ghost use Rattle.entry_balance.specs.Tally.{turnover_fits};
ghost use Rattle.balancing.specs.Solves.{is_unmarked};
ghost use Rattle.balancing.specs.declared.fault.CheckFault.{CheckFault};
ghost use Rattle.reached_entries.specs.Reached.{IsSolved};
ghost use Rattle.entry_check.specs.Checked.{IsChecked, Others, Told, checked, others_before, told_before};
ghost use Rattle.placed_checks.specs.Judging.{IsThis};
ghost use Rattle.placed_checks.specs.Placed.{AreRight, IsPlaced, SameBefore};

/// Laws for callers; it does nothing. A written transaction that passes its check by what accounts hold before its place
/// in a book, which has it there as it was answered, is solved in the book (`solves`); and what is solved there passes
/// with this answer (`passes`). What `check_one` asks of `Sums` is right in each book that has the same postings before
/// the place as that of the sums (`told`). Of what is solved in such a book, where all that this moves stays in range,
/// `check_one` answers no fault, out of range neither (`answers`).
pub fn a_placed_check()
    ensures solves { (told : Told) (others : Others) (book : List Txn) (n : ℕ)
        (written solved : Txn)
        → IsPlaced told others book n written.day solved
        → list_all is_unmarked written.postings ≡ true
        → checked told others written ≡ Ok solved → IsSolved book n written solved }
    ensures passes { (told : Told) (others : Others) (book : List Txn) (n : ℕ)
        (written solved : Txn)
        → IsPlaced told others book n written.day solved
        → IsSolved book n written solved → checked told others written ≡ Ok solved }
    ensures told { (one two : List Txn) (place : Place) → SameBefore one two place
        → AreRight (told_before one place) (others_before one place) two place }
    ensures answers { (one two : List Txn) (place : Place) (n : ℕ) (written solved : Txn)
        (answer : Result Txn CheckFault)
        → IsPlaced (told_before one place) (others_before one place) two n written.day solved
        → IsSolved two n written solved → turnover_fits (moved (postings_of two)) ≡ true
        → IsChecked (told_before one place) (others_before one place) written answer
        → IsThis solved answer }
{}
