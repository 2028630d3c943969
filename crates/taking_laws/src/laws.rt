//! What a plain report takes of a book whose lines change.
ghost use Rattle.std.specs.Prelude.{◌≡◌, ℕ, List};
ghost use Rattle.book.specs.declared.transaction.Txn.{Txn};
ghost use Rattle.index_cells.specs.Books.{KeepsBook};
ghost use Rattle.index_cells.specs.Posted.{posted_in};
ghost use Rattle.index_cells.specs.declared.kept.Kept.{Kept};
ghost use Rattle.moved_lines.specs.Relined.{relined};

/// Laws for callers; it does nothing. A plain report takes the same of a book with other lines (`taken`), so that what is kept
/// of its sums is kept of that book (`kept`).
pub fn takings_of_any_lines()
    ensures taken { (line : ℕ → ℕ → ℕ) (book : List Txn)
        → posted_in (relined line book) ≡ posted_in book }
    ensures kept { (line : ℕ → ℕ → ℕ) (kept : Kept) (book : List Txn) → KeepsBook book kept
        → KeepsBook (relined line book) kept }
{}
