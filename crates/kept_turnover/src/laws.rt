//! What a turnover says of a book.
ghost use Rattle.std.specs.Prelude.{◌≡◌, ◌<◌, ◌+◌, ◌*◌, ◌^◌, ◌↔◌, ℕ, List, true};
ghost use Rattle.book.specs.Bounds.{TurnoverFits};
ghost use Rattle.book.specs.declared.transaction.Posting.{Posting};
ghost use Rattle.entry_balance.specs.Entry.{moved};
ghost use Rattle.entry_balance.specs.Tally.{turnover_fits};
ghost use Rattle.entry_balance.specs.Values.{Value};
ghost use Rattle.kept_turnover.specs.Keeping.{IsTurnover, part_in, sum_in};
ghost use Rattle.kept_turnover.specs.Moved.{AreFew, count_at, moved_at, turnover_in};
ghost use Rattle.kept_turnover.specs.declared.turnover.Turnover.{Turnover};

/// Laws of turnovers; it does nothing. What values move stays within the bound exactly where in each symbol it sums to less
/// than 2^127, in units of the greatest number of decimals (`fits`). Where what postings move stays within it, their amounts
/// are in range too (`range`). A turnover tells how many amounts of a symbol have a
/// number of decimals, and what they sum to (`count`, `sum`).
pub fn turnover_is_whole()
    ensures fits { (values : List Value) → AreFew values
        → (turnover_fits values ≡ true) ↔ ((symbol : List ℕ)
        → turnover_in symbol values < 2 ^ 127) }
    ensures range { (ps : List Posting) → AreFew (moved ps) → turnover_fits (moved ps) ≡ true
        → TurnoverFits ps }
    ensures count { (t : Turnover) (values : List Value) → IsTurnover t values
        → (symbol : List ℕ) (n : ℕ)
        → (part_in t.symbols symbol n).count ≡ count_at symbol values n }
    ensures sum { (t : Turnover) (values : List Value) → IsTurnover t values
        → (symbol : List ℕ) (n : ℕ)
        → sum_in (part_in t.symbols symbol n) ≡ moved_at symbol values n }
{}
