//! What the rows that stand have in common with those that were put in.
ghost use Rattle.std.specs.Prelude.{◌≡◌, ◌++◌, ◌+ℤ◌, ℕ, Bool, List, map};
ghost use Rattle.live_index.specs.declared.row.Row.{Row};
ghost use Rattle.live_index.specs.Rows.{node_sum, sum_before, TurnoverFits};
ghost use Rattle.live_index.specs.Standing.{standing};
ghost use Rattle.live_index.specs.Net.{SameNet, negated_row};

/// Laws of the rows that stand, for callers; it does nothing. Their sums are those of all rows (`node`, `before`), and
/// after more rows a sum is the one before and theirs (`more`). They keep the bound on turnovers where any rows do of
/// which each stands as often, its opposites taken off (`fits`). After rows of a part are negated and others are put
/// in, each row stands as often as in the rows with the new ones in place of the old (`replaced`).
pub fn standing_laws()
    ensures node { (rows : List Row) (account symbol : List ℕ) (below : Bool) (level at : ℕ)
        → node_sum (standing rows) account symbol below level at
        ≡ node_sum rows account symbol below level at }
    ensures before { (rows : List Row) (account symbol : List ℕ) (below : Bool) (end : ℕ)
        → sum_before (standing rows) account symbol below end
        ≡ sum_before rows account symbol below end }
    ensures more { (rows more : List Row) (account symbol : List ℕ) (below : Bool) (end : ℕ)
        → sum_before (standing (rows ++ more)) account symbol below end
        ≡ sum_before (standing rows) account symbol below end
        +ℤ sum_before more account symbol below end }
    ensures fits { (rows put : List Row) → SameNet rows put
        → TurnoverFits rows → TurnoverFits (standing put) }
    ensures replaced { (front old back new put : List Row) → SameNet (front ++ (old ++ back)) put
        → SameNet (front ++ (new ++ back)) (put ++ (map negated_row old ++ new)) }
{}
