//! What an edit reaches in a text whose lines change.
ghost use Rattle.std.specs.Prelude.{◌≡◌, ℕ, Bool, List, Option, Some, drop, filter, length, map, sum_by};
ghost use Rattle.std.specs.List.{range_with_len, slice_get, AllByRecursion};
ghost use Rattle.book.specs.declared.transaction.Posting.{Posting};
ghost use Rattle.book.specs.declared.transaction.Txn.{Txn};
ghost use Rattle.book_laws.specs.Reaching.{HasNoPlainReach, IsPlainReach};
ghost use Rattle.entry_check.specs.Asking.{Asks, nodes_asked};
ghost use Rattle.moved_lines.specs.Moving.{CanMoveTxn, back, moved_from};
ghost use Rattle.moved_lines.specs.Relined.{relined, relined_posting, relined_txn};
ghost use Rattle.moved_lines.specs.declared.shift.Shift.{Shift};
ghost use Rattle.placed_checks.specs.Unmixed.{is_unmixed};
ghost use Rattle.reached_walk.specs.Apart.{is_dated};
ghost use Rattle.reached_walk.specs.Closed.{IsClosed, edits_of, size_in};

/// Laws for callers; it does nothing. A transaction is dated (`dated`) and mixed (`unmixed`) whatever its lines are, and its
/// check asks as many nodes (`nodes`). What transactions weigh whatever their lines are those of a set weigh under any lines
/// (`weights`).
pub fn forms_of_any_lines()
    ensures dated { (line : ℕ → ℕ) (txn : Txn) → is_dated (relined_txn line txn) ≡ is_dated txn }
    ensures unmixed { (line : ℕ → ℕ) (txn : Txn)
        → is_unmixed (relined_txn line txn) ≡ is_unmixed txn }
    ensures nodes { (line : ℕ → ℕ) (sum other : Asks) (postings : List Posting)
        → nodes_asked sum other (map (relined_posting line) postings)
        ≡ nodes_asked sum other postings }
    ensures weights { (line : ℕ → ℕ → ℕ) (weight : Option Txn → ℕ)
        (set : ℕ → Bool) (txns : List Txn)
        → ((other : ℕ → ℕ) (txn : Txn) → weight (Some (relined_txn other txn)) ≡ weight (Some txn))
        → sum_by (λ n. weight (slice_get (relined line txns) n))
        (filter set (range_with_len 0 (length (relined line txns))))
        ≡ sum_by (λ n. weight (slice_get txns n)) (filter set (range_with_len 0 (length txns))) }
{}

/// Laws for callers; it does nothing. A set is closed under what its members hand on whatever lines the new text has
/// (`closed`, `back`), and holds as many of its transactions (`size`). What a walk can do it can do under any lines (`plain`).
pub fn reach_of_any_lines()
    ensures closed { (line : ℕ → ℕ → ℕ) (edited : ℕ → Bool) (before after : List Txn)
        (set : ℕ → Bool)
        → IsClosed (edits_of edited before after) set
        → IsClosed (edits_of edited before (relined line after)) set }
    ensures back { (line : ℕ → ℕ → ℕ) (edited : ℕ → Bool) (before after : List Txn) (set : ℕ → Bool)
        → IsClosed (edits_of edited before (relined line after)) set
        → IsClosed (edits_of edited before after) set }
    ensures size { (line : ℕ → ℕ → ℕ) (set : ℕ → Bool) (txns : List Txn)
        → size_in set (relined line txns) ≡ size_in set txns }
    ensures plain { (line : ℕ → ℕ → ℕ) (edited : ℕ → Bool) (before after : List Txn)
        (set : ℕ → Bool) (book : List Txn)
        → IsPlainReach (edits_of edited before after) set book
        → IsPlainReach (edits_of edited before (relined line after)) set (relined line book) }
{}

/// Laws for callers; it does nothing. The same where later transactions of the new text have moved by what a change removed
/// and added. So a set is closed where it is closed in the text as it stood (`closed`, `unmoved`), and holds as many of its
/// transactions (`size`). What a walk can do in the text as it stands it can do where none of it moved (`plain`), and where it
/// can't do it there it can't here (`none`).
pub fn reach_of_moved_lines()
    ensures closed { (n : ℕ) (by : Shift) (edited : ℕ → Bool) (before after : List Txn)
        (set : ℕ → Bool)
        → IsClosed (edits_of edited before after) set
        → IsClosed (edits_of edited before (moved_from n by after)) set }
    ensures unmoved { (n : ℕ) (by : Shift) (edited : ℕ → Bool) (before after : List Txn)
        (set : ℕ → Bool)
        → IsClosed (edits_of edited before (moved_from n by after)) set
        → IsClosed (edits_of edited before after) set }
    ensures size { (n : ℕ) (by : Shift) (set : ℕ → Bool) (txns : List Txn)
        → size_in set (moved_from n by txns) ≡ size_in set txns }
    ensures plain { (n : ℕ) (by : Shift) (edited : ℕ → Bool) (before after : List Txn)
        (set : ℕ → Bool) (book : List Txn)
        → AllByRecursion (CanMoveTxn by) (drop n after)
        → IsPlainReach (edits_of edited before (moved_from n by after)) set book
        → IsPlainReach (edits_of edited before after) set (moved_from n (back by) book) }
    ensures none { (n : ℕ) (by : Shift) (edited : ℕ → Bool) (before after : List Txn)
        → AllByRecursion (CanMoveTxn by) (drop n after)
        → HasNoPlainReach (edits_of edited before after)
        → HasNoPlainReach (edits_of edited before (moved_from n by after)) }
{}
