//! What an edit of a text reaches in its book, and what stays: laws over what it is for a book to solve a text.
#![tactic(auto)]

ghost use Rattle.std.specs.Prelude.{◌≡◌, ℕ, Bool, true, List};
ghost use Rattle.book.specs.declared.transaction.Txn.{Txn};
ghost use Rattle.book.specs.Postings.{postings_of};
ghost use Rattle.entry_balance.specs.Entry.{moved};
ghost use Rattle.entry_balance.specs.Tally.{turnover_fits};
ghost use Rattle.balancing.specs.Solves.{Solves};
ghost use Rattle.reached_entries.specs.Reached.{AreSame, AreSolvedAnew, HandsOn};

/// Transactions of which some are reached by an edit: none else is edited, and none else asks, by an assertion or an
/// assignment, for a balance to which an earlier posting of a reached one counts, in the old book or in the new one.
/// Then the book of the new text has all others as the book of the old text has them. And where the reached ones are
/// solved anew, each by the sums at its places in the new book, that is the book which solves the new text, as long as
/// all that is moved stays in range.
pub fn an_edit_reaches()
    // Two books agree on what isn't reached.
    ensures others { (reached : ℕ → Bool) (old new before after : List Txn)
        → AreSame reached 0 old new → Solves old before → Solves new after
        → HandsOn reached before → HandsOn reached after → AreSame reached 0 before after }
    // The old book with the reached ones solved anew is the new book.
    ensures solved { (reached : ℕ → Bool) (old new before after : List Txn)
        → AreSame reached 0 old new → Solves old before → AreSame reached 0 before after
        → HandsOn reached before → HandsOn reached after → AreSolvedAnew reached after 0 new after
        → turnover_fits (moved (postings_of after)) ≡ true → Solves new after }
{}
