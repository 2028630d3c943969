//! What is kept of a book, and what a walk counts, where later transactions have moved.
ghost use Rattle.std.specs.Prelude.{◌≡◌, ℕ, Bool, List, Result, drop};
ghost use Rattle.std.specs.List.{AllByRecursion};
ghost use Rattle.additions.specs.Asked.{has_assigned, last_asked};
ghost use Rattle.additions.specs.Kept.{IsBookEnd};
ghost use Rattle.additions.specs.declared.book_end.BookEnd.{BookEnd};
ghost use Rattle.book.specs.declared.item.Placed.{Placed};
ghost use Rattle.book.specs.declared.transaction.Txn.{Txn};
ghost use Rattle.hl_base.specs.Counts.{Counts};
ghost use Rattle.kept_books.specs.Counting.{AsksWritten, ChecksFew};
ghost use Rattle.kept_books.specs.Keeping.{IsOf};
ghost use Rattle.kept_books.specs.declared.kept.KeptBook.{KeptBook};
ghost use Rattle.moved_lines.specs.Moving.{CanMoveTxn, moved_from};
ghost use Rattle.moved_lines.specs.Relined.{relined};
ghost use Rattle.moved_lines.specs.declared.shift.Shift.{Shift};
ghost use Rattle.reached_walk.specs.Closed.{edits_of};
ghost use Rattle.walked_edits.specs.declared.fault.WalkFault.{WalkFault};
ghost use Rattle.walked_texts.specs.Making.{Answers, AreParts};
ghost use Rattle.walked_texts.specs.declared.making.Parts.{Parts};

/// Laws for callers; it does nothing. Where later transactions of a text have moved by what a change removed and added, what
/// is kept of its book is kept of the book with these moved (`kept`), and what a walk of the text as it stood checked and
/// asked was no more than the edit reaches in the text as it stands (`checked`, `asked`).
pub fn walks_of_moved_lines()
    ensures kept { (n : ℕ) (by : Shift) (written book : List Txn) (kept : KeptBook)
        → IsOf written book kept
        → IsOf (moved_from n by written) (moved_from n by book) kept }
    ensures checked { (n : ℕ) (by : Shift)
        (edited : ℕ → Bool) (before after : List Txn) (old new : Counts)
        → ChecksFew (edits_of edited before after) old new
        → ChecksFew (edits_of edited before (moved_from n by after)) old new }
    ensures asked { (n : ℕ) (by : Shift)
        (edited : ℕ → Bool) (before after : List Txn) (old new : Counts)
        → AsksWritten (edits_of edited before after) old new
        → AsksWritten (edits_of edited before (moved_from n by after)) old new }
{}

/// Laws for callers; it does nothing. A book asks for balances on the same last day under any lines (`last`), and has assigned
/// amounts where it had some (`assigned`); so what is kept of its end is kept of it with later transactions moved (`end`).
pub fn ends_of_moved_lines()
    ensures last { (line : ℕ → ℕ → ℕ) (book : List Txn)
        → last_asked (relined line book) ≡ last_asked book }
    ensures assigned { (line : ℕ → ℕ → ℕ) (book : List Txn)
        → has_assigned (relined line book) ≡ has_assigned book }
    ensures end { (n : ℕ) (by : Shift) (book : List Txn) (end : BookEnd) → IsBookEnd book end
        → IsBookEnd (moved_from n by book) end }
{}

/// A law for callers; it does nothing. What comes of a walk of the text as it stood, with its causes and counts, comes of the edit
/// of the text as it stands, whose later transactions have moved.
pub fn answers_of_moved_lines()
    ensures { (items : List Placed) (book : List Txn) (answer : Result Parts WalkFault)
        (n : ℕ) (by : Shift) (edited : ℕ → Bool) (before after : List Txn) (old new : Counts)
        → AllByRecursion (CanMoveTxn by) (drop n after)
        → Answers (edits_of edited before after) (AreParts items book) answer old new
        → Answers (edits_of edited before (moved_from n by after))
        (AreParts items book) answer old new }
{}
