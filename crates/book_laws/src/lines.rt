//! What is kept of a book whose lines change.
ghost use Rattle.std.specs.Prelude.{◌≡◌, ℕ, List, map};
ghost use Rattle.book.specs.Bounds.{TurnoverFits};
ghost use Rattle.book.specs.Postings.{postings_of};
ghost use Rattle.book.specs.Standing.{Numbered};
ghost use Rattle.book.specs.declared.transaction.Txn.{Txn};
ghost use Rattle.book_laws.specs.Lines.{relined_under, unlined};
ghost use Rattle.entry_balance.specs.Entry.{moved};
ghost use Rattle.kept_turnover.specs.Keeping.{IsTurnover};
ghost use Rattle.kept_turnover.specs.declared.turnover.Turnover.{Turnover};
ghost use Rattle.live_index.specs.declared.row.Row.{Row};
ghost use Rattle.moved_lines.specs.Relined.{relined};
ghost use Rattle.placed_sums.specs.Numbers.{numbers_on};
ghost use Rattle.placed_sums.specs.Rows.{Stand, rows_of};
ghost use Rattle.shared_days.specs.Days.{AreOf as AreDaysOf};
ghost use Rattle.shared_days.specs.declared.days.SharedDays.{SharedDays};
ghost use Rattle.watchers.specs.Watches.{AreOf, numbered_from, watches_of};
ghost use Rattle.watchers.specs.declared.watch.Watch.{Watch};

/// Laws for callers; it does nothing. A book with other lines has the same postings but for their lines (`postings`), the
/// same rows (`rows`), the same numbers on each day (`days`), and moves the same (`moved`).
pub fn rows_of_any_lines()
    ensures postings { (line : ℕ → ℕ → ℕ) (book : List Txn)
        → map unlined (postings_of (relined line book)) ≡ map unlined (postings_of book) }
    ensures rows { (line : ℕ → ℕ → ℕ) (book : List Txn)
        → rows_of (relined line book) ≡ rows_of book }
    ensures days { (line : ℕ → ℕ → ℕ) (book : List Txn) (day : ℕ)
        → numbers_on day (relined line book) ≡ numbers_on day book }
    ensures moved { (line : ℕ → ℕ → ℕ) (book : List Txn)
        → moved (postings_of (relined line book)) ≡ moved (postings_of book) }
{}

/// Laws for callers; it does nothing. What is kept of a book is kept of it under any lines: the index of its rows (`index`),
/// its days (`days`) and its turnover (`turnover`), of which all stays in range (`fits`).
pub fn kept_of_any_lines()
    ensures index { (line : ℕ → ℕ → ℕ) (rows : List Row) (book : List Txn) → Stand rows book
        → Stand rows (relined line book) }
    ensures days { (line : ℕ → ℕ → ℕ) (days : SharedDays) (book : List Txn)
        → AreDaysOf book days → AreDaysOf (relined line book) days }
    ensures turnover { (line : ℕ → ℕ → ℕ) (turnover : Turnover) (book : List Txn)
        → IsTurnover turnover (moved (postings_of book))
        → IsTurnover turnover (moved (postings_of (relined line book))) }
    ensures fits { (line : ℕ → ℕ → ℕ) (book : List Txn)
        → TurnoverFits (postings_of book) → TurnoverFits (postings_of (relined line book)) }
{}

/// Laws for callers; it does nothing. Transactions that stand under numbers ask for balances at the same places under
/// other lines (`watches`, `are`), and those of a list stand there with them (`numbered`); so the watches of a text are those
/// of the text with other lines (`text`).
pub fn watches_of_any_lines()
    ensures watches { (line : ℕ → ℕ → ℕ) (standing : Numbered Txn)
        → watches_of (relined_under line standing) ≡ watches_of standing }
    ensures are { (line : ℕ → ℕ → ℕ) (standing : Numbered Txn) (watches : List Watch)
        → AreOf standing watches → AreOf (relined_under line standing) watches }
    ensures numbered { (line : ℕ → ℕ → ℕ) (book : List Txn)
        → numbered_from 0 (relined line book) ≡ relined_under line (numbered_from 0 book) }
    ensures text { (line : ℕ → ℕ → ℕ) (text : List Txn) (watches : List Watch)
        → AreOf (numbered_from 0 text) watches
        → AreOf (numbered_from 0 (relined line text)) watches }
{}
