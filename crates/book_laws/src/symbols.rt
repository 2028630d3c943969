//! Symbols of a book and of its text.
ghost use Rattle.std.specs.Prelude.{◌≡◌, ◌++◌, ℕ, List, true};
ghost use Rattle.balancing.specs.Solves.{HaveFew, Solves};
ghost use Rattle.book.specs.Postings.{postings_of};
ghost use Rattle.book.specs.declared.transaction.Txn.{Txn};
ghost use Rattle.book_laws.specs.Writing.{symbols_at, symbols_written};
ghost use Rattle.moved_lines.specs.Relined.{relined};
ghost use Rattle.placed_sums.specs.Accounts.{HasSymbols, is_among, is_moved};

/// Laws for callers; it does nothing. The symbol of each amount of a book that isn't zero is written in the text that the book
/// solves: in an amount, in a cost, or in a balance that is asserted or assigned (`written`). So the symbols that the text
/// writes serve the book (`own`), and so do those of the text before or behind other transactions (`before`, `behind`).
pub fn symbols_of_a_book()
    ensures written { (text book : List Txn) (symbol : List ℕ) → Solves text book
        → is_moved symbol (postings_of book) ≡ true
        → is_among symbol (symbols_at text) ≡ true }
    ensures own { (text book : List Txn) → Solves text book
        → HasSymbols (symbols_written text) book }
    ensures before { (text more book : List Txn) → Solves text book
        → HasSymbols (symbols_written (text ++ more)) book }
    ensures behind { (text more book : List Txn) → Solves text book
        → HasSymbols (symbols_written (more ++ text)) book }
{}

/// Laws for callers; it does nothing. Under any lines a text writes the same symbols (`written`), beside other transactions
/// too (`beside`), and a book moves the same ones (`moved`), so that symbols that serve it go on doing so (`serve`); and its
/// amounts have as few decimals (`few`).
pub fn symbols_of_any_lines()
    ensures written { (line : ℕ → ℕ → ℕ) (text : List Txn)
        → symbols_at (relined line text) ≡ symbols_at text }
    ensures beside { (line : ℕ → ℕ → ℕ) (others text : List Txn)
        → symbols_written (others ++ relined line text) ≡ symbols_written (others ++ text) }
    ensures moved { (line : ℕ → ℕ → ℕ) (symbol : List ℕ) (book : List Txn)
        → is_moved symbol (postings_of (relined line book)) ≡ is_moved symbol (postings_of book) }
    ensures serve { (line : ℕ → ℕ → ℕ) (symbols : List (List ℕ)) (book : List Txn)
        → HasSymbols symbols book → HasSymbols symbols (relined line book) }
    ensures few { (line : ℕ → ℕ → ℕ) (book : List Txn) → HaveFew book
        → HaveFew (relined line book) }
{}
