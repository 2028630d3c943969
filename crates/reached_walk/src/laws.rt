//! Which watches a walk takes, and what its answer says of a text's book.
ghost use Rattle.std.specs.Prelude.{◌≡◌, ◌==◌, ℕ, Bool, List, Some};
ghost use Rattle.std.specs.List.{slice_get};
ghost use Rattle.book.specs.declared.transaction.Txn.{Txn};
ghost use Rattle.balancing.specs.Solves.{Solves};
ghost use Rattle.book.specs.Standing.{with_number, without_number};
ghost use Rattle.reached_entries.specs.Reached.{AreSame, HandsOn};
ghost use Rattle.watchers.specs.declared.watch.Watch.{Watch};
ghost use Rattle.watchers.specs.Watches.{AreOf, numbered_from};
ghost use Rattle.reached_walk.specs.Asks.{AreWatched};

/// A set that holds, with each transaction of a text, all that ask for what it posts, does so in the text's book.
pub fn solved_as_written()
    ensures { (set : ℕ → Bool) (text book : List Txn) → Solves text book
        → HandsOn set text → HandsOn set book }
{}

/// Those of the transactions of a text's book under their places.
pub fn watches_of_a_book()
    ensures { (text book : List Txn) (watches : List Watch) → Solves text book
        → AreOf (numbered_from 0 book) watches → AreWatched text watches }
{}

/// Those of the book of the text before an edit of one transaction, without those of that one in its old form and with
/// those of its new form.
pub fn watches_of_an_edit()
    ensures { (number : ℕ) (before after book : List Txn) (form : Txn) (watches : List Watch) → Solves before book
        → AreSame (λ n. n == number) 0 before after
        → slice_get after number ≡ Some form
        → AreOf (with_number number form (without_number number (numbered_from 0 book))) watches
        → AreWatched after watches }
{}

/// Those of a text's transactions under their places.
pub fn watches_of_a_text()
    ensures { (text : List Txn) (watches : List Watch)
        → AreOf (numbered_from 0 text) watches → AreWatched text watches }
{}
