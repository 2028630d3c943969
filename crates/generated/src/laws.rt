//! What is true of transactions that rules had a part in.
ghost use Rattle.std.specs.Prelude.{◌≡◌, true, List, map};
ghost use Rattle.std.specs.List.{list_all};
ghost use Rattle.book.specs.declared.transaction.Txn.{Txn};
ghost use Rattle.balancing.specs.Load.{book_of};
ghost use Rattle.query.specs.Matching.{Own};
ghost use Rattle.generated.specs.Added.{with_added};
ghost use Rattle.generated.specs.Judged.{has_amounts, judged};
ghost use Rattle.generated.specs.Rules.{Asked};

/// Amounts that are assigned in a book stay where rules add to it: of transactions in which each posting has its amount
/// none is assigned anew, whatever rules add behind their postings.
pub fn assignments_stay()
    ensures { (own : Own) (rules : List Asked) (txns : List Txn) → list_all has_amounts txns ≡ true
        → judged (map (with_added own rules) txns) ≡ book_of (map (with_added own rules) txns) }
{}
