//! What a query means is told by its words alone.
ghost use Rattle.std.specs.Prelude.{◌≡◌, ℕ, List};
ghost use Rattle.book.specs.declared.transaction.Posting.{Posting};
ghost use Rattle.book.specs.declared.transaction.Txn.{Txn};
ghost use Rattle.query.specs.Made.{IsQueryOf};
ghost use Rattle.query.specs.Meaning.{of_boundless, of_posting, of_txn, of_undated};
ghost use Rattle.query.specs.OwnLetters.{own_in};
ghost use Rattle.query.specs.Words.{terms_mean, terms_mean_boundless, terms_mean_txn, terms_mean_undated};
ghost use Rattle.query.specs.declared.account_types.Types.{Types};
ghost use Rattle.query.specs.declared.queries.Query.{Query};

/// A query that words make means what their terms do, by what the grammar of regexes reads in them: so all queries of
/// the same words mean the same postings and transactions, whoever builds their regexes.
pub fn means_its_terms()
    ensures posting { (day : ℕ) (words : List (List ℕ)) (query : Query) (types : Types)
        (posting : Posting) (txn : Txn)
        → IsQueryOf day words query
        → of_posting query types posting txn
        ≡ terms_mean query.terms.items (own_in types) posting txn }
    ensures undated { (day : ℕ) (words : List (List ℕ)) (query : Query) (types : Types)
        (posting : Posting) (txn : Txn)
        → IsQueryOf day words query
        → of_undated query types posting txn
        ≡ terms_mean_undated query.terms.items (own_in types) posting txn }
    ensures boundless { (day : ℕ) (words : List (List ℕ)) (query : Query) (types : Types)
        (posting : Posting) (txn : Txn)
        → IsQueryOf day words query
        → of_boundless query types posting txn
        ≡ terms_mean_boundless query.terms.items (own_in types) posting txn }
    ensures txn { (day : ℕ) (words : List (List ℕ)) (query : Query) (types : Types) (txn : Txn)
        → IsQueryOf day words query
        → of_txn query types txn ≡ terms_mean_txn query.terms.items (own_in types) txn }
{}
