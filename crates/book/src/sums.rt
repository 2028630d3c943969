//! Sums of accounts over the postings of a book, as they are asked for.
ghost use Rattle.std.specs.Prelude.{◌≡◌, ◌≤◌, ◌+◌, ℕ, Bool, List};
ghost use Rattle.std.specs.Option.{option_map};
ghost use Rattle.hl_num.specs.Decimal.{units_of};
ghost use Rattle.book.specs.SumsBefore.{Place, start_of, sum_before, other_before, OnlyAsked};
ghost use Rattle.book.specs.declared.transaction.Txn.{Txn};

use hl_base::{Steps, Text};
use hl_num::Dec;
use hl_time::Day;
use std::sync::ledger::Ledger;

/// Tells sums of a book before any day.
pub trait DaySums {
    /// The book's transactions.
    ghost txns: { Self → List Txn };

    /// The plain sum of an account in a symbol over all postings before the day `end`; with `below` those of its
    /// subaccounts count too.
    fn cell<L: Ledger>(
        &self,
        account: &Text,
        symbol: &Text,
        end: Day,
        below: bool,
        steps: &mut Steps<L>,
    ) -> Dec
        ensures sum { units_of result
            ≡ sum_before (txns self.now) account.now symbol.now below (start_of end) }
        ensures steps { OnlyAsked steps.old steps.new }
        // As many nodes as an index of days has levels.
        ensures few { steps.new.nodes ≤ steps.old.nodes + 22 };
}

/// Tells sums of a book just before one transaction.
pub trait Sums {
    /// The book's transactions.
    ghost txns: { Self → List Txn };

    /// The place before the transaction's first posting.
    ghost place: { Self → Place };

    /// How many nodes of an index the sum of an account in a symbol asks at most, with its subaccounts or without.
    ghost asks: { Self → List ℕ → List ℕ → Bool → ℕ };

    /// How many nodes the search for another symbol asks at most.
    ghost asks_other: { Self → List ℕ → List ℕ → Bool → ℕ };

    /// The plain sum of an account in a symbol over all postings before the transaction; with `below` those of its
    /// subaccounts count too.
    fn before<L: Ledger>(
        &self,
        account: &Text,
        symbol: &Text,
        below: bool,
        steps: &mut Steps<L>,
    ) -> Dec
        ensures sum { units_of result
            ≡ sum_before (txns self.now) account.now symbol.now below (place self.now) }
        ensures steps { OnlyAsked steps.old steps.new }
        ensures few { steps.new.nodes ≤ steps.old.nodes
            + asks self.now account.now symbol.now below };

    /// The least other symbol in which that sum isn't zero.
    fn other<L: Ledger>(
        &self,
        account: &Text,
        symbol: &Text,
        below: bool,
        steps: &mut Steps<L>,
    ) -> Option<&Text>
        ensures symbol { option_map (λ other.
            other.now) result
            ≡ other_before (txns self.now) account.now symbol.now below (place self.now) }
        ensures steps { OnlyAsked steps.old steps.new }
        ensures few { steps.new.nodes ≤ steps.old.nodes
            + asks_other self.now account.now symbol.now below };
}
