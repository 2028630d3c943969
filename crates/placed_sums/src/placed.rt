//! Sums of a book before one of its transactions.
ghost use Rattle.std.specs.Prelude.{◌≡◌, ◌+◌, ◌≤◌};
ghost use Rattle.std.specs.Option.{option_map};
ghost use Rattle.book.specs.Sums.{is_nonzero};
ghost use Rattle.hl_num.specs.Decimal.{units_of};
ghost use Rattle.book.specs.SumsBefore.{OnlyAsked};
ghost use Rattle.placed_sums.specs.Accounts.{first_beside, nodes_beside};
ghost use Rattle.placed_sums.specs.Placed.{sum_placed};

use crate::accounts::is_same_text;
use crate::by_number::ByNumber;
use crate::on_day::OnDay;
use crate::today::{day_sum, sum_of};
use book::Sums;
use hl_base::{Steps, Text};
use hl_num::Dec;
use hl_time::Day;
use live_index::{Index, upto};
use std::marker::Model;
use std::sync::ledger::Ledger;

/// Sums of a book before the transaction with a number on a day, anywhere in the book. Each comes
/// from an index of the book's rows, of the days before this one, and from the postings on this day
/// of the transactions with lower numbers. Contracts see the book, the rows of the index, the
/// numbers of these transactions, the symbols that are asked for, the day and the number.
#[derive(Drop)]
pub struct SumsAt<'a, B: ByNumber> {
    index: &'a Index,
    book: &'a B,
    earlier: &'a [OnDay],
    symbols: &'a [Text],
    day: Day,
    number: usize,
}

impl<'a, B: ByNumber> Model for SumsAt<'a, B> {
    ghost use Rattle.placed_sums.specs.Days.{numbers_in};
    ghost use Rattle.placed_sums.specs.Placed.{IsKnown, Known, known};

    ghost Value = { Known };

    ghost view = { λ s. known (B.txns s.book.now) s.index.now (numbers_in s.earlier.now) s.symbols.now s.day s.number };

    ghost invariant = { λ s. IsKnown (known (B.txns s.book.now) s.index.now (numbers_in s.earlier.now) s.symbols.now s.day s.number) };
}

impl<'a, B: ByNumber> SumsAt<'a, B> {
    ghost use Rattle.std.specs.Prelude.{◌≡◌, ◌∷◌, [], ◌+◌, ◌^◌, ◌<◌, ◌≤◌};
    ghost use Rattle.std.specs.Option.{option_map};
    ghost use Rattle.hl_num.specs.Decimal.{units_of};
    ghost use Rattle.book.specs.Bounds.{TurnoverFits};
    ghost use Rattle.book.specs.Postings.{postings_of};
    ghost use Rattle.book.specs.SumsBefore.{OnlyAsked};
    ghost use Rattle.placed_sums.specs.Accounts.{HasSymbols, first_beside, is_beside, nodes_beside};
    ghost use Rattle.placed_sums.specs.Days.{numbers_in};
    ghost use Rattle.placed_sums.specs.Numbers.{earlier_on};
    ghost use Rattle.placed_sums.specs.Placed.{known, sum_placed};
    ghost use Rattle.placed_sums.specs.Rows.{Tell};

    /// The sums before the transaction with a number on a day, by an index that tells the book,
    /// whose amounts are in range; by the places of all transactions with lower numbers that have a
    /// posting on the day, as `Days::before` answers them; and by symbols in the order of their
    /// bytes, among which are those of the book's amounts that aren't zero.
    pub fn new(
        index: &'a Index,
        book: &'a B,
        earlier: &'a [OnDay],
        symbols: &'a [Text],
        day: Day,
        number: usize,
    ) -> SumsAt<'a, B>
        requires told { Tell index.now (B.txns book.now) }
        requires fits { TurnoverFits (postings_of (B.txns book.now)) }
        requires earlier { numbers_in earlier.now ≡ earlier_on day.0 number (B.txns book.now) }
        requires symbols { HasSymbols symbols.now (B.txns book.now) }
        requires near { day.0 < 2 ^ 22 }
        ensures { result ≡ known (B.txns book.now) index.now (numbers_in earlier.now) symbols.now
            day number }
    {
        SumsAt {
            index,
            book,
            earlier,
            symbols,
            day,
            number,
        }
    }

    /// The sum of an account in a symbol, from at most 22 nodes of the index and from the postings
    /// of the day.
    pub fn sum<L: Ledger>(
        &self,
        account: &Text,
        symbol: &Text,
        below: bool,
        steps: &mut Steps<L>,
    ) -> Dec
        ensures sum { units_of result ≡ sum_placed self.now account.now below symbol.now }
        ensures steps { OnlyAsked steps.old steps.new }
        ensures few { steps.new.nodes ≤ steps.old.nodes + 22 }
    {
        let kept = upto(self.index, account, symbol, self.day, below, steps);
        let past = kept.trimmed();
        let today = day_sum(self.book, self.earlier, account, symbol, below, self.day);
        sum_of(past, today)
    }

    /// The symbols that are asked for.
    pub fn symbols(&self) -> &'a [Text]
        ensures value { result.now ≡ self.now.symbols }
        ensures all { HasSymbols self.now.symbols self.now.book }
    {
        self.symbols
    }

    /// The least other symbol in which the sum of an account isn't zero, from at most 22 nodes of
    /// the index for each other symbol.
    pub fn first_other<L: Ledger>(
        &self,
        account: &Text,
        symbol: &Text,
        below: bool,
        steps: &mut Steps<L>,
    ) -> Option<&'a Text>
        ensures symbol { option_map (λ other. other.now) result
            ≡ first_beside symbol.now (sum_placed self.now account.now below) self.now.symbols }
        ensures all { HasSymbols self.now.symbols self.now.book }
        ensures steps { OnlyAsked steps.old steps.new }
        ensures few { steps.new.nodes ≤ steps.old.nodes + nodes_beside symbol.now self.now.symbols }
    {
        first_beside(self, self.symbols(), account, symbol, below, steps)
    }

    /// Whether a symbol is another one than the given one and has a sum that isn't zero.
    fn is_beside<L: Ledger>(
        &self,
        other: &Text,
        account: &Text,
        symbol: &Text,
        below: bool,
        steps: &mut Steps<L>,
    ) -> bool
        ensures beside { result
            ≡ is_beside symbol.now (sum_placed self.now account.now below) other.now }
        ensures steps { OnlyAsked steps.old steps.new }
        ensures few { steps.new.nodes ≤ steps.old.nodes + nodes_beside symbol.now (other.now ∷ []) }
    {
        if is_same_text(other, symbol) {
            return false;
        }
        let sum = self.sum(account, other, below, steps);
        is_nonzero(sum)
    }
}

impl<'a, B: ByNumber> Sums for SumsAt<'a, B> {
    ghost use Rattle.placed_sums.specs.Accounts.{nodes_beside};
    ghost use Rattle.placed_sums.specs.Placed.{place_of};

    ghost txns = { λ s. s.book };

    ghost place = { λ s. place_of s.day s.number };

    ghost asks = { λ _ _ _ _. 22 };

    ghost asks_other = { λ s _ symbol _. nodes_beside symbol s.symbols };

    fn before<L: Ledger>(
        &self,
        account: &Text,
        symbol: &Text,
        below: bool,
        steps: &mut Steps<L>,
    ) -> Dec {
        self.sum(account, symbol, below, steps)
    }

    fn other<L: Ledger>(
        &self,
        account: &Text,
        symbol: &Text,
        below: bool,
        steps: &mut Steps<L>,
    ) -> Option<&Text> {
        self.first_other(account, symbol, below, steps)
    }
}

/// The first of some symbols that is another one than the given one and whose sum isn't zero.
#[tactic(auto, using(crate::proofs::Asking::beside_next))]
fn first_beside<'b, B: ByNumber, L: Ledger>(
    sums: &SumsAt<B>,
    symbols: &'b [Text],
    account: &Text,
    symbol: &Text,
    below: bool,
    steps: &mut Steps<L>,
) -> Option<&'b Text>
    ensures symbol { option_map (λ other. other.now) result
        ≡ first_beside symbol.now (sum_placed sums.now account.now below) symbols.now }
    ensures steps { OnlyAsked steps.old steps.new }
    ensures few { steps.new.nodes ≤ steps.old.nodes + nodes_beside symbol.now symbols.now }
{
    for other in symbols {
        if sums.is_beside(other, account, symbol, below, steps) {
            return Some(other);
        }
    }
    None
}

fn is_nonzero(sum: Dec) -> bool
    ensures { result ≡ is_nonzero (units_of sum) }
{
    !sum.is_zero()
}
