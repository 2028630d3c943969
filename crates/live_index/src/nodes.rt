//! Sums of rows by nodes, and the sum up to a day.
ghost use Rattle.std.specs.Prelude.{◌≡◌, ◌+◌, ◌^◌, ◌<◌, ◌≤◌, ◌+ℤ◌, List, ℕ, max, true};
ghost use Rattle.hl_num.specs.Decimal.{units_of, add_fits};
ghost use Rattle.hl_base.specs.Counts.{Counts};
ghost use Rattle.live_index.specs.declared.row.Row.{Row};
ghost use Rattle.live_index.specs.Rows.{node_sum, sum_before, TurnoverFits};
ghost use Rattle.live_index.specs.Told.{IsSum};

use hl_base::{Steps, Text};
use hl_num::Dec;
use hl_time::Day;
use std::sync::ledger::Ledger;

/// Tells a list of rows by sums over days. In each symbol their absolute values, in units of the greatest number of
/// decimals, sum to less than 2^127.
pub trait Nodes {
    ghost told: { Self → List Row };

    /// The sum of the told rows in a symbol, of an account and with `below` of its subaccounts too, whose day number
    /// divided by 2^level and rounded down is `at`.
    fn node<L: Ledger>(
        &self,
        account: &Text,
        symbol: &Text,
        below: bool,
        level: u8,
        at: u32,
        steps: &mut Steps<L>,
    ) -> Dec
        requires { level ≤ 21 }
        ensures sum { IsSum (told self.now) symbol.now
            (node_sum (told self.now) account.now symbol.now below level at) result }
        ensures fits { TurnoverFits (told self.now) }
        ensures asked { steps.new ≡ record steps.old { nodes = steps.old.nodes + 1 } };
}

/// The sum of the told rows before a day, with those of subaccounts where `below` says so, from at most 22 nodes:
/// one for each binary digit of the day's number that is set.
pub fn upto<N: Nodes, L: Ledger>(
    nodes: &N,
    account: &Text,
    symbol: &Text,
    end: Day,
    below: bool,
    steps: &mut Steps<L>,
) -> Dec
    requires { end.0 < 2 ^ 22 }
    ensures sum { IsSum (N.told nodes.now) symbol.now
        (sum_before (N.told nodes.now) account.now symbol.now below end.0) result }
    ensures few { steps.new.nodes ≤ steps.old.nodes + 22 }
    ensures kept { steps.old.nodes ≤ steps.new.nodes }
    ensures read { steps.new.bytes_read ≡ steps.old.bytes_read }
    ensures checked { steps.new.checked ≡ steps.old.checked }
{
    let mut sum = Dec::zero();
    let mut level = 22u8;
    while 0 < level {
        level -= 1;
        let days = end.0 >> level;
        if days % 2 == 1 {
            let node = nodes.node(account, symbol, below, level, days - 1, steps);
            sum = sum_of(sum, node);
        }
    }
    sum
}

/// The sum of two numbers, which is in range.
pub(crate) fn sum_of(a: Dec, b: Dec) -> Dec
    requires { a.places ≤ 36 → b.places ≤ 36 → add_fits a b ≡ true }
    ensures value { units_of result ≡ units_of a +ℤ units_of b }
    ensures places { result.places ≡ max a.places b.places }
{
    let _places = (a.places, b.places);
    a.add(b).unwrap()
}
