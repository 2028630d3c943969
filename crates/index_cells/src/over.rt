//! The sum of the rows of an account over some days.
ghost use Rattle.std.specs.Prelude.{◌≡◌, ◌^◌, ◌<◌, ◌≤◌, ◌+ℤ◌, max, true};
ghost use Rattle.hl_num.specs.Decimal.{add_fits, negated, units_of};
ghost use Rattle.live_index.specs.Rows.{TurnoverFits};
ghost use Rattle.live_index.specs.Standing.{standing};
ghost use Rattle.live_index.specs.Told.{IsSum};
ghost use Rattle.index_cells.specs.Asks.{AsksFor};
ghost use Rattle.index_cells.specs.Over.{sum_over};

use hl_base::{Steps, Text};
use hl_num::Dec;
use hl_time::{Day, Span};
use live_index::{Index, upto};
use std::sync::ledger::Ledger;

/// The sum of an account's rows in a symbol over some days: that before their end, less that before their beginning.
pub(crate) fn sum_over<L: Ledger>(
    index: &Index,
    account: &Text,
    symbol: &Text,
    days: Span,
    steps: &mut Steps<L>,
) -> Dec
    requires fits { TurnoverFits (standing index.now) }
    requires early { days.end < 2 ^ 22 }
    ensures sum { IsSum (standing index.now) symbol.now
        (sum_over (standing index.now) account.now symbol.now days) result }
    ensures asked { AsksFor 44 steps.old steps.new }
{
    if days.end <= days.from {
        return Dec::zero();
    }
    let earlier = upto(index, account, symbol, Day(days.from), false, steps);
    let whole = upto(index, account, symbol, Day(days.end), false, steps);
    difference(whole, earlier)
}

/// A number less another, which is in range.
fn difference(whole: Dec, part: Dec) -> Dec
    requires { whole.places ≤ 36 → part.places ≤ 36 → add_fits whole (negated part) ≡ true }
    ensures value { units_of result ≡ units_of whole +ℤ units_of (negated part) }
    ensures places { result.places ≡ max whole.places part.places }
{
    let _places = (whole.places, part.places);
    whole.add(part.negated()).unwrap()
}
