//! How the amounts of a report are valued.
ghost use Rattle.std.specs.Prelude.{◌≡◌};
ghost use Rattle.std.specs.Option.{option_copied};
ghost use Rattle.report_sums.specs.Ways as spec;

use hl_base::Text;
use report_options::{Valuation, When};

/// How the amounts of a report are valued: not at all; each on its own day; or summed, and the sums of a column on the
/// day that the column has.
#[derive(Clone, Copy)]
pub enum Way {
    Plain,
    Each,
    Columns(When),
}

/// How amounts at cost are valued, where a symbol is asked for or none.
fn way_at_cost(target: &Option<Text>) -> Way
    ensures { result ≡ spec.way_at_cost target.now }
{
    match target {
        Some(_) => Way::Columns(When::End),
        None => Way::Plain,
    }
}

/// How amounts are valued by the prices of a day.
fn way_by(worth: &Valuation) -> Way
    ensures { result ≡ spec.way_by worth.now.when worth.now.target }
{
    match worth.when {
        When::Cost => way_at_cost(&worth.target),
        When::Then => Way::Each,
        When::End => Way::Columns(When::End),
        When::Now => Way::Columns(When::Now),
        When::On(day) => Way::Columns(When::On(day)),
    }
}

/// How the amounts of a report are valued.
pub(crate) fn way_of(value: &Option<Valuation>) -> Way
    ensures { result ≡ spec.way_of value.now }
{
    match value {
        Some(worth) => way_by(worth),
        None => Way::Plain,
    }
}

/// The symbol of all values, where one is asked for.
pub(crate) fn target_in(value: &Option<Valuation>) -> Option<&Text>
    ensures { option_copied result ≡ spec.target_in value.now }
{
    match value {
        Some(worth) => worth.target.as_ref(),
        None => None,
    }
}
