//! What is shown of the postings of a transaction.
ghost use Rattle.std.specs.Prelude.{◌≡◌, IfOk, map};
ghost use Rattle.std.specs.Option.{option_copied};
ghost use Rattle.journal_printer.specs.Layout.{hides, amount_shown, cost_shown, are_of_one, was_missing};

use crate::detail::Detail;
use book::{Amount, Cost, Posting};

impl Detail {
    /// Whether a value isn't shown that was found, or wasn't.
    fn hides(self, is_found: bool) -> bool
        ensures { result ≡ hides self is_found }
    {
        match self {
            Detail::Written => is_found,
            Detail::Explicit => false,
        }
    }
}

/// The amount of a posting, if it is shown.
pub fn amount_shown(detail: Detail, posting: &Posting) -> Option<&Amount>
    ensures { option_copied result ≡ amount_shown detail posting.now }
{
    if detail.hides(posting.filled) {
        None
    } else {
        posting.amount.as_ref()
    }
}

/// The cost of a posting, if it is shown.
pub fn cost_shown(detail: Detail, posting: &Posting) -> Option<&Cost>
    ensures { option_copied result ≡ cost_shown detail posting.now }
{
    if detail.hides(posting.filled || posting.costed) {
        return None;
    }
    match &posting.cost {
        Some(cost) => Some(cost.get()),
        None => None,
    }
}

/// Whether balancing found the amount of a posting, and no assertion says it.
fn was_missing(posting: &Posting) -> bool
    ensures { result ≡ was_missing posting.now }
{
    posting.filled && posting.wanted.is_none()
}

/// Whether one missing amount gave both postings.
pub fn are_of_one(posting: &Posting, other: &Posting) -> bool
    ensures { result ≡ are_of_one posting.now other.now }
{
    was_missing(posting) && was_missing(other) && posting.line == other.line
}
