//! How amounts of several symbols compare.
ghost use Rattle.std.specs.Prelude.{◌≡◌, pos};
ghost use Rattle.std.specs.Ordering.{int_cmp, nat_cmp};
ghost use Rattle.std.specs.Cmp.Lexicographic.{slice_cmp};
ghost use Rattle.hl_num.specs.Decimal.{units_of};
ghost use Rattle.book.specs.Entries.{AreSums};
ghost use Rattle.report_cells.specs.Report.{seen};
ghost use Rattle.balance_rows.specs.Orders.{amount_cmp};
ghost use Rattle.balance_rows.specs.Walks.{entry_cmp, walked};

use hl_base::Text;
use hl_num::Dec;
use std::cmp::Ordering;

/// How two amounts compare, the greater first: the least symbol in which they differ decides, one that is absent being
/// zero.
#[tactic(auto, using(crate::proofs::Walking::walked_is))]
pub(crate) fn compare_amounts(left: &[(Text, Dec)], right: &[(Text, Dec)]) -> Ordering
    requires left { AreSums left.now }
    requires right { AreSums right.now }
    ensures { result ≡ amount_cmp (seen left.now) (seen right.now) }
{
    compare_entries(left, right)
}

/// How two amounts compare by their first entries that aren't the same.
fn compare_entries(left: &[(Text, Dec)], right: &[(Text, Dec)]) -> Ordering
    ensures { result ≡ walked (seen left.now) (seen right.now) }
{
    let shared = left.len().min(right.len());
    for at in 0..shared {
        match compare_entry(&left[at], &right[at]) {
            Ordering::Equal => {}
            order => return order,
        }
    }
    if shared < left.len() {
        return above_zero(left[shared].1);
    }
    if shared < right.len() {
        return below_zero(right[shared].1);
    }
    Ordering::Equal
}

/// How two entries compare. The one with the lesser symbol stands against zero.
fn compare_entry(left: &(Text, Dec), right: &(Text, Dec)) -> Ordering
    ensures { result ≡ entry_cmp (left.now.0, units_of left.now.1)
        (right.now.0, units_of right.now.1) }
{
    match compare_texts(&left.0, &right.0) {
        Ordering::Less => above_zero(left.1),
        Ordering::Equal => right.1.compare(left.1),
        Ordering::Greater => below_zero(right.1),
    }
}

/// How two symbols compare, by their bytes.
fn compare_texts(left: &Text, right: &Text) -> Ordering
    ensures { result ≡ slice_cmp nat_cmp left.now right.now }
{
    left.as_str().cmp(right.as_str())
}

/// How a value stands to a zero on its right: a positive one is first.
fn above_zero(value: Dec) -> Ordering
    ensures { result ≡ int_cmp (pos 0) (units_of value) }
{
    Dec::zero().compare(value)
}

/// How a zero stands to a value on its right.
fn below_zero(value: Dec) -> Ordering
    ensures { result ≡ int_cmp (units_of value) (pos 0) }
{
    value.compare(Dec::zero())
}
