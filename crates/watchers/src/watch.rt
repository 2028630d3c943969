//! An assertion or assignment by its account and its place.
ghost use Rattle.std.specs.Prelude.{◌≡◌};
ghost use Rattle.shared_set.specs.Order.{goes_up};
ghost use Rattle.watchers.specs.Order.{kind_cmp, place_cmp, watch_cmp};
ghost use Rattle.watchers.specs.Totals.{watch_total};
ghost use Rattle.watchers.specs.Sought.{watch_sought};

use hl_base::Text;
use hl_time::Day;
use shared_set::{Ranked, Seek};
use std::cmp::Ordering;

/// Where a posting stands: its day, the number of its transaction in the text, and its own number in the transaction.
/// Both numbers count from 0.
#[derive(Clone, Copy, Debug, PartialEq, Eq)]
pub struct Place {
    pub day: Day,
    pub txn: u64,
    pub posting: u64,
}

/// A posting with an assertion: its account, whether it asks for the accounts below that too, and its place.
#[derive(Debug, Drop)]
pub struct Watch {
    pub account: Text,
    pub below: bool,
    pub place: Place,
}

/// What is looked for among watches.
#[derive(Drop)]
pub(crate) struct Sought<'a> {
    pub account: &'a [u8],
    pub below: bool,
    pub place: Place,
}

impl Place {
    /// How the place compares with another: by day, then by transaction, then by posting.
    pub(crate) fn compare(&self, other: &Place) -> Ordering
        ensures { result ≡ place_cmp self.now other.now }
    {
        match self.day.0.cmp(&other.day.0) {
            Ordering::Equal => match self.txn.cmp(&other.txn) {
                Ordering::Equal => self.posting.cmp(&other.posting),
                other => other,
            },
            other => other,
        }
    }
}

/// How an account, and whether the accounts below it count, compare with those of a watch.
pub(crate) fn compare_kind(account: &[u8], below: bool, watch: &Watch) -> Ordering
    ensures { result ≡ kind_cmp account.now below watch.now }
{
    match account.cmp(watch.account.as_bytes()) {
        Ordering::Equal => below.cmp(&watch.below),
        other => other,
    }
}

impl Ranked for Watch {
    ghost rank = { watch_cmp };

    fn rank(&self, other: &Watch) -> Ordering {
        match compare_kind(self.account.as_bytes(), self.below, other) {
            Ordering::Equal => self.place.compare(&other.place),
            other => other,
        }
    }

    ghost total = { watch_total };
}

impl Seek<Watch> for Sought<'_> {
    ghost side = { λ s w. watch_cmp (watch_sought s) w };

    fn side(&self, watch: &Watch) -> Ordering {
        match compare_kind(self.account, self.below, watch) {
            Ordering::Equal => self.place.compare(&watch.place),
            other => other,
        }
    }

    ghost upward = { λ s a b h k. goes_up watch_total (watch_sought s) a b h k };
}
