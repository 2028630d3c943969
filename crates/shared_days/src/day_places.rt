//! The places of one day.
ghost use Rattle.std.specs.Ordering.{nat_cmp};
ghost use Rattle.shared_set.specs.Order.{goes_up};
ghost use Rattle.shared_days.specs.Places.{day_cmp};
ghost use Rattle.shared_days.specs.Totals.{day_sought, day_total};

use hl_time::Day;
use placed_sums::OnDay;
use shared_set::{Ranked, Seek};
use std::cmp::Ordering;

/// A day, and the places of all transactions that have a posting on it, in the order of their numbers.
#[derive(Drop)]
pub(crate) struct DayPlaces {
    pub day: Day,
    pub places: Vec<OnDay>,
}

/// A day that is looked for.
#[derive(Drop)]
pub(crate) struct Sought {
    pub day: Day,
}

impl Ranked for DayPlaces {
    ghost rank = { day_cmp };

    fn rank(&self, other: &DayPlaces) -> Ordering {
        self.day.0.cmp(&other.day.0)
    }

    ghost total = { day_total };
}

impl Seek<DayPlaces> for Sought {
    ghost side = { λ s d. nat_cmp s.day.0 d.day.0 };

    fn side(&self, item: &DayPlaces) -> Ordering {
        self.day.0.cmp(&item.day.0)
    }

    ghost upward = { λ s a b h k. goes_up day_total (day_sought s a) a b h k };
}
