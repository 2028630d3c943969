//! Days, each with a count.
ghost use Rattle.std.specs.Prelude.{◌≡◌, ◌+◌, ◌-◌, ◌<◌, ◌^◌, true, IfOk, OnOk};
ghost use Rattle.std.specs.Ordering.{nat_cmp};
ghost use Rattle.std.specs.declared.cmp.Ordering.TheVariants.{Greater};
ghost use Rattle.shared_set.specs.Order.{goes_up};
ghost use Rattle.shared_set.specs.Sorted.{Rises, find_last};
ghost use Rattle.asked_days.specs.Counts.{count_at, counted, day_cmp, last_day, uncounted};
ghost use Rattle.asked_days.specs.Totals.{day_sought, day_total, never_below};

use hl_base::Memory;
use hl_time::Day;
use shared_set::{Ranked, Seek, SharedSet};
use std::alloc::Global;
use std::cmp::Ordering;

/// A day with a count.
#[derive(Drop)]
pub(crate) struct DayCount {
    pub day: Day,
    pub count: u64,
}

/// A day that is looked for.
#[derive(Drop)]
struct Sought {
    day: Day,
}

/// The end of all days.
#[derive(Drop)]
struct End {}

impl Ranked for DayCount {
    ghost rank = { day_cmp };

    fn rank(&self, other: &DayCount) -> Ordering {
        self.day.0.cmp(&other.day.0)
    }

    ghost total = { day_total };
}

impl Seek<DayCount> for Sought {
    ghost side = { λ s c. nat_cmp s.day.0 c.day.0 };

    fn side(&self, item: &DayCount) -> Ordering {
        self.day.0.cmp(&item.day.0)
    }

    ghost upward = { λ s a b h k. goes_up day_total (day_sought s) a b h k };
}

impl Seek<DayCount> for End {
    ghost side = { λ _ _. Greater };

    fn side(&self, _item: &DayCount) -> Ordering {
        Ordering::Greater
    }

    ghost upward = { λ _ a b h _. never_below a b h };
}

/// The count of a day, or 0.
fn count_at(days: &SharedSet<DayCount>, day: Day) -> u64
    ensures { result ≡ count_at day.0 days.now }
{
    let sought = Sought { day };
    match days.get(&sought) {
        Some(found) => found.count,
        None => 0,
    }
}

/// Counts a day once more.
pub(crate) fn count(alloc: Global, days: &mut SharedSet<DayCount>, day: Day) -> Result<(), Memory>
    ensures { OnOk result (days.new ≡ counted days.old day) }
{
    let count = count_at(days, day);
    if count == u64::MAX {
        return Err(Memory);
    }
    let more = DayCount {
        day,
        count: count + 1,
    };
    days.put(alloc, more)?;
    Ok(())
}

/// Counts a day once less.
pub(crate) fn uncount(alloc: Global, days: &mut SharedSet<DayCount>, day: Day) -> Result<(), Memory>
    ensures { OnOk result (days.new ≡ uncounted days.old day) }
{
    let count = count_at(days, day);
    if count > 1 {
        let fewer = DayCount {
            day,
            count: count - 1,
        };
        days.put(alloc, fewer)?;
        return Ok(());
    }
    let gone = DayCount { day, count: 1 };
    days.remove(alloc, &gone)?;
    Ok(())
}

/// The last day, or 0.
pub(crate) fn last_day(days: &SharedSet<DayCount>) -> Day
    ensures day { result.0 ≡ last_day days.now }
    ensures rises { Rises day_cmp days.now }
{
    let end = End {};
    match days.below(&end) {
        Some(last) => last.day,
        None => Day(0),
    }
}
