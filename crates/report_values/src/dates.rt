//! The day on which a taking is valued.
ghost use Rattle.std.specs.Prelude.{◌≡◌};
ghost use Rattle.report_values.specs.ValueDays.{day_at, day_by};

use hl_time::Day;

/// The day on which a taking is valued: its own; one for all; or that of its column, where its day is the number of
/// its column.
#[derive(Clone, Copy)]
pub enum Dates<'d> {
    Own,
    On(Day),
    Columns(&'d [Day]),
}

/// The day on which a taking of a day is valued.
pub(crate) fn day_by(dates: &Dates, day: Day) -> Day
    ensures { result.0 ≡ day_by dates.now day.0 }
{
    match dates {
        Dates::Own => day,
        Dates::On(one) => *one,
        Dates::Columns(days) => day_at(days, day.0),
    }
}

/// The day of a column, by its number.
fn day_at(days: &[Day], number: u32) -> Day
    ensures { result.0 ≡ day_at days.now number }
{
    let at = number as usize;
    if at < days.len() { days[at] } else { Day(0) }
}
