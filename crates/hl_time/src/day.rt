//! Days, numbered from 0001-01-01, and their dates.
ghost use Rattle.std.specs.Prelude.{◌≡◌, ◌+◌, ◌≤◌, if◌then◌else◌, IfSome, IsTrue};
ghost use Rattle.hl_time.specs.Calendar.{has_day, day_number, IsDay, year_of, month_of, day_of_month};

use jiff_core::civil::Date;

/// The number of a day: 1 for 0001-01-01 and 3,652,059 for 9999-12-31.
#[derive(Clone, Copy, Debug, PartialEq, Eq, PartialOrd, Ord)]
pub struct Day(pub u32);

/// Year, month from 1 and day of the month from 1.
#[derive(Clone, Copy, Debug, PartialEq, Eq)]
pub struct Civil {
    pub year: u16,
    pub month: u8,
    pub day: u8,
}

/// The number of 1970-01-01.
const EPOCH_DAY: i32 = 719_163;

/// The day of a year, month and day of the month, where the calendar has it.
pub fn day_of(year: u16, month: u8, day: u8) -> Option<Day>
    ensures number { result ≡ (if has_day year month day then Some
        (record { 0 = day_number year month day }) else None) }
    ensures range { IfSome result (λ found. IsDay found.0) }
    ensures back { IfSome result (λ found. (year_of found.0 ≡ year) × (month_of found.0 ≡ month)
        × (day_of_month found.0 ≡ day)) }
{
    if year < 1 || year > 9999 || month > 12 || day > 31 {
        return None;
    }
    match Date::new(year as i16, month as i8, day as i8) {
        Ok(date) => Some(Day((date.to_unix_epoch_day() + EPOCH_DAY) as u32)),
        Err(_) => None,
    }
}

/// The date of a day.
pub fn civil_of(day: Day) -> Civil
    requires { IsDay day.0 }
    ensures year { result.year ≡ year_of day.0 }
    ensures month { result.month ≡ month_of day.0 }
    ensures day { result.day ≡ day_of_month day.0 }
    ensures back { day_number result.year result.month result.day ≡ day.0 }
    ensures exists { IsTrue (has_day result.year result.month result.day) }
{
    let days = i64::from(day.0) - i64::from(EPOCH_DAY);
    let date = Date::from_unix_epoch_day(days).unwrap();
    Civil {
        year: date.year as u16,
        month: date.month,
        day: date.day,
    }
}
