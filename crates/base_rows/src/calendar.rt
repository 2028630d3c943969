//! Periods that depend on the day of today, worked out by hand for 2024-06-15, a Saturday, the places of faults, and days;
//! other periods are in tests/queries/periods.rows.
use hl_time::{
    Day, Interval, Period, Span, TimeFault, Unit, column_name, day_of, occurrence, print_day,
    read_date, read_period, split,
};
use std::test::Fail;

const TODAY: Day = Day(739_052);

/// Each line has a text, its first day and its exclusive end, `-` for none.
const PERIODS: &str = "\
today | 2024-06-15 | 2024-06-16
yesterday | 2024-06-14 | 2024-06-15
tomorrow | 2024-06-16 | 2024-06-17
this day | 2024-06-15 | 2024-06-16
last day | 2024-06-14 | 2024-06-15
next day | 2024-06-16 | 2024-06-17
this week | 2024-06-10 | 2024-06-17
last week | 2024-06-03 | 2024-06-10
next week | 2024-06-17 | 2024-06-24
this month | 2024-06-01 | 2024-07-01
last month | 2024-05-01 | 2024-06-01
next month | 2024-07-01 | 2024-08-01
this quarter | 2024-04-01 | 2024-07-01
last quarter | 2024-01-01 | 2024-04-01
next quarter | 2024-07-01 | 2024-10-01
this year | 2024-01-01 | 2025-01-01
last year | 2023-01-01 | 2024-01-01
next year | 2025-01-01 | 2026-01-01
in Last month | 2024-05-01 | 2024-06-01
since last month | 2024-05-01 | -
until today | - | 2024-06-15
last month..this month | 2024-05-01 | 2024-06-01
from last year to next quarter | 2023-01-01 | 2024-07-01
";

/// Each line has a text that is no period, and the place of its fault.
const NO_PERIODS: &str = "\
24 | 0
2024-13 | 0
2024-00 | 0
2024-06/15 | 0
2023-02-29 | 0
2024q5 | 0
0000 | 0
last | 4
last weeks | 5
month | 0
from | 4
from 2024 until 2025 | 10
since 2024 to 2025 | 11
2024 2025 | 5
2024 to | 7
every | 5
every 0 days | 6
every 1000 days | 6
every 2 | 7
every 2 day | 8
every days | 6
monthly weekly | 8
in 2024 to 2025 | 8
2024.. .. | 7
from 2024.. | 9
2024-01-01 to 2024-02-01 x | 25
";

fn bound(text: &str) -> Option<u32> {
    match read_date(text.as_bytes(), None) {
        Ok(day) => Some(day.0),
        Err(_) => None,
    }
}

#[test]
fn reads_periods(rt: HostRuntime) {
    for line in PERIODS.lines() {
        let mut fields = line.split(" | ");
        let text = fields.next().unwrap_or("");
        let want = Period {
            from: bound(fields.next().unwrap_or("")),
            end: bound(fields.next().unwrap_or("")),
            interval: None,
        };
        assert_eq!(rt; read_period(text.as_bytes(), TODAY), Ok(want), "{text}");
    }
}

#[test]
fn tells_the_place_of_a_fault(rt: HostRuntime) {
    for line in NO_PERIODS.lines() {
        let (text, place) = line.split_once(" | ").unwrap_or(("", ""));
        let at = place.parse::<u64>().unwrap_or(99);
        assert_eq!(rt;
            read_period(text.as_bytes(), TODAY),
            Err(TimeFault::BadPeriod { at }),
            "{text}"
        );
    }
    // the calendar ends on a Friday, so its last week has days outside it
    assert!(rt; read_period(b"this week", Day(3_652_059)).is_err());
    assert!(rt; read_period(b"yesterday", Day(1)).is_err());
}

#[test]
fn days_are_numbered_and_cut(rt: HostRuntime) -> Result<(), Fail> {
    assert_eq!(rt; day_of(2024, 6, 15), Some(TODAY));
    assert_eq!(rt; day_of(1900, 2, 29), None);
    assert_eq!(rt; print_day(TODAY), *b"2024-06-15");
    let month = Interval {
        unit: Unit::Month,
        n: 1,
    };
    assert_eq!(rt; occurrence(Day(738_916), month, 1), Some(Day(738_945)));
    assert_eq!(rt; occurrence(Day(738_916), month, 96_000), None);
    let all = Span {
        from: 1,
        end: 3_652_060,
    };
    let name = column_name(rt.alloc(), all)?;
    assert_eq!(rt; name.as_str(), "0001-01-01..9999-12-31");
    let parts = split(rt.alloc(), all, month)?;
    assert_eq!(rt; parts.len(), 119_988);
    Ok(())
}
