//! The column that a taking goes to.
ghost use Rattle.std.specs.Prelude.{◌≡◌};
ghost use Rattle.report_cells.specs.Follows.{Follow};
ghost use Rattle.report_cells.specs.Places.{first_after, place, reaches};

use crate::reach::Reach;
use hl_time::{Day, Span};

/// The number of the first column that counts a day, if one does.
pub(crate) fn place_of(columns: &[Span], reach: Reach, day: Day) -> Option<usize>
    requires { Follow columns.now }
    ensures { result ≡ place reach columns.now day.0 }
{
    let at = first_after(columns, day.0);
    if at < columns.len() && reaches(reach, columns[at].from, day.0) {
        Some(at)
    } else {
        None
    }
}

/// Whether a column that ends after a day counts it.
fn reaches(reach: Reach, from: u32, day: u32) -> bool
    ensures { result ≡ reaches reach from day }
{
    match reach {
        Reach::Within => from <= day,
        Reach::UpTo => true,
    }
}

/// The number of the first column that ends after a day, or how many columns there are.
fn first_after(columns: &[Span], day: u32) -> usize
    requires { Follow columns.now }
    ensures { result ≡ first_after columns.now day }
{
    let mut low = 0;
    let mut high = columns.len();
    while low < high {
        let middle = low + (high - low) / 2;
        if columns[middle].end <= day {
            low = middle + 1;
        } else {
            high = middle;
        }
    }
    low
}
