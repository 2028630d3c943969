//! The days of a span that a column counts.
ghost use Rattle.std.specs.Prelude.{◌≡◌};
ghost use Rattle.index_cells.specs.Days.{counted};

use hl_time::Span;
use report_cells::Reach;

/// Those days of a span that a column counts.
pub(crate) fn counted(reach: Reach, days: Span, column: Span) -> Span
    ensures { result ≡ counted reach days column }
{
    let end = days.end.min(column.end);
    match reach {
        Reach::Within => Span {
            from: days.from.max(column.from),
            end,
        },
        Reach::UpTo => Span {
            from: days.from,
            end,
        },
    }
}
