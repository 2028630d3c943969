//! The cutting of spans into intervals.
ghost use Rattle.std.specs.Prelude.{◌<◌, ◌≤◌, IfOk};
ghost use Rattle.hl_time.specs.Calendar.{day_end};
ghost use Rattle.hl_time.specs.Split.{IsSplit};

use crate::day::Day;
use crate::spans::{Interval, Span};
use crate::units::{begins, unit_of};
use hl_base::{List, Memory};
use std::alloc::Global;

/// The parts of a span, widened to whole intervals. The first begins with the unit that holds the span's first day, the
/// last holds the span's last day, and a part that would end past 9999-12-31 ends there.
pub fn split(alloc: Global, span: Span, interval: Interval) -> Result<List<Span>, Memory>
    requires first { 1 ≤ span.from }
    requires some { span.from < span.end }
    requires last { span.end ≤ day_end }
    requires units { 1 ≤ interval.n }
    ensures { IfOk result (IsSplit span interval) }
{
    let mut index = unit_of(interval.unit, Day(span.from));
    let mut from = begins(interval.unit, index);
    let mut parts = Vec::new(alloc);
    while from < span.end {
        index += u32::from(interval.n);
        let end = begins(interval.unit, index);
        parts.push(Span { from, end })?;
        from = end;
    }
    Ok(List::from_vec(parts))
}
