//! Columns that are known by their numbers.
ghost use Rattle.std.specs.Prelude.{◌≡◌, ◌<◌, ◌^◌, IfOk};
ghost use Rattle.report_cells.specs.Follows.{Follow};
ghost use Rattle.report_values.specs.Numbers as spec;

use hl_base::{List, Memory};
use hl_time::Span;
use std::alloc::Global;

/// So many columns, each the one day of its number.
pub(crate) fn numbers(alloc: Global, width: usize) -> Result<List<Span>, Memory>
    requires some { 0 < width }
    requires few { width < 2 ^ 32 }
    ensures value { IfOk result (λ columns. columns ≡ spec.numbers width) }
    ensures follow { IfOk result Follow }
{
    let mut columns = Vec::new(alloc);
    for number in 0..width {
        let from = number as u32;
        columns.push(Span {
            from,
            end: from + 1,
        })?;
    }
    Ok(List::from_vec(columns))
}
