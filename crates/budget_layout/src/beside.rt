//! The cells of a row, each beside that of its goals.
ghost use Rattle.std.specs.Prelude.{◌≡◌, IfOk, OnOk, map};
ghost use Rattle.book.specs.Styles.{style_in};
ghost use Rattle.report_cells.specs.Report.{seen};
ghost use Rattle.balance_layouts.specs.Averages.{least_with};
ghost use Rattle.budget_layout.specs.Beside.{beside, beside_out};

use crate::cell::budget_cell;
use book::{Mixed, Styles};
use hl_base::{List, Memory, Text};
use report_table::Printed;
use std::alloc::Global;

/// The texts of cells, each beside that of its goals. Of the symbols in which a percentage can't be told and the one
/// that is kept already, the least is kept.
pub(crate) fn beside(
    alloc: Global,
    actual: &[Mixed],
    goals: &[Mixed],
    styles: &Styles,
    least: &mut Option<Text>,
) -> Result<List<Printed>, Memory>
    ensures texts { IfOk result (λ texts. texts
        ≡ beside (style_in styles.now) (map seen actual.now) (map seen goals.now)) }
    ensures least { OnOk result (least.new
        ≡ least_with least.old (beside_out (map seen actual.now) (map seen goals.now))) }
{
    let mut texts = Vec::new(alloc);
    for at in 0..actual.len() {
        texts.push(budget_cell(alloc, &actual[at], goals, at, styles, least)?)?;
    }
    Ok(List::from_vec(texts))
}
