//! A cell: amounts, and behind them their goal.
ghost use Rattle.std.specs.Prelude.{◌≡◌, ◌++◌, IfOk, OnOk, codes, map};
ghost use Rattle.std.specs.String.{string_bytes};
ghost use Rattle.book.specs.Styles.{style_in};
ghost use Rattle.report_cells.specs.Report.{seen};
ghost use Rattle.balance_rows.specs.Rows.{cell_at};
ghost use Rattle.balance_layouts.specs.Averages.{least_with};
ghost use Rattle.budget_layout.specs.Beside.{budget_cell, goal_text, percent_text, sums_text};
ghost use Rattle.budget_layout.specs.Percents.{percent_out};

use crate::amounts::{push_percent, push_sums};
use crate::least::note_percent;
use crate::percent::{Percent, percent_in};
use book::{Mixed, Styles};
use hl_base::{Memory, Text};
use hl_num::Dec;
use report_table::Printed;
use std::alloc::Global;

/// The goal of a column, without sums where there is none.
fn goal_at(goals: &[Mixed], at: usize) -> &[(Text, Dec)]
    ensures { seen result.now ≡ cell_at at (map seen goals.now) }
{
    match goals.get(at) {
        Some(goal) => goal.entries(),
        None => &[],
    }
}

/// Appends a goal in brackets, behind its percentage.
fn push_bracketed(
    alloc: Global,
    out: &mut String,
    percent: &Percent,
    goal: &[(Text, Dec)],
    styles: &Styles,
) -> Result<(), Memory>
    ensures { OnOk result (string_bytes out.new ≡ string_bytes out.old
        ++ (codes " [" ++ percent_text percent.now
        ++ sums_text (style_in styles.now) (seen goal.now) ++ codes "]")) }
{
    out.push_str(" [")?;
    push_percent(alloc, out, percent)?;
    push_sums(alloc, out, goal, styles)?;
    out.push_str("]")?;
    Ok(())
}

/// Appends a goal, unless it is zero. Of the symbols in which a percentage can't be told and the one that is kept
/// already, the least is kept.
fn push_goal(
    alloc: Global,
    out: &mut String,
    actual: &Mixed,
    goal: &[(Text, Dec)],
    styles: &Styles,
    least: &mut Option<Text>,
) -> Result<(), Memory>
    ensures text { OnOk result (string_bytes out.new ≡ string_bytes out.old
        ++ goal_text (style_in styles.now) (seen actual.now) (seen goal.now)) }
    ensures least { OnOk result (least.new
        ≡ least_with least.old (percent_out (seen actual.now) (seen goal.now))) }
{
    let Some((first, rest)) = goal.split_first() else {
        return Ok(());
    };
    let percent = percent_in(actual, first, rest);
    note_percent(alloc, least, &first.0, &percent)?;
    push_bracketed(alloc, out, &percent, goal, styles)?;
    Ok(())
}

/// The text of amounts beside the goal of their column, if it has one. Of the symbols in which a percentage can't be
/// told and the one that is kept already, the least is kept.
pub(crate) fn budget_cell(
    alloc: Global,
    actual: &Mixed,
    goals: &[Mixed],
    at: usize,
    styles: &Styles,
    least: &mut Option<Text>,
) -> Result<Printed, Memory>
    ensures text { IfOk result (λ text. text
        ≡ budget_cell (style_in styles.now) (seen actual.now) (cell_at at (map seen goals.now))) }
    ensures least { OnOk result (least.new
        ≡ least_with least.old (percent_out (seen actual.now) (cell_at at (map seen goals.now)))) }
{
    let goal = goal_at(goals, at);
    let mut text = String::new(alloc);
    push_sums(alloc, &mut text, actual.entries(), styles)?;
    push_goal(alloc, &mut text, actual, goal, styles, least)?;
    Ok(Printed::new(Text::from_string(text)))
}
