//! The text of a budget.
ghost use Rattle.std.specs.Prelude.{◌≡◌, ◌<◌, ◌∷◌, [], None, IfOk, IfErr, OnOk, length, map};
ghost use Rattle.book.specs.Styles.{style_in};
ghost use Rattle.report_cells.specs.Report.{row_seen, seen};
ghost use Rattle.report_table.specs.Tables.{head_line, thick};
ghost use Rattle.report_table.specs.declared.lines.TableLine.TheVariants as table_line;
ghost use Rattle.balance_layouts.specs.Balance.{IsFault};
ghost use Rattle.balance_layouts.specs.Totals.{TotalsFit};
ghost use Rattle.budget_layout.specs.Fits.{CellsFit};
ghost use Rattle.budget_layout.specs.Told.{told_by};
ghost use Rattle.budget_layout.specs.Written.{budget_text, out_of_range, title_of};

use crate::body::push_body;
use crate::page::Page;
use balance_layouts::{heads, span_name};
use balance_rows::Layout;
use book::Styles;
use hl_base::{Bytes, Memory, Text};
use hl_time::Span;
use report_cells::{Cells, ReportFault};
use report_table::{THICK, TableLine, head_line, titled_lines};
use std::alloc::Global;

/// The title: of which days.
fn title(alloc: Global, columns: &[Span]) -> Result<Text, Memory>
    requires { 0 < length columns.now }
    ensures { IfOk result (λ title. title ≡ title_of columns.now) }
{
    let mut title = String::from_str(alloc, "Budget performance in ")?;
    title.push_str(span_name(alloc, columns)?.as_str())?;
    title.push(':')?;
    Ok(Text::from_string(title))
}

/// The line of the heads, which has no name, and the rule below it.
fn top_lines(alloc: Global, heads: &[Text]) -> Result<Vec<TableLine>, Memory>
    ensures { IfOk result (λ lines.
        lines.items ≡ head_line heads.now ∷ table_line.Rule thick ∷ []) }
{
    let mut lines = Vec::new(alloc);
    lines.push(head_line(alloc, heads)?)?;
    lines.push(TableLine::Rule(THICK))?;
    Ok(lines)
}

/// The budget of a report: a row for each account with goals, and last one for what counts for none, unless it is zero.
/// A row of `cells` counts for its own account, if that has goals, else for the nearest parent with some. A cell is the
/// amounts that count, and behind them in brackets the goal of the same column, unless that is zero; where the goal has
/// one symbol and the amounts have no other, the percentage, rounded half to even to a whole number, stands before it.
/// `goals` are of the same columns. Totals and averages are shown where the layout asks for them, and rows stand by the
/// totals of their amounts where it asks for that. `Range` names the least symbol in which an average or a percentage
/// can't be told, since a term of its division reaches 2^127.
pub fn budget_text(
    alloc: Global,
    cells: Cells,
    goals: Cells,
    layout: &Layout,
    styles: &Styles,
) -> Result<Bytes, ReportFault>
    requires some { 0 < length cells.columns }
    requires fits { CellsFit layout.now (told_by cells) }
    requires goals_fit { TotalsFit layout.now (map row_seen goals.rows) (map seen goals.totals) }
    ensures text { IfOk result (λ text. text ≡ budget_text layout.now (style_in styles.now)
        cells.columns (told_by cells) (told_by goals)) }
    ensures told { OnOk result (out_of_range layout.now (style_in styles.now) (length cells.columns)
        (told_by cells) (told_by goals) ≡ None) }
    ensures fault { IfErr result (IsFault
        (out_of_range layout.now (style_in styles.now) (length cells.columns)
        (told_by cells) (told_by goals))) }
{
    let columns = cells.columns.as_slice();
    let title = title(alloc, columns)?;
    let heads = heads(alloc, layout, columns)?;
    let page = Page {
        layout,
        styles,
        columns: columns.len(),
    };
    let count = heads.len();
    let mut lines = top_lines(alloc, heads.as_slice())?;
    push_body(alloc, &page, &mut lines, cells, goals)?;
    Ok(titled_lines(alloc, &title, count, lines.as_slice())?)
}
