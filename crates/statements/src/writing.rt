//! The texts of the statements.
ghost use Rattle.std.specs.Prelude.{◌≡◌, ◌<◌, ◌++◌, ◌∷◌, [], None, IfOk, IfErr, OnOk, length, map};
ghost use Rattle.book.specs.Styles.{style_in};
ghost use Rattle.query.specs.OwnLetters.{own_in};
ghost use Rattle.report_cells.specs.Report.{row_seen};
ghost use Rattle.balance_layouts.specs.Averages.{least};
ghost use Rattle.balance_layouts.specs.Balance.{IsFault};
ghost use Rattle.balance_layouts.specs.Titles.{span_text};
ghost use Rattle.statements.specs.Described.{title_of};
ghost use Rattle.statements.specs.Fits.{CellsFit, PartsFit};
ghost use Rattle.statements.specs.OnPage.{layout_on, style_on};
ghost use Rattle.statements.specs.Written.{IsBody, out_of_range, parts_out, statement_text};

use crate::choosing::part_rows;
use crate::sections::{Page, net_line, section};
use crate::statement::Statement;
use balance_layouts::{check_averages, heads, span_name};
use balance_rows::{Layout, totals_of};
use book::{Mixed, Styles};
use hl_base::{Bytes, List, Memory, Text};
use hl_time::Span;
use query::Types;
use report_cells::{CellRow, Cells, ReportFault};
use report_table::{Section, Table2, table_text};
use std::alloc::Global;

/// The sections of a statement, and its last line, if it shows one.
#[derive(Drop)]
struct Body {
    sections: List<Section>,
    last: Option<(Text, List<Mixed>)>,
}

/// The title of a statement: its kind, and of which days.
fn title(alloc: Global, statement: Statement, columns: &[Span]) -> Result<Text, Memory>
    requires { 0 < length columns.now }
    ensures { IfOk result (λ title. title ≡ title_of statement ++ span_text columns.now) }
{
    let mut title = String::from_str(alloc, statement.title())?;
    title.push_str(span_name(alloc, columns)?.as_str())?;
    Ok(Text::from_string(title))
}

/// A list of two sections.
fn both(alloc: Global, first: Section, second: Section) -> Result<List<Section>, Memory>
    ensures { IfOk result (λ sections. sections ≡ first ∷ second ∷ []) }
{
    let mut sections = Vec::new(alloc);
    sections.push(first)?;
    sections.push(second)?;
    Ok(List::from_vec(sections))
}

/// The sections of a statement and its last line, from the rows of both sections. `Range` names the least symbol in
/// which an average can't be told.
fn body_of(
    alloc: Global,
    page: &Page,
    statement: Statement,
    upper: List<CellRow>,
    lower: List<CellRow>,
) -> Result<Body, ReportFault>
    requires some { 0 < page.now.columns }
    requires fits { PartsFit (layout_on page.now) (map row_seen upper) (map row_seen lower) }
    ensures body { IfOk result (IsBody statement (layout_on page.now) page.now.columns
        (style_on page.now)
        (map row_seen upper) (map row_seen lower)) }
    ensures told { OnOk result (least
        (parts_out (layout_on page.now) page.now.columns (style_on page.now)
        (map row_seen upper) (map row_seen lower)) ≡ None) }
    ensures fault { IfErr result (IsFault (least (parts_out (layout_on page.now) page.now.columns
        (style_on page.now) (map row_seen upper) (map row_seen lower)))) }
{
    let firsts = totals_of(alloc, upper.as_slice(), page.columns)?;
    let seconds = totals_of(alloc, lower.as_slice(), page.columns)?;
    let mut least = None;
    let last = net_line(
        alloc,
        page,
        firsts.as_slice(),
        seconds.as_slice(),
        &mut least,
    )?;
    let one = section(alloc, page, statement.first(), upper, firsts, &mut least)?;
    let two = section(alloc, page, statement.second(), lower, seconds, &mut least)?;
    check_averages(least)?;
    let sections = both(alloc, one, two)?;
    Ok(Body { sections, last })
}

/// The text of a statement.
fn statement_text(
    alloc: Global,
    statement: Statement,
    cells: Cells,
    layout: &Layout,
    types: &Types,
    styles: &Styles,
) -> Result<Bytes, ReportFault>
    requires some { 0 < length cells.columns }
    requires fits { CellsFit layout.now (map row_seen cells.rows) }
    ensures text { IfOk result (λ text.
        text ≡ statement_text statement layout.now (own_in types.now)
        (style_in styles.now) cells.columns (map row_seen cells.rows)) }
    ensures told { OnOk result (out_of_range statement layout.now (own_in types.now)
        (style_in styles.now)
        (length cells.columns) (map row_seen cells.rows) ≡ None) }
    ensures fault { IfErr result (IsFault (out_of_range statement layout.now (own_in types.now)
        (style_in styles.now) (length cells.columns) (map row_seen cells.rows))) }
{
    let columns = cells.columns.as_slice();
    let rows = cells.rows.as_slice();
    let title = title(alloc, statement, columns)?;
    let heads = heads(alloc, layout, columns)?;
    let upper = part_rows(alloc, rows, types, statement.first())?;
    let lower = part_rows(alloc, rows, types, statement.second())?;
    let page = Page {
        layout,
        styles,
        columns: columns.len(),
    };
    let body = body_of(alloc, &page, statement, upper, lower)?;
    let Body { sections, last } = body;
    let table = Table2 {
        title,
        heads,
        sections,
        last,
    };
    Ok(table_text(alloc, &table, styles)?)
}

/// The income statement: the revenues, turned, and the expenses, each in the layout of a balance table, and the first
/// section's totals less the second's. A parent of another type is shown in a tree with the sum of the section's
/// accounts below it. `Range` names the least symbol in which an average can't be told.
pub fn income_text(
    alloc: Global,
    cells: Cells,
    layout: &Layout,
    types: &Types,
    styles: &Styles,
) -> Result<Bytes, ReportFault>
    requires some { 0 < length cells.columns }
    requires fits { CellsFit layout.now (map row_seen cells.rows) }
    ensures text { IfOk result (λ text.
        text ≡ statement_text Statement.Income layout.now (own_in types.now)
        (style_in styles.now) cells.columns (map row_seen cells.rows)) }
    ensures told { OnOk result (out_of_range Statement.Income layout.now (own_in types.now)
        (style_in styles.now)
        (length cells.columns) (map row_seen cells.rows) ≡ None) }
    ensures fault { IfErr result (IsFault
        (out_of_range Statement.Income layout.now (own_in types.now)
        (style_in styles.now) (length cells.columns) (map row_seen cells.rows))) }
{
    statement_text(alloc, Statement::Income, cells, layout, types, styles)
}

/// The balance sheet: the assets, those of cash among them, and the liabilities, turned, as the income statement shows
/// its sections. `Range` names the least symbol in which an average can't be told.
pub fn sheet_text(
    alloc: Global,
    cells: Cells,
    layout: &Layout,
    types: &Types,
    styles: &Styles,
) -> Result<Bytes, ReportFault>
    requires some { 0 < length cells.columns }
    requires fits { CellsFit layout.now (map row_seen cells.rows) }
    ensures text { IfOk result (λ text.
        text ≡ statement_text Statement.Sheet layout.now (own_in types.now)
        (style_in styles.now) cells.columns (map row_seen cells.rows)) }
    ensures told { OnOk result (out_of_range Statement.Sheet layout.now (own_in types.now)
        (style_in styles.now)
        (length cells.columns) (map row_seen cells.rows) ≡ None) }
    ensures fault { IfErr result (IsFault
        (out_of_range Statement.Sheet layout.now (own_in types.now)
        (style_in styles.now) (length cells.columns) (map row_seen cells.rows))) }
{
    statement_text(alloc, Statement::Sheet, cells, layout, types, styles)
}
