//! The table of a balance report.
ghost use Rattle.std.specs.Prelude.{◌≡◌, ◌<◌, ◌∷◌, [], true, false, None, Some, IfOk, IfErr, OnOk, length, map, if◌then◌else◌};
ghost use Rattle.std.specs.List.{AllByRecursion};
ghost use Rattle.book.specs.Styles.{style_in};
ghost use Rattle.report_cells.specs.Report.{row_seen, seen};
ghost use Rattle.balance_rows.specs.Fitting.{Fit, RowFits};
ghost use Rattle.balance_rows.specs.Sums.{entries_of};
ghost use Rattle.balance_layouts.specs.Averages.{least_with};
ghost use Rattle.balance_layouts.specs.Balance.{IsFault};
ghost use Rattle.balance_layouts.specs.TableRows.{IsSection, named_seen, seen_totals};
ghost use Rattle.balance_layouts.specs.Tables.{balance_table};
ghost use Rattle.balance_layouts.specs.Totals.{TotalsFit, asks_totals, first_out, outs_of, rows_out, table_row, totals_out, with_total};

use crate::least::check_averages;
use crate::titles::{heads, title};
use crate::totals::with_total;
use balance_rows::{Layout, name_of};
use book::{Mixed, Styles};
use hl_base::{Bytes, List, Memory, Text};
use hl_time::Span;
use report_cells::{CellRow, ReportFault};
use report_table::{Section, Table2};
use std::alloc::Global;

/// The table of rows that stand in their order, and of their totals. `Range` names the least symbol in which an average
/// can't be told.
pub fn table_text(
    alloc: Global,
    columns: &[Span],
    rows: List<CellRow>,
    totals: List<Mixed>,
    layout: &Layout,
    styles: &Styles,
) -> Result<Bytes, ReportFault>
    requires some { 0 < length columns.now }
    requires fits { TotalsFit layout.now (map row_seen rows) (map seen totals) }
    ensures text { IfOk result (λ text. text ≡ balance_table layout.now (style_in styles.now)
        columns.now (map row_seen rows) (map seen totals)) }
    ensures told { OnOk result (first_out layout.now (length columns.now) (style_in styles.now)
        (map row_seen rows) (map seen totals) ≡ None) }
    ensures fault { IfErr result (IsFault
        (first_out layout.now (length columns.now) (style_in styles.now)
        (map row_seen rows) (map seen totals))) }
{
    let title = title(alloc, layout.basis, columns)?;
    let heads = heads(alloc, layout, columns)?;
    let section = section(alloc, rows, totals, layout, columns.len() as u64, styles)?;
    let sections = one_section(alloc, section)?;
    let table = Table2 {
        title,
        heads,
        sections,
        last: None,
    };
    Ok(report_table::table_text(alloc, &table, styles)?)
}

/// A list of one section.
fn one_section(alloc: Global, section: Section) -> Result<List<Section>, Memory>
    ensures { IfOk result (λ sections. sections ≡ section ∷ []) }
{
    let mut sections = Vec::new(alloc);
    sections.push(section)?;
    Ok(List::from_vec(sections))
}

/// The one section of a table, which has no name.
#[tactic(auto, using(crate::proofs::AverageLaws::both_more))]
fn section(
    alloc: Global,
    rows: List<CellRow>,
    totals: List<Mixed>,
    layout: &Layout,
    columns: u64,
    styles: &Styles,
) -> Result<Section, ReportFault>
    requires fits { TotalsFit layout.now (map row_seen rows) (map seen totals) }
    requires some { 0 < columns }
    ensures section { IfOk result (IsSection layout.now columns (style_in styles.now)
        (map row_seen rows) (map seen totals)) }
    ensures told { OnOk result (first_out layout.now columns (style_in styles.now)
        (map row_seen rows) (map seen totals) ≡ None) }
    ensures fault { IfErr result (IsFault (first_out layout.now columns (style_in styles.now)
        (map row_seen rows) (map seen totals))) }
{
    let mut least = None;
    let rows = table_rows(alloc, rows, layout, columns, styles, &mut least)?;
    let totals = table_totals(alloc, totals, layout, columns, styles, &mut least)?;
    check_averages(least)?;
    Ok(Section {
        name: None,
        rows,
        totals,
    })
}

/// The rows of a table, with their names, and totals and averages behind their cells, where the layout asks for these.
/// Of the symbols in which an average can't be told and the one that is kept already, the least is kept.
pub fn table_rows(
    alloc: Global,
    rows: List<CellRow>,
    layout: &Layout,
    columns: u64,
    styles: &Styles,
    least: &mut Option<Text>,
) -> Result<List<(Text, List<Mixed>)>, Memory>
    requires fits { asks_totals layout.now ≡ true → AllByRecursion RowFits (map row_seen rows) }
    requires some { 0 < columns }
    ensures rows { IfOk result (λ made. map named_seen made
        ≡ map (table_row layout.now columns (style_in styles.now)) (map row_seen rows)) }
    ensures least { OnOk result (least.new
        ≡ least_with least.old
        (rows_out layout.now columns (style_in styles.now) (map row_seen rows))) }
{
    let mut made = Vec::new(alloc);
    for row in rows.into_vec() {
        made.push(table_row(alloc, row, layout, columns, styles, least)?)?;
    }
    Ok(List::from_vec(made))
}

/// A row of a table.
fn table_row(
    alloc: Global,
    row: CellRow,
    layout: &Layout,
    columns: u64,
    styles: &Styles,
    least: &mut Option<Text>,
) -> Result<(Text, List<Mixed>), Memory>
    requires fits { asks_totals layout.now ≡ true → RowFits (row_seen row) }
    requires some { 0 < columns }
    ensures row { IfOk result (λ made. named_seen made
        ≡ table_row layout.now columns (style_in styles.now) (row_seen row)) }
    ensures least { OnOk result (least.new
        ≡ least_with least.old
        (outs_of layout.now columns (style_in styles.now) (map seen row.cells))) }
{
    let CellRow { account, cells } = row;
    let name = name_of(alloc, &account, layout.order)?;
    let cells = with_total(alloc, cells, layout, columns, styles, least)?;
    Ok((name, cells))
}

/// The totals of a table, with their own total and its average behind them, unless totals are left out. Of the symbols
/// in which an average can't be told and the one that is kept already, the least is kept.
pub fn table_totals(
    alloc: Global,
    totals: List<Mixed>,
    layout: &Layout,
    columns: u64,
    styles: &Styles,
    least: &mut Option<Text>,
) -> Result<Option<List<Mixed>>, Memory>
    requires fits { asks_totals layout.now ≡ true → layout.now.no_total ≡ false
        → Fit (entries_of (map seen totals)) }
    requires some { 0 < columns }
    ensures totals { IfOk result (λ made. seen_totals made ≡ (if layout.now.no_total then None
        else Some (with_total layout.now columns (style_in styles.now) (map seen totals)))) }
    ensures least { OnOk result (least.new
        ≡ least_with least.old
        (totals_out layout.now columns (style_in styles.now) (map seen totals))) }
{
    if layout.no_total {
        return Ok(None);
    }
    let cells = with_total(alloc, totals, layout, columns, styles, least)?;
    Ok(Some(cells))
}
