//! The sections of a statement, and its last line.
ghost use Rattle.std.specs.Prelude.{◌≡◌, ◌<◌, ◌++◌, ◌∷◌, [], IfOk, OnOk, map};
ghost use Rattle.report_cells.specs.Report.{row_seen, seen};
ghost use Rattle.balance_rows.specs.Fitting.{ColumnsFit};
ghost use Rattle.balance_layouts.specs.Averages.{least_with};
ghost use Rattle.balance_layouts.specs.Totals.{totals_out};
ghost use Rattle.statements.specs.Chosen.{net, net_rows};
ghost use Rattle.statements.specs.Exactly.{exact_last, exactly, net_named};
ghost use Rattle.statements.specs.Fits.{NetFits, SectionFits};
ghost use Rattle.statements.specs.OnPage.{layout_on, style_on};
ghost use Rattle.statements.specs.Turned.{as_shown};
ghost use Rattle.statements.specs.Written.{net_line, part_out, part_section};

use crate::statement::Part;
use crate::turning::copied_cells;
use balance_layouts::{table_rows, table_totals};
use balance_rows::{Layout, laid_rows, totals_of};
use book::{Mixed, Styles};
use hl_base::{List, Memory, Text};
use report_cells::CellRow;
use report_table::Section;
use std::alloc::Global;

/// What a statement is shown with: its layout, the styles of its amounts, and how many columns it has.
#[derive(Drop)]
pub struct Page<'a> {
    pub layout: &'a Layout,
    pub styles: &'a Styles,
    pub columns: usize,
}

/// A section, from its rows and their totals. Of the symbols in which an average can't be told and the one that is kept
/// already, the least is kept.
#[tactic(auto, using(crate::proofs::Alike::part_least, crate::proofs::Fitted::rows_laid))]
pub fn section(
    alloc: Global,
    page: &Page,
    part: Part,
    rows: List<CellRow>,
    totals: List<Mixed>,
    least: &mut Option<Text>,
) -> Result<Section, Memory>
    requires some { 0 < page.now.columns }
    requires fits { SectionFits (layout_on page.now) page.now.columns (map row_seen rows)
        (map seen totals) }
    ensures section { IfOk result (λ section. exactly section ≡ part_section (layout_on page.now)
        page.now.columns (style_on page.now) part (map row_seen rows) (map seen totals)) }
    ensures least { OnOk result (least.new ≡ least_with least.old (part_out (layout_on page.now)
        page.now.columns (style_on page.now) (map row_seen rows) (map seen totals))) }
{
    let columns = page.columns as u64;
    let laid = laid_rows(alloc, rows, page.columns, page.layout)?;
    let made = table_rows(alloc, laid, page.layout, columns, page.styles, least)?;
    let shown = table_totals(alloc, totals, page.layout, columns, page.styles, least)?;
    let name = Text::copied(alloc, part.name())?;
    Ok(Section {
        name: Some(name),
        rows: made,
        totals: shown,
    })
}

/// Totals as a row without a name, with the other sign where they are turned.
fn unnamed(alloc: Global, totals: &[Mixed], turn: bool) -> Result<CellRow, Memory>
    ensures { IfOk result (λ row. row_seen row ≡ ([], map (as_shown turn) (map seen totals.now))) }
{
    let cells = copied_cells(alloc, totals, turn)?;
    Ok(CellRow {
        account: Text::new(alloc),
        cells,
    })
}

/// The totals of two sections as rows, the second turned.
fn net_rows(alloc: Global, first: &[Mixed], second: &[Mixed]) -> Result<Vec<CellRow>, Memory>
    ensures { IfOk result (λ rows.
        map row_seen rows.items ≡ net_rows (map seen first.now) (map seen second.now)) }
{
    let mut rows = Vec::new(alloc);
    rows.push(unnamed(alloc, first, false)?)?;
    rows.push(unnamed(alloc, second, true)?)?;
    Ok(rows)
}

/// The first totals less the second ones.
#[tactic(auto, using(crate::proofs::Fitted::same_columns, crate::proofs::Fitted::same_sums))]
fn net(
    alloc: Global,
    first: &[Mixed],
    second: &[Mixed],
    columns: usize,
) -> Result<List<Mixed>, Memory>
    requires { ColumnsFit (net_rows (map seen first.now) (map seen second.now)) }
    ensures { IfOk result (λ sums.
        map seen sums ≡ net columns (map seen first.now) (map seen second.now)) }
{
    let rows = net_rows(alloc, first, second)?;
    totals_of(alloc, rows.as_slice(), columns)
}

/// Cells behind the name of the last line, where there are some.
fn named_net(
    alloc: Global,
    cells: Option<List<Mixed>>,
) -> Result<Option<(Text, List<Mixed>)>, Memory>
    ensures { IfOk result (λ line. line ≡ net_named cells) }
{
    match cells {
        Some(cells) => {
            let name = Text::copied(alloc, "Net:")?;
            Ok(Some((name, cells)))
        }
        None => Ok(None),
    }
}

/// The last line of a statement: the first totals less the second ones, unless totals are left out. Of the symbols in
/// which an average can't be told and the one that is kept already, the least is kept.
#[tactic(auto, using(crate::proofs::Alike::net_is, crate::proofs::Alike::net_least, crate::proofs::Fitted::net_total))]
pub fn net_line(
    alloc: Global,
    page: &Page,
    first: &[Mixed],
    second: &[Mixed],
    least: &mut Option<Text>,
) -> Result<Option<(Text, List<Mixed>)>, Memory>
    requires some { 0 < page.now.columns }
    requires fits { NetFits (layout_on page.now)
        (net_rows (map seen first.now) (map seen second.now)) }
    ensures line { IfOk result (λ line.
        exact_last line ≡ net_line (layout_on page.now) page.now.columns
        (style_on page.now) (net page.now.columns (map seen first.now) (map seen second.now))) }
    ensures least { OnOk result (least.new
        ≡ least_with least.old (totals_out (layout_on page.now) page.now.columns
        (style_on page.now) (net page.now.columns (map seen first.now) (map seen second.now)))) }
{
    let sums = net(alloc, first, second, page.columns)?;
    let columns = page.columns as u64;
    let cells = table_totals(alloc, sums, page.layout, columns, page.styles, least)?;
    named_net(alloc, cells)
}
