//! The rows of a section.
ghost use Rattle.std.specs.Prelude.{◌≡◌, ◌++◌, ◌∷◌, [], IfOk, OnOk, map};
ghost use Rattle.query.specs.OwnLetters.{own_in};
ghost use Rattle.report_cells.specs.Report.{row_seen};
ghost use Rattle.statements.specs.Chosen.{is_in, part_rows};

use crate::statement::Part;
use crate::turning::copied_row;
use hl_base::{List, Memory};
use query::Types;
use report_cells::CellRow;
use std::alloc::Global;

/// Whether a row's account is one of a section's.
fn is_in(row: &CellRow, types: &Types, part: Part) -> bool
    ensures { result ≡ is_in (own_in types.now) part (row_seen row.now) }
{
    part.has(types.of(&row.account))
}

/// Appends a row as a section shows it, where it is one of the section's.
fn push_own(
    alloc: Global,
    own: &mut Vec<CellRow>,
    row: &CellRow,
    types: &Types,
    part: Part,
) -> Result<(), Memory>
    ensures { OnOk result (map row_seen own.new.items ≡ map row_seen own.old.items
        ++ part_rows (own_in types.now) part (row_seen row.now ∷ [])) }
{
    if is_in(row, types, part) {
        own.push(copied_row(alloc, row, part.is_turned())?)?;
    }
    Ok(())
}

/// The rows of a section, with their amounts as it shows them.
#[tactic(auto, using(crate::proofs::Picking::part_more))]
pub fn part_rows(
    alloc: Global,
    rows: &[CellRow],
    types: &Types,
    part: Part,
) -> Result<List<CellRow>, Memory>
    ensures { IfOk result (λ own. map row_seen own
        ≡ part_rows (own_in types.now) part (map row_seen rows.now)) }
{
    let mut own = Vec::new(alloc);
    for row in rows {
        push_own(alloc, &mut own, row, types, part)?;
    }
    Ok(List::from_vec(own))
}
