//! Copies of cells, with the other sign where they are turned.
ghost use Rattle.std.specs.Prelude.{◌≡◌, ◌≢◌, pos, ◌++◌, ◌∷◌, [], IfOk, OnOk, map};
ghost use Rattle.report_cells.specs.Report.{row_seen, seen};
ghost use Rattle.balance_layouts.specs.KeptAverages.{StandBefore};
ghost use Rattle.statements.specs.Turned.{as_shown, kept_shown, row_shown, signed};

use book::{Mixed, MixedFault};
use hl_base::{List, Memory, Text};
use hl_num::Dec;
use report_cells::CellRow;
use std::alloc::Global;

/// A value, with the other sign where it is turned.
fn signed(value: Dec, turn: bool) -> Dec
    ensures { result ≡ signed turn value }
{
    if turn { value.negated() } else { value }
}

/// Puts a value behind those of lesser symbols.
#[tactic(auto, using(crate::proofs::Behind::added_last, crate::proofs::Behind::never_held))]
fn put_last(alloc: Global, made: &mut Mixed, symbol: &Text, value: Dec) -> Result<(), Memory>
    requires before { StandBefore symbol.now made.old }
    requires nonzero { value.mantissa ≢ pos 0 }
    ensures { OnOk result (made.new ≡ made.old ++ (symbol.now, value) ∷ []) }
{
    match made.add(alloc, symbol, value) {
        Ok(()) => Ok(()),
        Err(MixedFault::Memory) => Err(Memory),
        Err(MixedFault::Range { a: _, b: _ }) => unreachable!(),
    }
}

/// A copy of a cell, as it is kept.
fn kept_copy(alloc: Global, cell: &Mixed, turn: bool) -> Result<Mixed, Memory>
    ensures { IfOk result (λ copy. copy ≡ kept_shown turn cell.now) }
{
    let entries = cell.entries();
    let mut copy = Mixed::new(alloc);
    for (symbol, value) in entries {
        put_last(alloc, &mut copy, symbol, signed(*value, turn))?;
    }
    Ok(copy)
}

/// A copy of a cell.
#[tactic(auto, using(crate::proofs::Signs::seen_shown))]
fn copied(alloc: Global, cell: &Mixed, turn: bool) -> Result<Mixed, Memory>
    ensures { IfOk result (λ copy. seen copy ≡ as_shown turn (seen cell.now)) }
{
    let copy = kept_copy(alloc, cell, turn)?;
    Ok(copy)
}

/// Copies of cells.
pub fn copied_cells(alloc: Global, cells: &[Mixed], turn: bool) -> Result<List<Mixed>, Memory>
    ensures { IfOk result (λ copies. map seen copies ≡ map (as_shown turn) (map seen cells.now)) }
{
    let mut copies = Vec::new(alloc);
    for cell in cells {
        copies.push(copied(alloc, cell, turn)?)?;
    }
    Ok(List::from_vec(copies))
}

/// A copy of a row.
pub fn copied_row(alloc: Global, row: &CellRow, turn: bool) -> Result<CellRow, Memory>
    ensures { IfOk result (λ copy. row_seen copy ≡ row_shown turn (row_seen row.now)) }
{
    let account = Text::copied(alloc, row.account.as_str())?;
    let cells = copied_cells(alloc, row.cells.as_slice(), turn)?;
    Ok(CellRow { account, cells })
}
