//! Running sums over the columns of a row.
ghost use Rattle.std.specs.Prelude.{◌≡◌, OnOk, IfOk, []};
ghost use Rattle.report_cells.specs.Kept.{MergeFits, RunningFits, FinishFits, merged, running, finished};

use crate::reach::Reach;
use crate::row::Row;
use book::{Mixed, MixedFault};
use hl_base::{List, Memory};
use std::alloc::Global;

/// The cells of a row: its sums, or with `UpTo` each with those of the columns before it.
pub(crate) fn finished(alloc: Global, row: Row, reach: Reach) -> Result<List<Mixed>, Memory>
    requires { FinishFits reach row }
    ensures { IfOk result (λ cells. cells ≡ finished reach row) }
{
    let sums = row.into_cells();
    match reach {
        Reach::Within => Ok(List::from_vec(sums)),
        Reach::UpTo => running_sums(alloc, sums.as_slice()),
    }
}

/// The sums of each column with those of the columns before it.
fn running_sums(alloc: Global, changes: &[Mixed]) -> Result<List<Mixed>, Memory>
    requires { RunningFits [] changes.now }
    ensures { IfOk result (λ cells. cells ≡ running [] changes.now) }
{
    let mut sofar = Mixed::new(alloc);
    let mut cells = Vec::new(alloc);
    for change in changes {
        add_sums(alloc, &mut sofar, change)?;
        cells.push(copied(alloc, &sofar)?)?;
    }
    Ok(List::from_vec(cells))
}

/// A copy of some sums.
fn copied(alloc: Global, sums: &Mixed) -> Result<Mixed, Memory>
    requires { MergeFits [] sums.now }
    ensures { IfOk result (λ copy. copy ≡ merged [] sums.now) }
{
    let mut copy = Mixed::new(alloc);
    add_sums(alloc, &mut copy, sums)?;
    Ok(copy)
}

/// Adds each of some sums to others.
pub(crate) fn add_sums(alloc: Global, sums: &mut Mixed, more: &Mixed) -> Result<(), Memory>
    requires { MergeFits sums.old more.now }
    ensures { OnOk result (sums.new ≡ merged sums.old more.now) }
{
    for (symbol, value) in more.entries() {
        match sums.add(alloc, symbol, *value) {
            Ok(()) => {}
            Err(MixedFault::Memory) => return Err(Memory),
            Err(MixedFault::Range { a: _, b: _ }) => unreachable!(),
        }
    }
    Ok(())
}
