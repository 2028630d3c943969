//! The averages of totals by a number of columns.
ghost use Rattle.std.specs.Prelude.{◌≡◌, ◌<◌, ◌++◌, IfOk, OnOk};
ghost use Rattle.book.specs.Styles.{style_in};
ghost use Rattle.report_cells.specs.Report.{seen};
ghost use Rattle.balance_layouts.specs.Averages.{averages, least_with, symbols_out};
ghost use Rattle.balance_layouts.specs.KeptAverages.{StandBefore, entry_average, least_beside, shown_average, unless_zero};

use crate::dividing::average;
use crate::least::keep_lesser;
use book::{Mixed, MixedFault, Styles};
use hl_base::{Memory, Text};
use hl_num::Dec;
use std::alloc::Global;

/// Puts a value behind those of lesser symbols, unless it is zero.
#[tactic(auto, using(crate::proofs::Behind::added_behind, crate::proofs::Behind::none_held))]
fn put_last(alloc: Global, made: &mut Mixed, symbol: &Text, value: Dec) -> Result<(), Memory>
    requires { StandBefore symbol.now made.old }
    ensures { OnOk result (made.new ≡ made.old ++ unless_zero symbol.now value) }
{
    match made.add(alloc, symbol, value) {
        Ok(()) => Ok(()),
        Err(MixedFault::Memory) => Err(Memory),
        Err(MixedFault::Range { a: _, b: _ }) => unreachable!(),
    }
}

/// Puts an average behind those of lesser symbols, or where it can't be told keeps its symbol, if that is the least.
fn put_average(
    alloc: Global,
    made: &mut Mixed,
    least: &mut Option<Text>,
    symbol: &Text,
    average: Option<Dec>,
) -> Result<(), Memory>
    requires { StandBefore symbol.now made.old }
    ensures made { OnOk result (made.new ≡ made.old ++ shown_average symbol.now average) }
    ensures least { OnOk result (least.new ≡ least_beside least.old symbol.now average) }
{
    match average {
        Some(average) => put_last(alloc, made, symbol, average),
        None => keep_lesser(alloc, least, symbol),
    }
}

/// The average of a sum by a number of columns, in its symbol's style.
fn average_in(symbol: &Text, value: Dec, columns: u64, styles: &Styles) -> Option<Dec>
    requires { 0 < columns }
    ensures { result ≡ entry_average columns (style_in styles.now) (symbol.now, value) }
{
    average(value, columns, styles.style(symbol).places)
}

/// The averages of a total by a number of columns, half to even at the decimals of their styles, without those that are
/// zero. Of the symbols in which one can't be told, since a term of the division reaches 2^127, and the one that is
/// kept already, the least is kept.
pub fn averages(
    alloc: Global,
    total: &Mixed,
    columns: u64,
    styles: &Styles,
    least: &mut Option<Text>,
) -> Result<Mixed, Memory>
    requires { 0 < columns }
    ensures averages { IfOk result (λ made.
        seen made ≡ averages columns (style_in styles.now) (seen total.now)) }
    ensures least { OnOk result (least.new
        ≡ least_with least.old (symbols_out columns (style_in styles.now) (seen total.now))) }
{
    let entries = total.entries();
    let mut made = Mixed::new(alloc);
    for (symbol, value) in entries {
        let average = average_in(symbol, *value, columns, styles);
        put_average(alloc, &mut made, least, symbol, average)?;
    }
    Ok(made)
}
