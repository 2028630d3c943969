//! The least symbol in which a percentage can't be told.
ghost use Rattle.std.specs.Prelude.{◌≡◌, OnOk};
ghost use Rattle.balance_layouts.specs.Averages.{least_with};
ghost use Rattle.budget_layout.specs.Percents.{out_by};

use crate::percent::Percent;
use balance_layouts::keep_lesser;
use hl_base::{Memory, Text};
use std::alloc::Global;

/// Of the goal's symbol, where a percentage can't be told, and the one that is kept already, the least is kept.
pub(crate) fn note_percent(
    alloc: Global,
    least: &mut Option<Text>,
    symbol: &Text,
    percent: &Percent,
) -> Result<(), Memory>
    ensures { OnOk result (least.new ≡ least_with least.old (out_by symbol.now percent.now)) }
{
    match percent {
        Percent::Missing => Ok(()),
        Percent::Told(_) => Ok(()),
        Percent::OutOfRange => keep_lesser(alloc, least, symbol),
    }
}
