//! The least symbol in which an average can't be told.
ghost use Rattle.std.specs.Prelude.{◌≡◌, OnOk, IfErr, Option, None, Some, if◌then◌else◌};
ghost use Rattle.std.specs.Ordering.{nat_cmp, is_lt};
ghost use Rattle.std.specs.Cmp.Lexicographic.{slice_cmp};
ghost use Rattle.balance_layouts.specs.Averages.{lesser};
ghost use Rattle.balance_layouts.specs.Balance.{IsFault};

use hl_base::{Memory, Text};
use report_cells::ReportFault;
use std::alloc::Global;

/// Whether a symbol is less than another, by their bytes.
fn is_before(symbol: &Text, other: &Text) -> bool
    ensures { result ≡ is_lt (slice_cmp nat_cmp symbol.now other.now) }
{
    symbol.as_str().cmp(other.as_str()).is_lt()
}

/// Whether a symbol is less than the one that is kept, or none is kept.
fn is_lesser(symbol: &Text, least: &Option<Text>) -> bool
    ensures { (if result then Some symbol.now else least.now) ≡ lesser least.now symbol.now }
{
    match least {
        None => true,
        Some(other) => is_before(symbol, other),
    }
}

/// Keeps a symbol, where it is less than the one that is kept, or none is kept. Fails only for want of memory.
pub fn keep_lesser(alloc: Global, least: &mut Option<Text>, symbol: &Text) -> Result<(), Memory>
    ensures { OnOk result (least.new ≡ lesser least.old symbol.now) }
{
    if is_lesser(symbol, least) {
        *least = Some(Text::copied(alloc, symbol.as_str())?);
    }
    Ok(())
}

/// Refuses a report in which an average can't be told: `Range` with the least symbol that was kept.
pub fn check_averages(least: Option<Text>) -> Result<(), ReportFault>
    ensures told { OnOk result (least ≡ None) }
    ensures fault { IfErr result (IsFault least) }
{
    match least {
        None => Ok(()),
        Some(symbol) => Err(ReportFault::Range { symbol }),
    }
}
