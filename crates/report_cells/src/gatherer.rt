//! Sums by account and column that are gathered while takings come.
ghost use Rattle.std.specs.Prelude.{◌≡◌, ◌||◌, ◌∷◌, [], OnOk, IfErr, None, List};
ghost use Rattle.hl_time.specs.declared.spans.Span.{Span};
ghost use Rattle.report_cells.specs.Follows.{Follow};
ghost use Rattle.report_cells.specs.Gathered.{Adds, Gathers, IsBegun};
ghost use Rattle.report_cells.specs.Made.{IsFull, Makes};
ghost use Rattle.report_cells.specs.Taken.{Taken};
ghost use Rattle.report_cells.specs.Turned.{first_full};
ghost use Rattle.report_cells.specs.declared.reach.Reach.{Reach};

use crate::account_key::AccountKey;
use crate::cells::{Cells, cells_of};
use crate::fault::ReportFault;
use crate::gather::add_taking;
use crate::place::place_of;
use crate::reach::Reach;
use crate::row::Row;
use crate::symbol_key::SymbolKey;
use crate::taking::Taking;
use crate::turnover::{Turnover, first_full, note};
use hl_base::{List, Memory, Text};
use hl_time::Span;
use std::alloc::Global;
use std::collections::BTreeMap;
use std::marker::Model;

/// The sums of takings by account and column, gathered while they come, one after another. Contracts see a `Gathered`.
#[derive(Drop)]
pub struct Gatherer<'a> {
    rows: BTreeMap<AccountKey<'a>, Row>,
    turnovers: BTreeMap<SymbolKey<'a>, Turnover>,
    full: bool,
    columns: List<Span>,
    reach: Reach,
}

impl<'a> Model for Gatherer<'a> {
    ghost use Rattle.report_cells.specs.Gathered.{Gathered};

    ghost Value = { Gathered };

    ghost view = { λ g. record { rows = g.rows.entries; turnovers = g.turnovers.entries; full = g.full; columns = g.columns; reach = g.reach } };
}

impl<'a> Gatherer<'a> {
    /// No takings yet, by these columns.
    pub fn new(alloc: Global, columns: List<Span>, reach: Reach) -> Gatherer<'a>
        requires { Follow columns }
        ensures { Gathers columns reach [] result }
    {
        Gatherer {
            rows: BTreeMap::new(alloc),
            turnovers: BTreeMap::new(alloc),
            full: false,
            columns,
            reach,
        }
    }

    /// Adds a taking to what came before it.
    pub fn add(&mut self, alloc: Global, taking: &Taking<'a>) -> Result<(), Memory>
        requires { IsBegun self.old }
        ensures { OnOk result (Adds self.old (taking.now ∷ []) self.new) }
    {
        let fills = note(&mut self.turnovers, &taking.amount)?;
        self.full = either(self.full, fills);
        if self.full {
            return Ok(());
        }
        let place = place_of(self.columns.as_slice(), self.reach, taking.day);
        add_taking(alloc, &mut self.rows, self.columns.len(), place, taking)
    }

    /// The sums of the takings that came. `Range` names the least symbol whose amounts are too large.
    pub fn finish(self, alloc: Global) -> Result<Cells, ReportFault>
        requires { IsBegun self }
        ensures { (columns : List Span) (reach : Reach) (ts : List Taken)
            → Gathers columns reach ts self.entry
            → Makes columns reach ts result }
    {
        let rows = self.rows;
        let columns = self.columns;
        let reach = self.reach;
        refuse_full(alloc, self.turnovers)?;
        cells_of(alloc, rows, columns, reach)
    }
}

/// Whether one or the other is so.
fn either(a: bool, b: bool) -> bool
    ensures { result ≡ (a || b) }
{
    a || b
}

/// Refuses absolute amounts of which those of a symbol are too large: `Range` names the least such symbol.
pub(crate) fn refuse_full<'a>(
    alloc: Global,
    turnovers: BTreeMap<SymbolKey<'a>, Turnover>,
) -> Result<(), ReportFault>
    ensures none { OnOk result (first_full turnovers.entry.entries ≡ None) }
    ensures fault { IfErr result (IsFull turnovers.entry.entries) }
{
    match first_full(turnovers) {
        Some(symbol) => {
            let symbol = Text::copied(alloc, symbol.as_str())?;
            Err(ReportFault::Range { symbol })
        }
        None => Ok(()),
    }
}
