//! What is kept of takings that are put in at once.
ghost use Rattle.std.specs.Prelude.{IfOk};
ghost use Rattle.report_cells.specs.Bounds as bounds;
ghost use Rattle.index_cells.specs.Keeps.{Keeps};
ghost use Rattle.index_cells.specs.Names.{NamesOf};

use crate::amounts::amounts_of;
use crate::kept::Kept;
use crate::names::{accounts_of, symbols_of};
use hl_base::Memory;
use live_index::Index;
use report_cells::Taking;
use std::alloc::Global;

/// What is kept of takings, no symbol of which is out of range.
pub(crate) fn keep(alloc: Global, takings: &[Taking]) -> Result<Kept, Memory>
    requires { bounds.TurnoverFits takings.now }
    ensures keeps { IfOk result (λ kept. Keeps takings.now kept) }
    ensures names { IfOk result (λ kept. NamesOf takings.now kept) }
{
    let accounts = accounts_of(alloc, takings)?;
    let symbols = symbols_of(alloc, takings)?;
    let amounts = amounts_of(alloc, takings)?;
    let sums = Index::of(alloc, &amounts)?;
    Ok(Kept {
        sums,
        accounts,
        symbols,
    })
}
