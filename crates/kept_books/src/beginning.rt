//! What a walk of an edit begins with.
ghost use Rattle.std.specs.Prelude.{◌≡◌, ◌≤◌, IfOk, length};
ghost use Rattle.book.specs.Postings.{txns_of};
ghost use Rattle.watchers.specs.Watches.{AreOf, numbered_from};
ghost use Rattle.kept_books.specs.Beginning.{BegunBy, IsBegun, lent};
ghost use Rattle.kept_books.specs.Rewriting.{MayRewrite, meant};
ghost use Rattle.kept_books.specs.Writing.{AreSymbolsOf};

use crate::gathering::symbols_with;
use crate::rewriting::Rewriting;
use crate::spots::spots_of;
use crate::walks::Walks;
use crate::watching::watches_renewed;
use crate::written::{Renewal, renewal_of};
use book::Placed;
use hl_base::{List, Memory, Text};
use reached_walk::Spot;
use std::alloc::Global;
use watchers::Watchers;

/// What a walk of an edit is told of it: what the edit makes of the transactions, where the edited ones stand, in the order of
/// their places, the watches of the new text, and the symbols of the old and the new one.
#[derive(Drop)]
pub(crate) struct Begun<'a> {
    pub(crate) renewal: Renewal<'a>,
    pub(crate) spots: Vec<Spot>,
    pub(crate) watchers: Watchers,
    pub(crate) symbols: List<Text>,
}

/// What a walk begins with of what an edit makes of lent transactions.
fn begun_by<'a>(alloc: Global, walks: &Walks, renewal: Renewal<'a>) -> Result<Begun<'a>, Memory>
    requires first { renewal.first ≤ length renewal.former.txns.items }
    requires watched { AreOf (numbered_from 0 (lent renewal.former)) walks.now.watchers }
    requires symbols { AreSymbolsOf (lent renewal.former) walks.now.symbols }
    ensures { IfOk result (BegunBy renewal.entry) }
{
    let _former = renewal.former.txns.len();
    let _forms = renewal.forms.txns.len();
    let spots = spots_of(alloc, renewal.first, &renewal.forms)?;
    let watchers = watches_renewed(
        alloc,
        &walks.watchers,
        renewal.former.txns.as_slice(),
        renewal.first,
        renewal.forms.txns.as_slice(),
    )?;
    let symbols = symbols_with(
        alloc,
        walks.symbols.as_slice(),
        renewal.forms.txns.as_slice(),
    )?;
    Ok(Begun {
        renewal,
        spots,
        watchers,
        symbols,
    })
}

/// What a walk of an edit of the transactions of some items begins with.
pub(crate) fn walk_begun<'a>(
    alloc: Global,
    walks: &Walks,
    items: &'a [Placed],
    rewriting: &Rewriting<'a>,
) -> Result<Begun<'a>, Memory>
    requires watched { AreOf (numbered_from 0 (txns_of items.now)) walks.now.watchers }
    requires symbols { AreSymbolsOf (txns_of items.now) walks.now.symbols }
    requires may { MayRewrite (txns_of items.now) (meant rewriting.now) }
    ensures { IfOk result (IsBegun (txns_of items.now) (meant rewriting.now)) }
{
    let renewal = renewal_of(alloc, items, rewriting)?;
    begun_by(alloc, walks, renewal)
}
