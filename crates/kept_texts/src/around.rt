//! The styles of a text with an entry, and gaps around it, in the place of one.
ghost use Rattle.std.specs.Prelude.{◌≡◌, ◌<◌, ◌++◌, ◌∷◌, [], List, Option, IfOk, length};
ghost use Rattle.book.specs.declared.item.Placed.{Placed as Stood};
ghost use Rattle.counted_styles.specs.Texts.{IsOf};
ghost use Rattle.changed_texts.specs.OneEntry as spec;

use book::Placed;
use changed_texts::{Met, begins_gap, ends_gap};
use counted_styles::TextStyles;
use hl_base::Memory;
use std::alloc::Global;
use std::slice::from_ref;

/// The item that a gap, if there is one, is beside another one, where that is a gap or not.
fn beside(gap: &Option<Placed>, joins: bool) -> &[Placed]
    ensures { (other : Option Stood) → spec.is_gap_item other ≡ joins
        → result.now ≡ spec.beside gap.now other }
{
    if joins { &[] } else { gap.as_slice() }
}

/// The styles of some items with others behind them.
fn styles_before(alloc: Global, front: &[Placed], ahead: &[Placed]) -> Result<TextStyles, Memory>
    ensures { IfOk result (IsOf (front.now ++ ahead.now)) }
{
    let styles = TextStyles::of(alloc, front)?;
    let all = styles.with_added(alloc, ahead)?;
    Ok(all)
}

/// The styles of some items with an item, others and more others behind them.
fn styles_behind(
    alloc: Global,
    styles: &TextStyles,
    entry: &Placed,
    after: &[Placed],
    rest: &[Placed],
) -> Result<TextStyles, Memory>
    ensures { IfOk result (λ all. (items : List Stood) → IsOf items styles.now
        → IsOf (((items ++ (entry.now ∷ [])) ++ after.now) ++ rest.now) all) }
{
    let with_entry = styles.with_added(alloc, from_ref(entry))?;
    let with_after = with_entry.with_added(alloc, after)?;
    let all = with_after.with_added(alloc, rest)?;
    Ok(all)
}

/// The styles of a text's items with an entry, and gaps around it or none, in the place of one of them.
pub(crate) fn styles_met(
    alloc: Global,
    items: &[Placed],
    number: usize,
    met: &Met,
) -> Result<TextStyles, Memory>
    requires number { number < length items.now }
    requires met { spec.IsMet number items.now met.now }
    ensures { IfOk result (IsOf (spec.items_met number items.now met.now)) }
{
    let (front, _) = items.split_at(number);
    let (_, rest) = items.split_at(number + 1);
    let ahead = beside(&met.before, ends_gap(front));
    let after = beside(&met.behind, begins_gap(rest));
    let styles = styles_before(alloc, front, ahead)?;
    let all = styles_behind(alloc, &styles, &met.placed, after, rest)?;
    Ok(all)
}
