//! Whether styles stay where items say more.
ghost use Rattle.std.specs.Prelude.{◌≡◌, ◌&&◌, true, IfOk};
ghost use Rattle.std.specs.List.{AllByRecursion};
ghost use Rattle.book.specs.Standing.{Numbered};
ghost use Rattle.book.specs.Style.{commodity_styles, default_styles, first_class, second_class};
ghost use Rattle.book.specs.Styles.{style_in, style_standing};
ghost use Rattle.book.specs.declared.item.Item.{Item as Read};
ghost use Rattle.counted_styles.specs.Alike as spec;
ghost use Rattle.counted_styles.specs.Kept.{AreOf};

use crate::said::{commodities, defaults, first, second};
use crate::styles::CountedStyles;
use book::{Item, Placed, Style, Styles, Written};
use hl_base::{Memory, Text};
use std::alloc::Global;

/// Whether there is this number.
fn is_number(number: Option<u8>, other: u8) -> bool
    ensures { result ≡ spec.is_number number other }
{
    match number {
        Some(number) => number == other,
        None => false,
    }
}

/// Whether two numbers are the same, or both are missing.
fn is_same_number(a: Option<u8>, b: Option<u8>) -> bool
    ensures { result ≡ spec.is_same_number a b }
{
    match b {
        Some(number) => is_number(a, number),
        None => a.is_none(),
    }
}

/// Whether both hold, or none does.
fn is_same_way(a: bool, b: bool) -> bool
    ensures { result ≡ spec.is_same_way a b }
{
    if a { b } else { !b }
}

/// Whether the symbols stand alike.
fn is_same_side(a: &Written, b: &Written) -> bool
    ensures { result ≡ spec.is_same_side a.now b.now }
{
    is_same_way(a.left, b.left) && is_same_way(a.spaced, b.spaced)
}

/// Whether the marks are the same.
fn has_same_marks(a: &Written, b: &Written) -> bool
    ensures { result ≡ spec.has_same_marks a.now b.now }
{
    is_same_number(a.mark, b.mark) && is_same_number(a.group, b.group)
}

/// Whether the groups have the same sizes.
fn has_same_groups(a: &Written, b: &Written) -> bool
    ensures { result ≡ spec.has_same_groups a.now b.now }
{
    a.first == b.first && a.rest == b.rest
}

/// Whether two shapes are the same.
fn is_same_shape(a: &Written, b: &Written) -> bool
    ensures { result ≡ spec.is_same_shape a.now b.now }
{
    is_same_side(a, b) && (has_same_marks(a, b) && has_same_groups(a, b))
}

/// Whether two styles are the same.
fn is_same_style(a: &Style, b: &Style) -> bool
    ensures { result ≡ spec.is_same_style a.now b.now }
{
    is_same_shape(&a.shape, &b.shape) && a.places == b.places
}

/// Whether a symbol has the same style in both.
fn is_alike(styles: &Styles, counted: &CountedStyles, symbol: &Text) -> bool
    ensures { (standing : Numbered Read) → AreOf standing counted.now → result ≡ true
        → style_in styles.now symbol.now ≡ style_standing standing symbol.now }
{
    let kept = styles.style(symbol);
    let now = counted.style(symbol);
    is_same_style(&kept, &now)
}

/// Whether each symbol of which something is said has the same style in both.
fn are_alike(styles: &Styles, counted: &CountedStyles, said: &[(Text, Style)]) -> bool
    ensures { (standing : Numbered Read) → AreOf standing counted.now → result ≡ true
        → spec.AreAlike (style_in styles.now) (style_standing standing) said.now }
{
    for one in said {
        let same = is_alike(styles, counted, &one.0);
        if !same {
            return false;
        }
    }
    true
}

/// The same of what an item says by directives.
fn are_directives_alike(
    alloc: Global,
    styles: &Styles,
    counted: &CountedStyles,
    item: &Item,
) -> Result<bool, Memory>
    ensures { IfOk result
        (λ same. (standing : Numbered Read) → AreOf standing counted.now → same ≡ true
        → spec.AreDirectivesAlike (style_in styles.now) (style_standing standing) item.now) }
{
    let by_commodity = commodities(alloc, item)?;
    let by_default = defaults(alloc, item)?;
    let front = by_commodity.as_slice();
    let back = by_default.as_slice();
    let one = are_alike(styles, counted, front);
    let other = are_alike(styles, counted, back);
    Ok(are_both(one, other))
}

/// The same of what it says by other amounts.
fn are_amounts_alike(
    alloc: Global,
    styles: &Styles,
    counted: &CountedStyles,
    item: &Item,
) -> Result<bool, Memory>
    ensures { IfOk result
        (λ same. (standing : Numbered Read) → AreOf standing counted.now → same ≡ true
        → spec.AreAmountsAlike (style_in styles.now) (style_standing standing) item.now) }
{
    let by_posting = first(alloc, item)?;
    let by_others = second(alloc, item)?;
    let front = by_posting.as_slice();
    let back = by_others.as_slice();
    let one = are_alike(styles, counted, front);
    let other = are_alike(styles, counted, back);
    Ok(are_both(one, other))
}

/// Whether each symbol of which an item says something has the same style in both.
pub(crate) fn is_item_alike(
    alloc: Global,
    styles: &Styles,
    counted: &CountedStyles,
    item: &Item,
) -> Result<bool, Memory>
    ensures { IfOk result
        (λ same. (standing : Numbered Read) → AreOf standing counted.now → same ≡ true
        → spec.IsItemAlike (style_in styles.now) (style_standing standing) item.now) }
{
    let directives = are_directives_alike(alloc, styles, counted, item)?;
    let amounts = are_amounts_alike(alloc, styles, counted, item)?;
    Ok(are_both(directives, amounts))
}

/// The same of some items.
pub(crate) fn are_items_alike(
    alloc: Global,
    styles: &Styles,
    counted: &CountedStyles,
    items: &[Placed],
) -> Result<bool, Memory>
    ensures { IfOk result
        (λ same. (standing : Numbered Read) → AreOf standing counted.now → same ≡ true
        → AllByRecursion (λ p. spec.IsItemAlike (style_in styles.now)
        (style_standing standing) p.item) items.now) }
{
    for placed in items {
        let same = is_item_alike(alloc, styles, counted, &placed.item)?;
        if !same {
            return Ok(false);
        }
    }
    Ok(true)
}

/// Whether both are so.
pub(crate) fn are_both(one: bool, other: bool) -> bool
    ensures { result ≡ (one && other) }
{
    one && other
}
