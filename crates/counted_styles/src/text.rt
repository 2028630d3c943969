//! The styles of a text's items for reports, and what they are counted from.
ghost use Rattle.std.specs.Prelude.{◌≡◌, ◌+◌, ◌++◌, ℕ, List, Some, IfOk, OnOk, true, length, set, slice_get};
ghost use Rattle.book.specs.Standing.{Numbered, places_from, with_number, without_number};
ghost use Rattle.book.specs.Style.{style_of};
ghost use Rattle.book.specs.Styles.{style_in, style_standing};
ghost use Rattle.book.specs.declared.item.Item.{Item as Read};
ghost use Rattle.book.specs.declared.item.Placed.{Placed as Stood};
ghost use Rattle.counted_styles.specs.Alike.{IsSilent};
ghost use Rattle.counted_styles.specs.Kept.{AreOf, Stands};
ghost use Rattle.counted_styles.specs.Texts.{IsOf, decimals_in};

use crate::alike::{are_both, are_items_alike, is_item_alike};
use crate::styles::CountedStyles;
use book::{Item, Placed, Styles};
use hl_base::{Memory, Text};
use std::alloc::Global;

/// The styles of a text's items: for reports one of each symbol, which takes memory by symbols; and all that the items
/// say, each under its place. An edit takes time for what its items say and, where a symbol's style changes, for all
/// symbols, however many items there are. One that moves the places of other items makes them anew by `of`.
#[derive(Drop)]
pub struct TextStyles {
    counted: CountedStyles,
    count: u64,
    styles: Styles,
}

impl TextStyles {
    /// Those of a text's items.
    pub fn of(alloc: Global, items: &[Placed]) -> Result<TextStyles, Memory>
        ensures { IfOk result (IsOf items.now) }
    {
        let counted = CountedStyles::of(alloc, items)?;
        let styles = counted.styles(alloc)?;
        Ok(TextStyles {
            counted,
            count: items.len() as u64,
            styles,
        })
    }

    /// The styles of the items.
    pub fn styles(&self) -> &Styles
        ensures { (items : List Stood) → IsOf items self.now
            → (symbol : List ℕ) → style_in result.now symbol ≡ style_of items symbol }
    {
        &self.styles
    }

    /// The greatest number of decimals of the amounts of a symbol in transactions' postings, if it has any.
    pub fn decimals(&self, symbol: &Text) -> Option<u8>
        ensures { (items : List Stood) → IsOf items self.now
            → result ≡ decimals_in items symbol.now }
    {
        self.counted.decimals(symbol)
    }

    /// Those of the items with more behind them. These stay as they are.
    pub fn with_added(&self, alloc: Global, more: &[Placed]) -> Result<TextStyles, Memory>
        ensures { IfOk result
            (λ next. (items : List Stood) → IsOf items self.now → IsOf (items ++ more.now) next) }
    {
        let mut counted = self.counted.copy()?;
        let count = add_all(alloc, &mut counted, self.count, more)?;
        let alike = are_items_alike(alloc, &self.styles, &counted, more)?;
        let styles = restyled(alloc, &self.styles, &counted, alike)?;
        Ok(TextStyles {
            counted,
            count,
            styles,
        })
    }

    /// Those of the items with another one under a number, counted from 0. These stay as they are.
    pub fn with_changed(
        &self,
        alloc: Global,
        number: u64,
        old: &Item,
        new: &Item,
    ) -> Result<TextStyles, Memory>
        ensures { IfOk result (λ next. (items : List Stood) (was is : Stood) → IsOf items self.now
            → slice_get items number ≡ Some was → was.item ≡ old.now → is.item ≡ new.now
            → IsOf (set items number is) next) }
    {
        let mut counted = self.counted.copy()?;
        change(alloc, &mut counted, number, old, new)?;
        let styles = changed_styles(alloc, &self.styles, &counted, old, new)?;
        Ok(TextStyles {
            counted,
            count: self.count,
            styles,
        })
    }
}

/// The number after one.
fn following(number: u64) -> Result<u64, Memory>
    ensures { IfOk result (λ next. next ≡ number + 1) }
{
    match number.checked_add(1) {
        Some(next) => Ok(next),
        None => Err(Memory),
    }
}

/// Adds items under the numbers from one on, and tells the number after them.
fn add_all(
    alloc: Global,
    counted: &mut CountedStyles,
    count: u64,
    more: &[Placed],
) -> Result<u64, Memory>
    ensures next { IfOk result (λ next. next ≡ count + length more.now) }
    ensures added { OnOk result
        ((items : List Stood) → count ≡ length items → AreOf (places_from 0 items) counted.old
        → AreOf (places_from 0 (items ++ more.now)) counted.new) }
{
    let mut next = count;
    for placed in more {
        counted.add(alloc, next, &placed.item)?;
        let after = following(next)?;
        next = after;
    }
    Ok(next)
}

/// Puts an item under a number in the place of another.
fn change(
    alloc: Global,
    counted: &mut CountedStyles,
    number: u64,
    old: &Item,
    new: &Item,
) -> Result<(), Memory>
    ensures { OnOk result
        ((standing : Numbered Read) → AreOf standing counted.old → Stands number old.now standing
        → AreOf (with_number number new.now (without_number number standing)) counted.new) }
{
    counted.remove(alloc, number, old)?;
    counted.add(alloc, number, new)?;
    Ok(())
}

/// The styles of what is counted: those that are given, where they are the same.
fn restyled(
    alloc: Global,
    styles: &Styles,
    counted: &CountedStyles,
    alike: bool,
) -> Result<Styles, Memory>
    ensures { IfOk result (λ new. (standing : Numbered Read) → AreOf standing counted.now
        → (alike ≡ true → (symbol : List ℕ)
        → style_in styles.now symbol ≡ style_standing standing symbol)
        → (symbol : List ℕ) → style_in new symbol ≡ style_standing standing symbol) }
{
    if alike {
        let copy = styles.copy(alloc)?;
        return Ok(copy);
    }
    let new = counted.styles(alloc)?;
    Ok(new)
}

/// The styles of what is counted once an item stands in the place of another: those that were, where the symbols of
/// both have the same.
fn changed_styles(
    alloc: Global,
    styles: &Styles,
    counted: &CountedStyles,
    old: &Item,
    new: &Item,
) -> Result<Styles, Memory>
    ensures { IfOk result (λ next. (standing : Numbered Read) → AreOf standing counted.now
        → ((symbol : List ℕ) → IsSilent symbol old.now → IsSilent symbol new.now
        → style_in styles.now symbol ≡ style_standing standing symbol)
        → (symbol : List ℕ) → style_in next symbol ≡ style_standing standing symbol) }
{
    let taken = is_item_alike(alloc, styles, counted, old)?;
    let put = is_item_alike(alloc, styles, counted, new)?;
    let alike = are_both(taken, put);
    let next = restyled(alloc, styles, counted, alike)?;
    Ok(next)
}
