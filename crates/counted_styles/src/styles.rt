//! The styles of items that come and go.
ghost use Rattle.std.specs.Prelude.{◌≡◌, [], ℕ, List, IfOk, IsTrue, OnErr, OnOk, unwrap_or};
ghost use Rattle.book.specs.Standing.{Numbered, is_free, places_from, with_number, without_number};
ghost use Rattle.book.specs.Style.{default_style};
ghost use Rattle.book.specs.Style.{first_class};
ghost use Rattle.book.specs.Styles.{said_standing, style_in, style_standing};
ghost use Rattle.book.specs.declared.item.Item.{Item};
ghost use Rattle.counted_styles.specs.Kept.{AreOf, HasAdded, HasRemoved, Stands, chosen, most_said};
ghost use Rattle.counted_styles.specs.Marks.{AreNamed};

use crate::class::Class;
use crate::declaring::declare_all;
use crate::said::{commodities, defaults, first, second};
use crate::symbols::put_symbols;
use book::{Item, Placed, Style, Styles};
use hl_base::{Memory, Text};
use std::alloc::Global;

/// The styles of the symbols in some items, each of which stands under a number. A copy shares what is kept, and a
/// change takes time and memory for a few ways down a tree for each amount of its item.
#[derive(Drop)]
pub struct CountedStyles {
    commodities: Class,
    defaults: Class,
    first: Class,
    second: Class,
}

impl CountedStyles {
    /// The styles of no items, which takes no memory.
    pub fn new() -> CountedStyles
        ensures { AreOf [] result }
    {
        let commodities = Class::new();
        let defaults = Class::new();
        let first = Class::new();
        let second = Class::new();
        CountedStyles {
            commodities,
            defaults,
            first,
            second,
        }
    }

    /// The styles of a text's items, each under its place, counted from 0.
    pub fn of(alloc: Global, items: &[Placed]) -> Result<CountedStyles, Memory>
        ensures { IfOk result (AreOf (places_from 0 items.now)) }
    {
        let mut styles = CountedStyles::new();
        for (number, placed) in items.iter().enumerate() {
            note(alloc, &mut styles, number as u64, &placed.item)?;
        }
        Ok(styles)
    }

    /// Styles of the same items.
    pub fn copy(&self) -> Result<CountedStyles, Memory>
        ensures { IfOk result (λ copy. copy ≡ self.now) }
    {
        Ok(CountedStyles {
            commodities: self.commodities.copy()?,
            defaults: self.defaults.copy()?,
            first: self.first.copy()?,
            second: self.second.copy()?,
        })
    }

    /// Adds an item under a number under which none stands. After an error the styles are as before.
    pub fn add(&mut self, alloc: Global, number: u64, item: &Item) -> Result<(), Memory>
        ensures ok { OnOk result ((standing : Numbered Item) → AreOf standing self.old
            → IsTrue (is_free number standing)
            → AreOf (with_number number item.now standing) self.new) }
        ensures err { OnErr result (self.new ≡ self.old) }
    {
        let mut styles = self.copy()?;
        note(alloc, &mut styles, number, item)?;
        *self = styles;
        Ok(())
    }

    /// Takes away the item that stands under a number. After an error the styles are as before.
    pub fn remove(&mut self, alloc: Global, number: u64, item: &Item) -> Result<(), Memory>
        ensures ok { OnOk result ((standing : Numbered Item) → AreOf standing self.old
            → Stands number item.now standing → AreOf (without_number number standing) self.new) }
        ensures err { OnErr result (self.new ≡ self.old) }
    {
        let mut styles = self.copy()?;
        forget(alloc, &mut styles, number, item)?;
        *self = styles;
        Ok(())
    }

    /// The style of a symbol: by the last `commodity` directive; else by the last `D` directive; else the shape of the
    /// first amount of a transaction's posting, with their greatest number of decimals; else the same of the amounts
    /// of costs, assertions, prices and rules; else the default one.
    pub fn style(&self, symbol: &Text) -> Style
        ensures { (standing : Numbered Item) → AreOf standing self.now
            → result ≡ style_standing standing symbol.now }
    {
        let commodity = self.commodities.last(symbol);
        let default = self.defaults.last(symbol);
        let first = self.first.first(symbol);
        let second = self.second.first(symbol);
        chosen(
            commodity,
            chosen(default, chosen(first, chosen(second, Style::default_one()))),
        )
    }

    /// The greatest number of decimals of the amounts of a symbol in transactions' postings, if it has any.
    pub fn decimals(&self, symbol: &Text) -> Option<u8>
        ensures { (standing : Numbered Item) → AreOf standing self.now
            → result ≡ most_said (said_standing first_class standing symbol.now) }
    {
        match self.first.most(symbol) {
            Some(style) => Some(style.places),
            None => None,
        }
    }

    /// The same styles for reports: one for each symbol, in time for the symbols and not for the items.
    pub fn styles(&self, alloc: Global) -> Result<Styles, Memory>
        ensures { IfOk result (λ styles. (standing : Numbered Item) → AreOf standing self.now
            → (symbol : List ℕ) → style_in styles symbol ≡ style_standing standing symbol) }
    {
        let symbols = self.symbols(alloc)?;
        let names = symbols.as_slice();
        let items = declare_all(alloc, self, names)?;
        let directives = items.as_slice();
        let styles = Styles::of(alloc, directives)?;
        Ok(styles)
    }

    /// The symbols of which the items say something.
    fn symbols(&self, alloc: Global) -> Result<Vec<Text>, Memory>
        ensures commodities { IfOk result
            (λ names. AreNamed names.items self.now.commodities.heads) }
        ensures defaults { IfOk result (λ names. AreNamed names.items self.now.defaults.heads) }
        ensures first { IfOk result (λ names. AreNamed names.items self.now.first.heads) }
        ensures second { IfOk result (λ names. AreNamed names.items self.now.second.heads) }
    {
        let mut names = Vec::new(alloc);
        put_symbols(alloc, &mut names, &self.commodities.heads)?;
        put_symbols(alloc, &mut names, &self.defaults.heads)?;
        put_symbols(alloc, &mut names, &self.first.heads)?;
        put_symbols(alloc, &mut names, &self.second.heads)?;
        Ok(names)
    }
}

/// A style, if there is one, else another.
fn chosen(style: Option<Style>, other: Style) -> Style
    ensures { result ≡ chosen style other }
{
    match style {
        Some(style) => style,
        None => other,
    }
}

/// Notes what an item says under its number. After an error some of it may be noted.
fn note(alloc: Global, styles: &mut CountedStyles, number: u64, item: &Item) -> Result<(), Memory>
    ensures { OnOk result (HasAdded number item.now styles.old styles.new) }
{
    let said = commodities(alloc, item)?;
    styles.commodities.add(alloc, number, &said)?;
    let said = defaults(alloc, item)?;
    styles.defaults.add(alloc, number, &said)?;
    let said = first(alloc, item)?;
    styles.first.add(alloc, number, &said)?;
    let said = second(alloc, item)?;
    styles.second.add(alloc, number, &said)?;
    Ok(())
}

/// Forgets what an item says under its number. After an error some of it may be forgotten.
fn forget(alloc: Global, styles: &mut CountedStyles, number: u64, item: &Item) -> Result<(), Memory>
    ensures { OnOk result (HasRemoved number item.now styles.old styles.new) }
{
    let said = commodities(alloc, item)?;
    styles.commodities.remove(alloc, number, &said)?;
    let said = defaults(alloc, item)?;
    styles.defaults.remove(alloc, number, &said)?;
    let said = first(alloc, item)?;
    styles.first.remove(alloc, number, &said)?;
    let said = second(alloc, item)?;
    styles.second.remove(alloc, number, &said)?;
    Ok(())
}
