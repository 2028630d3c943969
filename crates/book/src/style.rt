//! The styles in which amounts are printed.
ghost use Rattle.std.specs.Prelude.{◌≡◌, ◌≤◌, IfOk, OnOk, OnErr, List, ℕ, [], IsTrue};
ghost use Rattle.book.specs.Style.{default_style, style_of};
ghost use Rattle.book.specs.Styles.{style_in, style_standing, AreOf, AreSameBut, after_item, without_item};
ghost use Rattle.book.specs.declared.item.Item.{Item};
ghost use Rattle.book.specs.declared.item.Item.TheVariants as kinds;
ghost use Rattle.book.specs.Standing.{Numbered, with_number, without_number, is_free, places_from};

use crate::amount::Written;
use crate::directive::Directive;
use crate::item::{Item, Placed};
use crate::noting::{note_all_further, note_amount, note_amounts, note_auto, note_periodic};
use crate::table::Table;
use hl_base::{Memory, Text};
use std::alloc::Global;

/// How amounts of a symbol are printed: a shape, and a number of decimals.
#[derive(Clone, Copy, Debug, PartialEq, Eq)]
pub struct Style {
    pub shape: Written,
    pub places: u8,
}

impl Style {
    /// The style of a symbol that has no amount.
    pub fn default_one() -> Style
        ensures { result ≡ default_style }
    {
        Style {
            shape: Written {
                left: false,
                spaced: true,
                mark: None,
                group: None,
                first: 3,
                rest: 3,
            },
            places: 2,
        }
    }
}

/// The styles of the symbols in some items, each of which stands under a number.
#[derive(Debug, Drop)]
pub struct Styles {
    pub(crate) commodities: Table,
    pub(crate) defaults: Table,
    pub(crate) first: Table,
    pub(crate) second: Table,
}

impl Styles {
    /// The styles of no items, which takes no memory.
    pub fn new(alloc: Global) -> Styles
        ensures { AreOf [] result }
    {
        Styles {
            commodities: Table::new(alloc),
            defaults: Table::new(alloc),
            first: Table::new(alloc),
            second: Table::new(alloc),
        }
    }

    /// The styles of a text's items, each under its place, counted from 0.
    pub fn of(alloc: Global, items: &[Placed]) -> Result<Styles, Memory>
        ensures numbered { IfOk result (AreOf (places_from 0 items.now)) }
        ensures styles { IfOk result (λ styles. (symbol : List ℕ)
            → style_in styles symbol ≡ style_of items.now symbol) }
    {
        let mut styles = Styles::new(alloc);
        for (number, placed) in items.iter().enumerate() {
            note_item(&mut styles, alloc, number as u64, &placed.item)?;
        }
        Ok(styles)
    }

    /// Adds an item under a number under which none stands. After an error the styles are those of the items before.
    pub fn add_item(&mut self, alloc: Global, number: u64, item: &Item) -> Result<(), Memory>
        ensures ok { OnOk result ((standing : Numbered Item) → AreOf standing self.old
            → IsTrue (is_free number standing)
            → AreOf (with_number number item.now standing) self.new) }
        ensures err { OnErr result ((standing : Numbered Item) → AreOf standing self.old
            → IsTrue (is_free number standing) → AreOf standing self.new) }
        ensures same { OnErr result ((standing : Numbered Item) → AreOf standing self.old
            → IsTrue (is_free number standing)
            → (symbol : List ℕ) → style_in self.new symbol ≡ style_in self.old symbol) }
    {
        match note_item(self, alloc, number, item) {
            Ok(()) => Ok(()),
            Err(error) => {
                forget_item(self, number);
                Err(error)
            }
        }
    }

    /// Takes away the item under a number, which takes no memory.
    pub fn remove_item(&mut self, number: u64)
        ensures { (standing : Numbered Item) → AreOf standing self.old
            → AreOf (without_number number standing) self.new }
    {
        forget_item(self, number);
    }

    /// Styles of the same items.
    pub fn copy(&self, alloc: Global) -> Result<Styles, Memory>
        ensures { IfOk result (λ copy. copy ≡ self.now) }
    {
        Ok(Styles {
            commodities: self.commodities.copy(alloc)?,
            defaults: self.defaults.copy(alloc)?,
            first: self.first.copy(alloc)?,
            second: self.second.copy(alloc)?,
        })
    }

    /// The style of a symbol: by the last `commodity` directive; else by the last `D` directive; else the shape of
    /// the first amount of a transaction's posting, with their greatest number of decimals; else the same of the
    /// amounts of costs, assertions, prices and rules; else the default one.
    pub fn style(&self, symbol: &Text) -> Style
        ensures value { result ≡ style_in self.now symbol.now }
        // Of whichever items these styles are, it is the style of the symbol in them.
        ensures defined { (standing : Numbered Item) → AreOf standing self.now
            → result ≡ style_standing standing symbol.now }
        ensures places { result.places ≤ 36 }
    {
        if let Some(style) = self.commodities.last(symbol) {
            return style;
        }
        if let Some(style) = self.defaults.last(symbol) {
            return style;
        }
        if let Some(style) = self.first.first(symbol) {
            return style;
        }
        if let Some(style) = self.second.first(symbol) {
            return style;
        }
        Style::default_one()
    }
}

/// Forgets what stands under a number.
fn forget_item(styles: &mut Styles, number: u64)
    ensures { styles.new ≡ without_item number styles.old }
{
    styles.commodities.forget(number);
    styles.defaults.forget(number);
    styles.first.forget(number);
    styles.second.forget(number);
}

/// Notes the amounts of an item under its number. After an error some of them may be noted.
fn note_item(styles: &mut Styles, alloc: Global, number: u64, item: &Item) -> Result<(), Memory>
    ensures ok { OnOk result (styles.new ≡ after_item number styles.old item.now) }
    ensures others { AreSameBut number styles.old styles.new }
{
    match item {
        Item::Txn(txn) => {
            let postings = txn.postings.as_slice();
            note_amounts(&mut styles.first, alloc, number, postings)?;
            note_all_further(&mut styles.second, alloc, number, postings)
        }
        Item::Auto(rule) => {
            note_auto(&mut styles.second, alloc, number, rule.postings.as_slice())
        }
        Item::Periodic(rule) => {
            note_periodic(&mut styles.second, alloc, number, rule.postings.as_slice())
        }
        Item::Price(price) => {
            let amount = &price.amount;
            note_amount(&mut styles.second, alloc, number, &amount.symbol, amount)
        }
        Item::Directive(directive) => note_directive(styles, alloc, number, directive),
        Item::Gap => Ok(()),
        Item::Block => Ok(()),
    }
}

/// Notes the amount of a directive that says how a symbol is written.
fn note_directive(
    styles: &mut Styles,
    alloc: Global,
    number: u64,
    directive: &Directive,
) -> Result<(), Memory>
    ensures ok { OnOk result (styles.new
        ≡ after_item number styles.old (kinds.Directive directive.now)) }
    ensures others { AreSameBut number styles.old styles.new }
{
    match directive {
        Directive::Commodity(symbol, Some(amount)) => {
            note_amount(&mut styles.commodities, alloc, number, symbol, amount)
        }
        Directive::Default(amount) => {
            note_amount(&mut styles.defaults, alloc, number, &amount.symbol, amount)
        }
        _ => Ok(()),
    }
}
