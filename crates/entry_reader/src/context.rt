//! What the items before an item say of how it is read.
ghost use Rattle.std.specs.Prelude.{◌≡◌, ◌∷◌, ◌++◌, [], ℕ, List, Option, true, false, IfOk, OnOk, OnErr, IfSome, ◌-◌, take, length};
ghost use Rattle.std.specs.Str.{is_utf8};
ghost use Rattle.book.specs.declared.item.Item.{Item};
ghost use Rattle.book.specs.declared.directive.Directive.{Directive};
ghost use Rattle.entry_reader.specs.After.{context_after, context_said};
ghost use Rattle.entry_reader.specs.Contexts as spec;

use crate::naming::{behind_applied, renamed_by_each};
use crate::scan::text_of;
use book::{Amount, Directive, Item, Placed};
use hl_base::{Memory, Text};
use std::alloc::Global;
use std::marker::Model;

/// What the items before an item say of how it is read: the year of dates without one, the decimal mark of numbers, the
/// default commodity with the decimal mark of its directive, the names before accounts, the aliases in force, and the
/// decimal marks of `commodity` directives.
#[derive(Debug, Drop)]
pub struct Context {
    year: Option<u16>,
    mark: Option<u8>,
    usual: Option<(Text, Option<u8>)>,
    applied: Vec<Text>,
    aliases: Vec<(Text, Text)>,
    marks: Vec<(Text, Option<u8>)>,
}

impl Model for Context {
    ghost use Rattle.entry_reader.specs.Contexts as spec;

    ghost Value = { spec.Context };

    ghost view = { λ c. spec.context_with c.year c.mark c.usual c.applied.items c.aliases.items c.marks.items };
}

/// A copy of a text.
fn copied(alloc: Global, text: &Text) -> Result<Text, Memory>
    ensures { IfOk result (λ copy. copy ≡ text.now) }
{
    Text::copied(alloc, text.as_str())
}

/// Puts a pair behind others.
fn push_pair<T: Drop>(pairs: &mut Vec<(Text, T)>, key: Text, value: T) -> Result<(), Memory>
    ensures ok { OnOk result (pairs.new.items ≡ pairs.old.items ++ (key, value) ∷ []) }
    ensures err { OnErr result (pairs.new.items ≡ pairs.old.items) }
{
    pairs.push((key, value))?;
    Ok(())
}

/// Puts a name behind others.
fn push_name(names: &mut Vec<Text>, name: Text) -> Result<(), Memory>
    ensures ok { OnOk result (names.new.items ≡ names.old.items ++ name ∷ []) }
    ensures err { OnErr result (names.new.items ≡ names.old.items) }
{
    names.push(name)?;
    Ok(())
}

/// Takes the last name away, if there is one.
fn drop_last(names: &mut Vec<Text>)
    ensures { names.new.items ≡ take (length names.old.items - 1) names.old.items }
{
    let _last = names.pop();
}

/// The decimal mark of an amount that is given.
fn mark_in(amount: &Option<Amount>) -> Option<u8>
    ensures { result ≡ spec.mark_in amount.now }
{
    match amount {
        Some(amount) => amount.shape.mark,
        None => None,
    }
}

/// The decimal mark of a symbol's latest `commodity` directive, if that has one.
fn latest_mark(marks: &[(Text, Option<u8>)], symbol: &[u8]) -> Option<u8>
    ensures { result ≡ spec.latest_mark marks.now symbol.now }
{
    let mut rest = marks;
    while let Some((latest, older)) = rest.split_last() {
        if latest.0.as_bytes() == symbol {
            return latest.1;
        }
        rest = older;
    }
    None
}

/// The first mark that is there.
fn or_else(mark: Option<u8>, other: Option<u8>) -> Option<u8>
    ensures { result ≡ spec.or_else mark other }
{
    match mark {
        Some(mark) => Some(mark),
        None => other,
    }
}

/// The decimal mark that is decided for an amount without a symbol, where none is in force.
fn usual_mark(usual: &Option<(Text, Option<u8>)>, marks: &[(Text, Option<u8>)]) -> Option<u8>
    ensures { result ≡ spec.or_else (spec.latest_mark marks.now (spec.usual_symbol usual.now))
        (spec.mark_found usual.now) }
{
    match usual {
        Some(usual) => or_else(latest_mark(marks, usual.0.as_bytes()), usual.1),
        None => latest_mark(marks, &[]),
    }
}

/// The symbol that an amount without one takes.
fn usual_symbol(alloc: Global, usual: &Option<(Text, Option<u8>)>) -> Result<Text, Memory>
    ensures { IfOk result (λ symbol. symbol ≡ spec.usual_symbol usual.now) }
{
    match usual {
        Some(usual) => copied(alloc, &usual.0),
        None => Ok(Text::new(alloc)),
    }
}

impl Context {
    /// The context at a text's beginning, with a year that is handed in or with none.
    pub fn start(alloc: Global, year: Option<u16>) -> Result<Context, Memory>
        ensures { IfOk result (λ context. context ≡ spec.context_of year []) }
    {
        Ok(Context {
            year,
            mark: None,
            usual: None,
            applied: Vec::new(alloc),
            aliases: Vec::new(alloc),
            marks: Vec::new(alloc),
        })
    }

    /// Takes in the next item of the text, so that this is the context of the item after it. An item that is no directive
    /// changes nothing.
    #[tactic(auto, using(crate::proofs::After::after_items))]
    pub fn after(&mut self, alloc: Global, item: &Item) -> Result<(), Memory>
        ensures value { OnOk result (self.new ≡ context_after self.old item.now) }
        ensures items { OnOk result ((year : Option ℕ) (before : List Item)
            → self.old ≡ spec.context_of year before
            → self.new ≡ spec.context_of year (before ++ item.now ∷ [])) }
        ensures err { OnErr result (self.new ≡ self.old) }
    {
        self.take_in(alloc, item)
    }

    /// Takes in an item.
    fn take_in(&mut self, alloc: Global, item: &Item) -> Result<(), Memory>
        ensures value { OnOk result (self.new ≡ context_after self.old item.now) }
        ensures err { OnErr result (self.new ≡ self.old) }
    {
        match item {
            Item::Directive(directive) => self.say(alloc, directive),
            Item::Gap
            | Item::Block
            | Item::Txn(_)
            | Item::Auto(_)
            | Item::Periodic(_)
            | Item::Price(_) => Ok(()),
        }
    }

    /// Takes in a directive.
    fn say(&mut self, alloc: Global, directive: &Directive) -> Result<(), Memory>
        ensures ok { OnOk result (self.new ≡ context_said self.old directive.now) }
        ensures err { OnErr result (self.new ≡ self.old) }
    {
        match directive {
            Directive::Commodity(symbol, amount) => {
                push_pair(&mut self.marks, copied(alloc, symbol)?, mark_in(amount))
            }
            Directive::Default(amount) => {
                let symbol = copied(alloc, &amount.symbol)?;
                self.usual = Some((symbol, amount.shape.mark));
                Ok(())
            }
            Directive::Year(year) => {
                self.year = Some(*year);
                Ok(())
            }
            Directive::Apply(name) => push_name(&mut self.applied, copied(alloc, name)?),
            Directive::EndApply => {
                drop_last(&mut self.applied);
                Ok(())
            }
            Directive::Alias(old, new) => {
                let old = copied(alloc, old)?;
                push_pair(&mut self.aliases, old, copied(alloc, new)?)
            }
            Directive::EndAliases => {
                self.aliases.clear();
                Ok(())
            }
            Directive::DecimalMark(mark) => {
                self.mark = Some(*mark);
                Ok(())
            }
            Directive::Account(..) | Directive::Payee(_) | Directive::TagName(_) => Ok(()),
        }
    }

    /// The decimal mark that is decided for an amount of which this symbol is written.
    pub fn decided_mark(&self, written: &[u8]) -> Option<u8>
        ensures { result ≡ spec.decided_mark self.now written.now }
    {
        if written.is_empty() {
            or_else(self.mark, usual_mark(&self.usual, &self.marks))
        } else {
            or_else(self.mark, latest_mark(&self.marks, written))
        }
    }

    /// The symbol of an amount of which this is written.
    pub fn symbol_of(&self, alloc: Global, written: &[u8]) -> Result<Text, Memory>
        requires { is_utf8 written.now ≡ true }
        ensures { IfOk result (λ symbol. symbol ≡ spec.symbol_of self.now written.now) }
    {
        if written.is_empty() {
            usual_symbol(alloc, &self.usual)
        } else {
            text_of(alloc, written)
        }
    }

    /// Whether accounts may have other names than are written.
    pub fn changes_names(&self) -> bool
        ensures { result ≡ false → (name : List ℕ) → spec.account_named self.now name ≡ name }
    {
        !self.applied.is_empty() || !self.aliases.is_empty()
    }

    /// The account that a written name stands for.
    pub fn account_named(&self, alloc: Global, name: &[u8]) -> Result<Text, Memory>
        requires { is_utf8 name.now ≡ true }
        ensures { IfOk result (λ account. account ≡ spec.account_named self.now name.now) }
    {
        let name = behind_applied(alloc, &self.applied, name)?;
        renamed_by_each(alloc, &self.aliases, name)
    }

    /// The year of dates without one.
    pub fn year(&self) -> Option<u16>
        ensures { result ≡ self.now.year }
    {
        self.year
    }

    /// The decimal mark in force.
    pub fn mark(&self) -> Option<u8>
        ensures { result ≡ self.now.mark }
    {
        self.mark
    }

    /// How many names stand before accounts.
    pub fn applied_count(&self) -> usize
        ensures { result ≡ length self.now.applied }
    {
        self.applied.len()
    }
}

/// The context behind some items of a text that begins in a year.
pub fn context_behind(alloc: Global, year: Option<u16>, items: &[Placed]) -> Result<Context, Memory>
    ensures { IfOk result (λ context. context ≡ spec.context_of year (spec.items_at items.now)) }
{
    let mut context = Context::start(alloc, year)?;
    for placed in items {
        context.after(alloc, &placed.item)?;
    }
    Ok(context)
}
