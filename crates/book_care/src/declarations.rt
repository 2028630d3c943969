//! The names that a text declares.
ghost use Rattle.std.specs.Prelude.{◌≡◌, ◌||◌, ℕ, List, IfOk, OnOk};
ghost use Rattle.std.specs.List.{list_any};
ghost use Rattle.std.specs.Option.{option_copied, option_to_list};
ghost use Rattle.std.specs.Str.{bytes_eq};
ghost use Rattle.book_care.specs.Declarations as spec;
ghost use Rattle.book_care.specs.DeclaredNames.{AreDeclaredIn, kept_for};
ghost use Rattle.book_care.specs.Names.{has};
ghost use Rattle.book_care.specs.Uses.{lacks};

use crate::faults::Check;
use crate::names::Names;
use book::{Directive, Item, Items};
use hl_base::{Memory, Text};
use std::alloc::Global;

/// What is asked, and the names that are declared for it.
#[derive(Drop)]
pub(crate) struct Declared {
    pub(crate) check: Check,
    pub(crate) names: Names,
}

fn account_by(directive: &Directive) -> Option<&Text>
    ensures { option_copied result ≡ spec.account_by directive.now }
{
    match directive {
        Directive::Account(name, _letter) => Some(name),
        _ => None,
    }
}

fn symbol_by(directive: &Directive) -> Option<&Text>
    ensures { option_copied result ≡ spec.symbol_by directive.now }
{
    match directive {
        Directive::Commodity(symbol, _amount) => Some(symbol),
        _ => None,
    }
}

fn payee_by(directive: &Directive) -> Option<&Text>
    ensures { option_copied result ≡ spec.payee_by directive.now }
{
    match directive {
        Directive::Payee(name) => Some(name),
        _ => None,
    }
}

fn tag_by(directive: &Directive) -> Option<&Text>
    ensures { option_copied result ≡ spec.tag_by directive.now }
{
    match directive {
        Directive::TagName(name) => Some(name),
        _ => None,
    }
}

/// The name that a directive declares for a check.
fn declared_by(check: Check, directive: &Directive) -> Option<&Text>
    ensures { option_copied result ≡ spec.declared_by check directive.now }
{
    match check {
        Check::Accounts => account_by(directive),
        Check::Commodities => symbol_by(directive),
        Check::Payees => payee_by(directive),
        Check::Tags => tag_by(directive),
        Check::OrderedDates => None,
    }
}

/// Adds the name that a directive declares.
fn note_directive(
    names: &mut Names,
    alloc: Global,
    check: Check,
    directive: &Directive,
) -> Result<(), Memory>
    ensures { OnOk result ((q : List ℕ) → has names.new q
        ≡ (list_any (bytes_eq q) (option_to_list (spec.declared_by check directive.now)) || has
        names.old q)) }
{
    match declared_by(check, directive) {
        Some(name) => names.add(alloc, name),
        None => Ok(()),
    }
}

/// Adds the name that an item declares.
fn note(names: &mut Names, alloc: Global, check: Check, item: &Item) -> Result<(), Memory>
    ensures { OnOk result ((q : List ℕ) → has names.new q
        ≡ (list_any (bytes_eq q) (spec.declared_in check item.now) || has names.old q)) }
{
    match item {
        Item::Directive(directive) => note_directive(names, alloc, check, directive),
        _ => Ok(()),
    }
}

/// Whether a name has to be declared.
fn needs(check: Check, name: &str) -> bool
    ensures { result ≡ spec.needs check name.now }
{
    match check {
        Check::Accounts | Check::OrderedDates => true,
        Check::Commodities | Check::Payees => !name.as_bytes().is_empty(),
        Check::Tags => name != "date",
    }
}

impl Declared {
    /// The names that some items declare for a check.
    #[tactic(auto, using(crate::proofs::Loops::declared_more, crate::proofs::Loops::declared_all))]
    pub(crate) fn new(alloc: Global, items: &Items, check: Check) -> Result<Declared, Memory>
        ensures check { IfOk result (λ declared. declared.check ≡ check) }
        ensures names { IfOk result (λ declared. (q : List ℕ)
            → has declared.names q ≡ list_any (bytes_eq q) (spec.declared_of check items.now)) }
    {
        let mut names = Names::new(alloc);
        for placed in items.as_slice() {
            note(&mut names, alloc, check, &placed.item)?;
        }
        Ok(Declared { check, names })
    }

    /// Whether a name has to be declared and isn't.
    pub(crate) fn lacks(&self, name: &str) -> bool
        ensures { result ≡ lacks self.now name.now }
    {
        needs(self.check, name) && !self.names.has(name)
    }
}

/// The names that a text declares, for each check that asks about names.
#[derive(Drop)]
pub struct Declarations {
    pub(crate) accounts: Declared,
    pub(crate) commodities: Declared,
    pub(crate) payees: Declared,
    pub(crate) tags: Declared,
}

impl Declarations {
    /// The names that some items declare, wherever their directives stand.
    pub fn new(alloc: Global, items: &Items) -> Result<Declarations, Memory>
        ensures { IfOk result (AreDeclaredIn items.now) }
    {
        let accounts = Declared::new(alloc, items, Check::Accounts)?;
        let commodities = Declared::new(alloc, items, Check::Commodities)?;
        let payees = Declared::new(alloc, items, Check::Payees)?;
        let tags = Declared::new(alloc, items, Check::Tags)?;
        Ok(Declarations {
            accounts,
            commodities,
            payees,
            tags,
        })
    }

    /// The names that are kept for a check; one of days asks for none.
    pub(crate) fn kept_for(&self, check: Check) -> &Declared
        ensures { result.now ≡ kept_for self.now check }
    {
        match check {
            Check::Accounts | Check::OrderedDates => &self.accounts,
            Check::Commodities => &self.commodities,
            Check::Payees => &self.payees,
            Check::Tags => &self.tags,
        }
    }
}
