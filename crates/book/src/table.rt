//! The styles in which amounts are written, by their symbols.
ghost use Rattle.std.specs.Prelude.{◌≡◌, ◌≤◌, [], IfOk, OnOk, OnErr, IfSome};
ghost use Rattle.book.specs.Standing.{noted, forgotten, kept_of, last_kept, first_kept};
ghost use Rattle.book.specs.Entries.{IsRising};
ghost use Rattle.book.specs.Places.{IsPlace, IsGap};
ghost use Rattle.std.specs.Ordering.{nat_cmp};
ghost use Rattle.std.specs.Cmp.Lexicographic.{slice_cmp};

use crate::marks::Marks;
use crate::place::place_of;
use crate::style::Style;
use hl_base::{Memory, Text};
use std::alloc::Global;
use std::marker::Model;

/// Styles under the numbers of their items, by symbols. Contracts see a list of each symbol with its styles.
#[derive(Debug, Drop)]
pub struct Table {
    entries: Vec<(Text, Marks)>,
}

impl Model for Table {
    ghost use Rattle.std.specs.Prelude.{List, ℕ};
    ghost use Rattle.book.specs.declared.style.Style.{Style};

    ghost Value = { List (List ℕ × List (ℕ × Style)) };

    ghost use Rattle.book.specs.Entries.{IsRising};

    ghost view = { λ t. t.entries.items };

    ghost invariant = { λ t. IsRising t.entries.items };
}

impl Table {
    /// No styles, which takes no memory.
    pub fn new(alloc: Global) -> Table
        ensures { result ≡ [] }
    {
        Table {
            entries: Vec::new(alloc),
        }
    }

    /// Puts a style of a symbol under a number.
    pub fn note(
        &mut self,
        alloc: Global,
        number: u64,
        symbol: &Text,
        style: Style,
    ) -> Result<(), Memory>
        requires { style.places ≤ 36 }
        ensures ok { OnOk result (self.new ≡ noted number self.old (symbol.now, style)) }
        ensures err { OnErr result (self.new ≡ self.old) }
    {
        match place_of(&self.entries, symbol) {
            Ok(at) => put_at(&mut self.entries, at, symbol, number, style),
            Err(at) => put_new(&mut self.entries, alloc, at, symbol, number, style),
        }
    }

    /// Takes away what stands under a number.
    pub fn forget(&mut self, number: u64)
        ensures { self.new ≡ forgotten number self.old }
    {
        forget_each(&mut self.entries, number)
    }

    /// The last style of a symbol.
    pub fn last(&self, symbol: &Text) -> Option<Style>
        ensures value { result ≡ last_kept (kept_of self.now symbol.now) }
        ensures places { IfSome result (λ style. style.places ≤ 36) }
    {
        match place_of(&self.entries, symbol) {
            Ok(at) => self.entries[at].1.last(),
            Err(_) => None,
        }
    }

    /// The shape of the first style of a symbol, with the greatest number of decimals of all.
    pub fn first(&self, symbol: &Text) -> Option<Style>
        ensures value { result ≡ first_kept (kept_of self.now symbol.now) }
        ensures places { IfSome result (λ style. style.places ≤ 36) }
    {
        match place_of(&self.entries, symbol) {
            Ok(at) => self.entries[at].1.first(),
            Err(_) => None,
        }
    }

    /// A copy.
    pub fn copy(&self, alloc: Global) -> Result<Table, Memory>
        ensures { IfOk result (λ copy. copy ≡ self.now) }
    {
        let entries = copied_entries(alloc, &self.entries)?;
        Ok(Table { entries })
    }
}

/// Puts a style under a number at the place of a symbol.
fn put_at(
    entries: &mut Vec<(Text, Marks)>,
    at: usize,
    symbol: &Text,
    number: u64,
    style: Style,
) -> Result<(), Memory>
    requires rising { IsRising entries.old.items }
    requires place { IsPlace entries.old.items symbol.now at }
    requires few { style.places ≤ 36 }
    ensures ok { OnOk result (entries.new.items
        ≡ noted number entries.old.items (symbol.now, style)) }
    ensures err { OnErr result (entries.new.items ≡ entries.old.items) }
{
    entries[at].1.put(number, style)
}

/// Puts the first style of a symbol where it would go.
fn put_new(
    entries: &mut Vec<(Text, Marks)>,
    alloc: Global,
    at: usize,
    symbol: &Text,
    number: u64,
    style: Style,
) -> Result<(), Memory>
    requires gap { IsGap (slice_cmp nat_cmp) entries.old.items symbol.now at }
    requires few { style.places ≤ 36 }
    ensures ok { OnOk result (entries.new.items
        ≡ noted number entries.old.items (symbol.now, style)) }
    ensures err { OnErr result (entries.new.items ≡ entries.old.items) }
{
    let mut marks = Marks::new(alloc);
    marks.put(number, style)?;
    let symbol = Text::copied(alloc, symbol.as_str())?;
    entries.insert(at, (symbol, marks))?;
    Ok(())
}

/// Takes away what stands under a number.
fn forget_each(entries: &mut Vec<(Text, Marks)>, number: u64)
    ensures { entries.new.items ≡ forgotten number entries.old.items }
{
    for at in 0..entries.len() {
        entries[at].1.forget(number);
    }
}

/// A copy of some entries.
fn copied_entries(alloc: Global, entries: &[(Text, Marks)]) -> Result<Vec<(Text, Marks)>, Memory>
    ensures { IfOk result (λ copies. copies.items ≡ entries.now) }
{
    let mut copies = Vec::new(alloc);
    for entry in entries {
        let symbol = Text::copied(alloc, entry.0.as_str())?;
        let marks = entry.1.copy(alloc)?;
        copies.push((symbol, marks))?;
    }
    Ok(copies)
}
