//! Sums of several symbols.
ghost use Rattle.std.specs.Prelude.{◌≡◌, ◌<◌, [], OnOk, OnErr, IfOk, IfErr, IsTrue, is_ok, length};
ghost use Rattle.std.specs.List.{remove};
ghost use Rattle.std.specs.Ordering.{nat_cmp};
ghost use Rattle.std.specs.Cmp.Lexicographic.{slice_cmp};
ghost use Rattle.hl_num.specs.Decimal.{add_fits};
ghost use Rattle.book.specs.Entries.{AreSums, IsRising, held};
ghost use Rattle.book.specs.Mixed.{added, plus, fits_with, IsAddFault};
ghost use Rattle.book.specs.Places.{IsPlace, IsGap};

use crate::place::place_of;
use hl_base::{Memory, Text};
use hl_num::{Dec, Range};
use std::alloc::Global;
use std::marker::Model;

/// Sums of several symbols, none of them zero, in the order of the symbols' bytes. Contracts see a list of each
/// symbol with its sum.
#[derive(Debug, Drop)]
pub struct Mixed {
    entries: Vec<(Text, Dec)>,
}

/// Why a value can't be added: the sum that is there and the value, where a term or the new sum reaches 2^127 in
/// units of the greater number of decimals; or memory ran out.
#[derive(Debug, Drop)]
pub enum MixedFault {
    Range { a: Dec, b: Dec },
    Memory,
}

impl Model for Mixed {
    ghost use Rattle.std.specs.Prelude.{List, ℕ};
    ghost use Rattle.hl_num.specs.Decimal.{Decimal};

    ghost Value = { List (List ℕ × Decimal) };

    ghost use Rattle.book.specs.Entries.{AreSums};

    ghost view = { λ m. m.entries.items };

    ghost invariant = { λ m. AreSums m.entries.items };
}

impl Mixed {
    /// No sums, which takes no memory.
    pub fn new(alloc: Global) -> Mixed
        ensures { result ≡ [] }
    {
        Mixed {
            entries: Vec::new(alloc),
        }
    }

    /// Each symbol with its sum, in the order of the symbols' bytes.
    pub fn entries(&self) -> &[(Text, Dec)]
        ensures value { result.now ≡ self.now }
        ensures ordered { AreSums self.now }
    {
        &self.entries
    }

    /// Adds a value to the sum of its symbol. A sum that becomes zero is left out, and a zero adds nothing. After
    /// an error all is as it was.
    pub fn add(&mut self, alloc: Global, symbol: &Text, value: Dec) -> Result<(), MixedFault>
        ensures ok { OnOk result (self.new ≡ added symbol.now value self.old) }
        ensures fits { OnOk result (IsTrue (fits_with (held symbol.now self.old) value)) }
        ensures fault { IfErr result (IsAddFault symbol.now value self.old) }
        ensures err { OnErr result (self.new ≡ self.old) }
    {
        match place_of(&self.entries, symbol) {
            Ok(at) => add_at(&mut self.entries, at, symbol, value),
            Err(at) => match add_new(&mut self.entries, alloc, at, symbol, value) {
                Ok(()) => Ok(()),
                Err(Memory) => Err(MixedFault::Memory),
            },
        }
    }
}

/// Adds a value to the sum at a place, which goes where it becomes zero.
fn add_at(
    entries: &mut Vec<(Text, Dec)>,
    at: usize,
    symbol: &Text,
    value: Dec,
) -> Result<(), MixedFault>
    requires rising { IsRising entries.old.items }
    requires place { IsPlace entries.old.items symbol.now at }
    ensures ok { OnOk result (entries.new.items ≡ added symbol.now value entries.old.items) }
    ensures fits { OnOk result (IsTrue (fits_with (held symbol.now entries.old.items) value)) }
    ensures fault { IfErr result (IsAddFault symbol.now value entries.old.items) }
    ensures err { OnErr result (entries.new.items ≡ entries.old.items) }
{
    match checked_sum(entries[at].1, value) {
        Ok(sum) => {
            if sum.is_zero() {
                take_out(entries, at);
            } else {
                entries[at].1 = sum;
            }
            Ok(())
        }
        Err(range) => Err(MixedFault::Range {
            a: range.a,
            b: range.b,
        }),
    }
}

/// Takes the sum at a place out.
fn take_out(entries: &mut Vec<(Text, Dec)>, at: usize)
    requires { at < length entries.old.items }
    ensures { entries.new.items ≡ remove entries.old.items at }
{
    let _ = entries.remove(at);
}

/// The exact sum, with the greater number of places.
fn checked_sum(a: Dec, b: Dec) -> Result<Dec, Range>
    ensures value { IfOk result (λ sum. sum ≡ plus a b) }
    ensures fits { is_ok result ≡ add_fits a b }
    ensures range { IfErr result (λ range. range ≡ record { a = a; b = b }) }
{
    let _places = (a.places, b.places);
    let sum = a.add(b)?;
    Ok(sum)
}

/// Puts a value at the place of a symbol that has no sum, unless it is zero.
fn add_new(
    entries: &mut Vec<(Text, Dec)>,
    alloc: Global,
    at: usize,
    symbol: &Text,
    value: Dec,
) -> Result<(), Memory>
    requires { IsGap (slice_cmp nat_cmp) entries.old.items symbol.now at }
    ensures ok { OnOk result (entries.new.items ≡ added symbol.now value entries.old.items) }
    ensures none { held symbol.now entries.old.items ≡ None }
    ensures err { OnErr result (entries.new.items ≡ entries.old.items) }
{
    if !value.is_zero() {
        let copy = Text::copied(alloc, symbol.as_str())?;
        entries.insert(at, (copy, value))?;
    }
    Ok(())
}
