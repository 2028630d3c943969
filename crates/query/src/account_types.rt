//! The letters of accounts.
ghost use Rattle.std.specs.Prelude.{◌≡◌, ◌<◌, true, ℕ, List, Some, IfOk, OnOk, length, if◌then◌else◌};
ghost use Rattle.std.specs.HashMap.{get_by_text};
ghost use Rattle.std.specs.Str.{bytes_eq, is_utf8};
ghost use Rattle.query.specs.Types as spec;

use book::{Directive, Item, Items};
use hl_base::{Memory, Text};
use query_terms::cutting::{after, before, bytes_of, front, has, place_of, str_of};
use query_terms::upper;
use std::alloc::Global;
use std::collections::HashMap;

/// The letters that accounts have of their own.
#[derive(Drop)]
pub struct Types {
    letters: HashMap<String, u8>,
}

/// Whether a part of a name is a word, which is given in capitals.
#[tactic(auto, using(crate::proofs::Names::other_length, crate::proofs::Names::named_more, crate::proofs::Names::named_differ, crate::proofs::Names::named_end))]
fn is_named(part: &[u8], word: &[u8]) -> bool
    ensures { result ≡ spec.is_named part.now word.now }
{
    if part.len() != word.len() {
        return false;
    }
    for i in 0..part.len() {
        if upper(part[i]) != word[i] {
            return false;
        }
    }
    true
}

fn is_conversion(part: &[u8]) -> bool
    ensures { result ≡ spec.is_conversion part.now }
{
    is_named(part, b"TRADE")
        || is_named(part, b"TRADES")
        || is_named(part, b"CONVERSION")
        || is_named(part, b"CONVERSIONS")
}

fn is_asset(part: &[u8]) -> bool
    ensures { result ≡ spec.is_asset part.now }
{
    is_named(part, b"ASSET") || is_named(part, b"ASSETS")
}

fn is_liability(part: &[u8]) -> bool
    ensures { result ≡ spec.is_liability part.now }
{
    is_named(part, b"LIABILITY")
        || is_named(part, b"LIABILITIES")
        || is_named(part, b"DEBT")
        || is_named(part, b"DEBTS")
}

fn is_equity(part: &[u8]) -> bool
    ensures { result ≡ spec.is_equity part.now }
{
    is_named(part, b"EQUITY")
}

fn is_revenue(part: &[u8]) -> bool
    ensures { result ≡ spec.is_revenue part.now }
{
    is_named(part, b"INCOME")
        || is_named(part, b"INCOMES")
        || is_named(part, b"REVENUE")
        || is_named(part, b"REVENUES")
}

fn is_expense(part: &[u8]) -> bool
    ensures { result ≡ spec.is_expense part.now }
{
    is_named(part, b"EXPENSE") || is_named(part, b"EXPENSES")
}

/// The letter that a first part says.
fn first_letter(part: &[u8]) -> Option<u8>
    ensures { result ≡ spec.first_letter part.now }
{
    if is_asset(part) {
        Some(b'A')
    } else if is_liability(part) {
        Some(b'L')
    } else if is_equity(part) {
        Some(b'E')
    } else if is_revenue(part) {
        Some(b'R')
    } else if is_expense(part) {
        Some(b'X')
    } else {
        None
    }
}

/// Whether an account is for conversions, by its first two parts.
#[tactic(auto, unfolding(crate::specs::Types::is_for_conversions))]
fn is_for_conversions(account: &[u8]) -> bool
    ensures { result ≡ spec.is_for_conversions account.now }
{
    if !has(account, b':') {
        return false;
    }
    if !is_equity(before(account, b':')) {
        return false;
    }
    is_conversion(before(after(account, b':'), b':'))
}

/// The letter that a name says.
#[tactic(auto, unfolding(crate::specs::Types::letter_by_name))]
fn letter_by_name(account: &[u8]) -> Option<u8>
    ensures { result ≡ spec.letter_by_name account.now }
{
    if is_for_conversions(account) {
        Some(b'V')
    } else {
        first_letter(before(account, b':'))
    }
}

/// The place of a letter among A, L, E, R, X, C and V; 7 for any other.
fn rank(letter: u8) -> usize
    ensures { result ≡ spec.rank letter }
{
    place_of(b"ALERXCV", letter)
}

/// Of the letter that an account has and another that is declared the one that counts.
fn greater_letter(before: Option<u8>, letter: u8) -> u8
    ensures { result ≡ spec.greater_letter before letter }
{
    match before {
        None => letter,
        Some(other) => {
            if rank(letter) < rank(other) {
                other
            } else {
                letter
            }
        }
    }
}

/// Puts a letter under the name of an account.
#[tactic(auto, using(std::proofs::lemmas::Map::Text::text_keys))]
fn put(
    letters: &mut HashMap<String, u8>,
    alloc: Global,
    name: &Text,
    letter: u8,
) -> Result<(), Memory>
    ensures { OnOk result ((q : List ℕ)
        → get_by_text letters.new q
        ≡ (if bytes_eq q name.now then Some letter else get_by_text letters.old q)) }
{
    let key = String::from_str(alloc, name.as_str())?;
    letters.insert(key, letter)?;
    Ok(())
}

/// The letter under a name.
fn letter_in(letters: &HashMap<String, u8>, name: &str) -> Option<u8>
    ensures { result ≡ get_by_text letters.now name.now }
{
    letters.get(name).copied()
}

/// Keeps a letter that is declared for an account, where it counts.
fn keep(
    letters: &mut HashMap<String, u8>,
    alloc: Global,
    name: &Text,
    letter: u8,
) -> Result<(), Memory>
    ensures { OnOk result ((q : List ℕ)
        → get_by_text letters.new q
        ≡ (if bytes_eq q name.now then Some (spec.greater_letter (get_by_text letters.old q) letter)
        else get_by_text letters.old q)) }
{
    let before = letter_in(letters, name.as_str());
    put(letters, alloc, name, greater_letter(before, letter))
}

/// Keeps the letter that a directive declares.
fn note_directive(
    letters: &mut HashMap<String, u8>,
    alloc: Global,
    directive: &Directive,
) -> Result<(), Memory>
    ensures { OnOk result ((name : List ℕ)
        → get_by_text letters.new name
        ≡ spec.noted (spec.declared_by directive.now) (get_by_text letters.old name) name) }
{
    match directive {
        Directive::Account(name, Some(letter)) => keep(letters, alloc, name, *letter),
        _ => Ok(()),
    }
}

/// Keeps the letter that an item declares.
fn note(letters: &mut HashMap<String, u8>, alloc: Global, item: &Item) -> Result<(), Memory>
    ensures { OnOk result ((name : List ℕ)
        → get_by_text letters.new name
        ≡ spec.noted (spec.declared_in item.now) (get_by_text letters.old name) name) }
{
    match item {
        Item::Directive(directive) => note_directive(letters, alloc, directive),
        _ => Ok(()),
    }
}

impl Types {
    ghost use Rattle.query.specs.OwnLetters.{own_in};

    /// The letters that the directives of some items declare. Of several for one account the last of A, L, E, R, X, C, V
    /// counts, in whatever order they are declared.
    #[tactic(auto, using(crate::proofs::Names::noted_more, crate::proofs::Names::noted_all))]
    pub fn new(alloc: Global, items: &Items) -> Result<Types, Memory>
        ensures { IfOk result (λ types. (name : List ℕ)
            → own_in types name ≡ spec.own_letter (spec.declared_of items.now) name) }
    {
        let mut letters = HashMap::new(alloc);
        for placed in items.as_slice() {
            note(&mut letters, alloc, &placed.item)?;
        }
        Ok(Types { letters })
    }

    /// The letter that an account has of its own.
    fn own(&self, name: &[u8]) -> Option<u8>
        requires { is_utf8 name.now ≡ true }
        ensures { result ≡ own_in self.now name.now }
    {
        letter_in(&self.letters, str_of(name))
    }

    /// The letter of the parent that ends at a place, if one does.
    #[tactic(auto, using(crate::proofs::Names::parent_utf8))]
    fn parent_letter(&self, account: &[u8], end: usize) -> Option<u8>
        requires utf8 { is_utf8 account.now ≡ true }
        requires inside { end < length account.now }
        ensures { result ≡ spec.parent_letter (own_in self.now) account.now end }
    {
        if account[end] == b':' {
            self.own(front(account, end))
        } else {
            None
        }
    }

    /// The letter of the nearest parent that has one of its own.
    #[tactic(auto, using(crate::proofs::Names::parents_step))]
    fn of_parent(&self, account: &[u8]) -> Option<u8>
        requires { is_utf8 account.now ≡ true }
        ensures { result ≡ spec.nearest (own_in self.now) (spec.parents_of account.now) }
    {
        let mut end = account.len();
        while 0 < end {
            end -= 1;
            if let Some(letter) = self.parent_letter(account, end) {
                return Some(letter);
            }
        }
        None
    }

    /// The letter of an account: A, L, E, R, X, C or V. It is its own, else that of its nearest parent with one, else
    /// what its name says.
    #[tactic(auto, unfolding(crate::specs::Types::letter_of))]
    pub fn of(&self, account: &Text) -> Option<u8>
        ensures { result ≡ spec.letter_of (own_in self.now) account.now }
    {
        let bytes = bytes_of(account.as_str());
        if let Some(letter) = self.own(bytes) {
            return Some(letter);
        }
        if let Some(letter) = self.of_parent(bytes) {
            return Some(letter);
        }
        letter_by_name(bytes)
    }
}
