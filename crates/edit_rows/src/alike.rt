//! When two journals are the same: in their pieces and items with all lines, in their books with lines and decimals, and in the
//! styles of all symbols that rows write.
use book::{Amount, Assertion, Boxed, Cost, Fault, Item, Placed, Posting, Tag, Txn, print_fault};
use hl_base::{List, Text};
use live_journal::Live;
use std::alloc::Global;
use std::test::Fail;

/// The symbols that rows write, and one that none does.
const SYMBOLS: &[&str] = &["", "EUR", "PEN", "USD", "GBP", "CHF"];

/// A value that says what another one says.
trait Alike {
    /// Whether they say the same, with all lines and decimals.
    fn is_alike(&self, other: &Self) -> bool;
}

impl Alike for Text {
    fn is_alike(&self, other: &Text) -> bool {
        self.as_bytes() == other.as_bytes()
    }
}

impl<T: Alike> Alike for Option<T> {
    fn is_alike(&self, other: &Option<T>) -> bool {
        match (self, other) {
            (Some(one), Some(two)) => one.is_alike(two),
            (None, None) => true,
            _ => false,
        }
    }
}

impl<T: Alike + Drop> Alike for Boxed<T> {
    fn is_alike(&self, other: &Boxed<T>) -> bool {
        self.get().is_alike(other.get())
    }
}

impl<T: Alike> Alike for List<T> {
    fn is_alike(&self, other: &List<T>) -> bool {
        if self.len() != other.len() {
            return false;
        }
        for (one, two) in self.as_slice().iter().zip(other.as_slice()) {
            if !one.is_alike(two) {
                return false;
            }
        }
        true
    }
}

impl Alike for Amount {
    fn is_alike(&self, other: &Amount) -> bool {
        self.value == other.value
            && self.symbol.is_alike(&other.symbol)
            && self.shape == other.shape
    }
}

impl Alike for Cost {
    fn is_alike(&self, other: &Cost) -> bool {
        match (self, other) {
            (Cost::Unit(one), Cost::Unit(two)) => one.is_alike(two),
            (Cost::Total(one), Cost::Total(two)) => one.is_alike(two),
            _ => false,
        }
    }
}

impl Alike for Assertion {
    fn is_alike(&self, other: &Assertion) -> bool {
        self.only == other.only && self.below == other.below && self.amount.is_alike(&other.amount)
    }
}

impl Alike for Tag {
    fn is_alike(&self, other: &Tag) -> bool {
        self.name.is_alike(&other.name) && self.value.is_alike(&other.value)
    }
}

impl Alike for Posting {
    fn is_alike(&self, other: &Posting) -> bool {
        self.line == other.line
            && self.day == other.day
            && self.mark == other.mark
            && self.side == other.side
            && self.filled == other.filled
            && self.costed == other.costed
            && self.account.is_alike(&other.account)
            && self.amount.is_alike(&other.amount)
            && self.cost.is_alike(&other.cost)
            && self.wanted.is_alike(&other.wanted)
            && self.comment.is_alike(&other.comment)
            && self.tags.is_alike(&other.tags)
    }
}

impl Alike for Txn {
    fn is_alike(&self, other: &Txn) -> bool {
        self.line == other.line
            && self.day == other.day
            && self.mark == other.mark
            && self.code.is_alike(&other.code)
            && self.description.is_alike(&other.description)
            && self.comment.is_alike(&other.comment)
            && self.tags.is_alike(&other.tags)
            && self.postings.is_alike(&other.postings)
    }
}

/// Of prices and directives, which say no lines, the pieces tell enough, and of automated rules the lines.
impl Alike for Item {
    fn is_alike(&self, other: &Item) -> bool {
        match (self, other) {
            (Item::Txn(one), Item::Txn(two)) => one.is_alike(two),
            (Item::Auto(one), Item::Auto(two)) => one.line == two.line,
            (Item::Periodic(one), Item::Periodic(two)) => {
                one.line == two.line && one.postings.is_alike(&two.postings)
            }
            (Item::Gap, Item::Gap)
            | (Item::Block, Item::Block)
            | (Item::Price(_), Item::Price(_))
            | (Item::Directive(_), Item::Directive(_)) => true,
            _ => false,
        }
    }
}

impl Alike for Placed {
    fn is_alike(&self, other: &Placed) -> bool {
        self.piece == other.piece && self.item.is_alike(&other.item)
    }
}

/// Two journals write amounts of each symbol alike.
fn have_same_styles(alloc: Global, live: &Live, other: &Live) -> Result<(), Fail> {
    for name in SYMBOLS {
        let symbol = Text::copied(alloc, name)?;
        if live.styles().style(&symbol) != other.styles().style(&symbol) {
            return Err(Fail::new("the same styles"));
        }
    }
    Ok(())
}

/// Two journals have the same text, items, book and styles.
pub(crate) fn are_same(alloc: Global, live: &Live, other: &Live) -> Result<(), Fail> {
    if live.text() != other.text() {
        return Err(Fail::new("the same text"));
    }
    if !live.book().txns.is_alike(&other.book().txns) {
        return Err(Fail::new("the same book"));
    }
    if !live.items().is_alike(other.items()) {
        return Err(Fail::new("the same items"));
    }
    have_same_styles(alloc, live, other)
}

/// Two faults have the same line and cause, with the same sums.
pub(crate) fn are_same_faults(alloc: Global, fault: &Fault, other: &Fault) -> Result<(), Fail> {
    let line = print_fault(alloc, fault)?;
    let due = print_fault(alloc, other)?;
    if line.as_slice() != due.as_slice() {
        return Err(Fail::new("the same fault"));
    }
    Ok(())
}
