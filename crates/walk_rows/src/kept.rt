//! What is kept of a text: whether bytes may be put behind its end, and the decimals of its amounts; and laws of entries that are
//! put behind a book.
use crate::entries::{euros, plain, txn_of};
use additions::{added_goes_behind, additions_add, books_are_told, quiet_entries_are_told};
use book::{Item, Txn};
use counted_styles::{CountedStyles, TextStyles};
use hl_base::{Memory, Text, cut_items};
use placed_checks::a_placed_check;
use std::alloc::Global;
use std::test::Fail;
use text_ends::{KeptEnd, bytes_go_behind, plain_bytes_are_told};
use watchers::watches_of_a_book;

/// What is kept of the end of a text without directives.
fn end_of(alloc: Global, text: &[u8]) -> Result<KeptEnd, Fail> {
    let pieces = cut_items(alloc, text)?;
    let end = KeptEnd::of(alloc, None, text, pieces.as_slice(), &[])?;
    Ok(end)
}

#[test]
fn an_empty_line_is_between_entries(rt: HostRuntime) -> Result<(), Fail> {
    bytes_go_behind();
    plain_bytes_are_told();
    added_goes_behind();
    additions_add();
    books_are_told();
    quiet_entries_are_told();
    let end = end_of(rt.alloc(), b"2024-01-01 a\n    b  1\n    c\n")?;
    assert!(rt; end.goes_behind(b"\n2024-02-01 tea\n"));
    assert!(rt; !end.goes_behind(b"2024-02-01 tea\n"));
    Ok(())
}

/// An entry of two postings: `b  0 EUR` and `c`.
fn posting_txn(alloc: Global) -> Result<Txn, Memory> {
    let mut first = plain(alloc, "b")?;
    first.amount = Some(euros(alloc, 0)?);
    let second = plain(alloc, "c")?;
    txn_of(alloc, 10, first, second)
}

#[test]
fn decimals_of_an_entry(rt: HostRuntime) -> Result<(), Fail> {
    watches_of_a_book();
    a_placed_check();
    let alloc = rt.alloc();
    let item = Item::Txn(posting_txn(alloc)?);
    let symbol = Text::copied(alloc, "EUR")?;
    let mut styles = CountedStyles::new();
    styles.add(alloc, 0, &item)?;
    assert!(rt; styles.decimals(&symbol) == Some(0));
    let none = TextStyles::of(alloc, &[])?;
    assert!(rt; none.decimals(&symbol).is_none());
    Ok(())
}
