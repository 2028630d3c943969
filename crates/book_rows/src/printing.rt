//! Transactions worked out by hand; what `print` and `close` write is in tests/commands.
use crate::samples::{amount, posting};
use book::{Book, Mark, Styles, Txn};
use hl_base::{List, Text};
use hl_time::Day;
use journal_printer::{Detail, print_book};
use std::alloc::Global;
use std::test::Fail;

/// The number of 2024-01-05.
const DAY: u32 = 738_890;

fn bread(alloc: Global, day: u32, quantity: u16) -> Result<Txn, Fail> {
    let mut postings = Vec::new(alloc);
    let paid = amount(alloc, i128::from(quantity), 0, "EUR")?;
    postings.push(posting(alloc, "expenses:food", Some(paid))?)?;
    let given = amount(alloc, -i128::from(quantity), 0, "EUR")?;
    postings.push(posting(alloc, "assets:cash", Some(given))?)?;
    Ok(Txn {
        line: 1,
        day: Day(day),
        mark: Mark::Unmarked,
        code: Text::new(alloc),
        description: Text::copied(alloc, "bread")?,
        comment: Text::new(alloc),
        tags: List::new(alloc),
        postings: List::from_vec(postings),
    })
}

#[test]
fn prints_a_book_by_day(rt: HostRuntime) -> Result<(), Fail> {
    let alloc = rt.alloc();
    let styles = Styles::new(alloc);
    let mut txns = Vec::new(alloc);
    txns.push(bread(alloc, DAY, 10)?)?;
    txns.push(bread(alloc, DAY - 1, 7)?)?;
    let book = Book {
        txns: List::from_vec(txns),
    };
    let text = print_book(alloc, &book, &styles, Detail::Explicit)?;
    let want =
        "2024-01-04 bread\n    expenses:food   7 EUR\n    assets:cash    -7 EUR\n\n2024-01-05 bread\n    expenses:food   10 EUR\n    assets:cash    -10 EUR\n\n";
    assert_eq!(rt; text.as_slice(), want.as_bytes());
    Ok(())
}
