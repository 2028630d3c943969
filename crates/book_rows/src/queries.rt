//! Queries of postings and transactions; what each term means is in tests/queries.
use book::{Mark, Posting, Side, Txn};
use hl_base::{List, Memory, Text};
use hl_time::Day;
use query::{Query, RegexMaker, Types, make_query, means_its_terms};
use std::alloc::Global;
use std::test::Fail;

/// A posting of food.
fn food(alloc: Global) -> Result<Posting, Memory> {
    let account = Text::copied(alloc, "expenses:food")?;
    Ok(Posting::plain(alloc, 2, Side::Real, account))
}

/// A lunch on 5 January 2024.
fn lunch(alloc: Global) -> Result<Txn, Memory> {
    let mut postings = Vec::new(alloc);
    postings.push(food(alloc)?)?;
    Ok(Txn {
        line: 1,
        day: Day(738_890),
        mark: Mark::Unmarked,
        code: Text::new(alloc),
        description: Text::copied(alloc, "lunch")?,
        comment: Text::new(alloc),
        tags: List::new(alloc),
        postings: List::from_vec(postings),
    })
}

/// The words of a line, which `|` parts.
fn words_of(alloc: Global, line: &str) -> Result<Vec<Text>, Fail> {
    let mut words = Vec::new(alloc);
    for part in line.split('|') {
        words.push(Text::copied(alloc, part)?)?;
    }
    Ok(words)
}

/// The query of some words on that day.
fn query_of(alloc: Global, line: &str) -> Result<Query, Fail> {
    let words = words_of(alloc, line)?;
    let mut maker = RegexMaker::new();
    Ok(make_query(alloc, &words, Day(738_890), &mut maker)?)
}

#[test]
fn days_are_left_out(rt: HostRuntime) -> Result<(), Fail> {
    means_its_terms();
    let mut query = query_of(
        rt.alloc(),
        "food|desc:^lu.ch$|not:cur:eur|date:2023|not:date:2024",
    )?;
    assert!(rt; !query.is_empty());
    let types = Types::new(rt.alloc(), &List::new(rt.alloc()))?;
    let txn = lunch(rt.alloc())?;
    let posting = food(rt.alloc())?;
    assert_eq!(rt; types.of(&posting.account), Some(b'X'));
    assert!(rt; !query.posting(rt.alloc(), &posting, &txn, &types)?);
    assert!(rt; query.undated(rt.alloc(), &posting, &txn, &types)?);
    assert!(rt; !query.boundless(rt.alloc(), &posting, &txn, &types)?);
    assert!(rt; !query.txn(rt.alloc(), &txn, &types)?);
    let mut search = query.search(rt.alloc())?;
    assert!(rt; !search.posting(&posting, &txn, &types));
    assert!(rt; search.undated(&posting, &txn, &types));
    assert!(rt; !search.boundless(&posting, &txn, &types));
    assert!(rt; !search.txn(&txn, &types));
    Ok(())
}
