//! What is kept of symbols at numbers.
ghost use Rattle.std.specs.Prelude.{◌≡◌, ◌+◌, ◌-◌, ◌<◌, ◌^◌, [], false, find, IfOk, OnOk, is_some};
ghost use Rattle.std.specs.Option.{option_copied};
ghost use Rattle.std.specs.Ordering.{is_lt};
ghost use Rattle.shared_set.specs.Order.{goes_up};
ghost use Rattle.shared_set.specs.Sorted.{Rises};
ghost use Rattle.counted_styles.specs.Marks.{count_at, counted, edge_cmp, first_in, headed, is_past, key_cmp, last_in, mark_at, mark_cmp, mark_of, side_of, style_of_mark, unheaded, uncounted};
ghost use Rattle.counted_styles.specs.Totals.{edge_up, mark_sought, mark_total};

use book::Style;
use hl_base::{Memory, Text};
use shared_set::{Ranked, Seek, SharedSet};
use std::alloc::Global;
use std::cmp::Ordering;

/// What is kept of a symbol at a number: a style, and a count.
#[derive(Drop)]
pub(crate) struct Mark {
    pub symbol: Text,
    pub at: u64,
    pub style: Style,
    pub count: u64,
}

/// A symbol and a number.
#[derive(Drop)]
struct Sought<'a> {
    symbol: &'a [u8],
    at: u64,
}

/// One end of all that is kept of a symbol: before it, or behind it.
#[derive(Drop)]
struct Edge<'a> {
    symbol: &'a [u8],
    behind: bool,
}

/// How a symbol and a number compare with those of a mark.
fn compare(symbol: &[u8], at: u64, mark: &Mark) -> Ordering
    ensures { result ≡ key_cmp symbol.now at mark.now }
{
    match symbol.cmp(mark.symbol.as_bytes()) {
        Ordering::Equal => at.cmp(&mark.at),
        other => other,
    }
}

impl Ranked for Mark {
    ghost rank = { mark_cmp };

    fn rank(&self, other: &Mark) -> Ordering {
        compare(self.symbol.as_bytes(), self.at, other)
    }

    ghost total = { mark_total };
}

impl Seek<Mark> for Sought<'_> {
    ghost side = { λ s m. key_cmp s.symbol.now s.at m };

    fn side(&self, mark: &Mark) -> Ordering {
        compare(self.symbol, self.at, mark)
    }

    ghost upward = { λ s a b h k. goes_up mark_total (mark_sought s.symbol.now s.at a) a b h k };
}

/// The side of one end.
fn side_of(behind: bool) -> Ordering
    ensures { result ≡ side_of behind }
{
    if behind {
        Ordering::Greater
    } else {
        Ordering::Less
    }
}

impl Seek<Mark> for Edge<'_> {
    ghost side = { λ s m. edge_cmp s.symbol.now s.behind m };

    fn side(&self, mark: &Mark) -> Ordering {
        match self.symbol.cmp(mark.symbol.as_bytes()) {
            Ordering::Equal => side_of(self.behind),
            other => other,
        }
    }

    ghost upward = { λ s a b h k. edge_up s.symbol.now s.behind a b h k };
}

/// A mark of what is said of a symbol.
fn make_mark(alloc: Global, said: &(Text, Style), at: u64, count: u64) -> Result<Mark, Memory>
    ensures { IfOk result (λ mark. mark ≡ mark_of said.now at count) }
{
    Ok(Mark {
        symbol: Text::copied(alloc, said.0.as_str())?,
        at,
        style: said.1,
        count,
    })
}

/// Whether something is kept of a symbol at a number.
fn has_mark(marks: &SharedSet<Mark>, symbol: &Text, at: u64) -> bool
    ensures { result ≡ is_some (mark_at symbol.now at marks.now) }
{
    let sought = Sought {
        symbol: symbol.as_bytes(),
        at,
    };
    match marks.get(&sought) {
        Some(_) => true,
        None => false,
    }
}

/// The count that is kept of a symbol at a number, or 0.
fn count_at(marks: &SharedSet<Mark>, symbol: &Text, at: u64) -> u64
    ensures { result ≡ count_at symbol.now at marks.now }
{
    let sought = Sought {
        symbol: symbol.as_bytes(),
        at,
    };
    match marks.get(&sought) {
        Some(mark) => mark.count,
        None => 0,
    }
}

/// Keeps what an item says of a symbol under its number, unless it has said something before.
pub(crate) fn head(
    alloc: Global,
    marks: &mut SharedSet<Mark>,
    number: u64,
    said: &(Text, Style),
) -> Result<(), Memory>
    ensures { OnOk result (marks.new ≡ headed number marks.old said.now) }
{
    if has_mark(marks, &said.0, number) {
        return Ok(());
    }
    let mark = make_mark(alloc, said, number, 1)?;
    marks.put(alloc, mark)?;
    Ok(())
}

/// Keeps nothing of a symbol under an item's number.
pub(crate) fn unhead(
    alloc: Global,
    marks: &mut SharedSet<Mark>,
    number: u64,
    said: &(Text, Style),
) -> Result<(), Memory>
    ensures { OnOk result (marks.new ≡ unheaded number marks.old said.now) }
{
    let mark = make_mark(alloc, said, number, 1)?;
    marks.remove(alloc, &mark)?;
    Ok(())
}

/// Counts one more amount of a symbol with so many decimals.
pub(crate) fn count(
    alloc: Global,
    marks: &mut SharedSet<Mark>,
    said: &(Text, Style),
) -> Result<(), Memory>
    ensures { OnOk result (marks.new ≡ counted marks.old said.now) }
{
    let at = u64::from(said.1.places);
    let count = count_at(marks, &said.0, at);
    if count == u64::MAX {
        return Err(Memory);
    }
    let mark = make_mark(alloc, said, at, count + 1)?;
    marks.put(alloc, mark)?;
    Ok(())
}

/// Counts one amount less.
pub(crate) fn uncount(
    alloc: Global,
    marks: &mut SharedSet<Mark>,
    said: &(Text, Style),
) -> Result<(), Memory>
    ensures { OnOk result (marks.new ≡ uncounted marks.old said.now) }
{
    let at = u64::from(said.1.places);
    let count = count_at(marks, &said.0, at);
    if count > 1 {
        let mark = make_mark(alloc, said, at, count - 1)?;
        marks.put(alloc, mark)?;
        return Ok(());
    }
    let mark = make_mark(alloc, said, at, 1)?;
    marks.remove(alloc, &mark)?;
    Ok(())
}

/// The style of a mark, if it is one of a symbol.
fn style_if(mark: &Mark, symbol: &[u8]) -> Option<Style>
    ensures { result ≡ style_of_mark symbol.now mark.now }
{
    match symbol.cmp(mark.symbol.as_bytes()) {
        Ordering::Equal => Some(mark.style),
        Ordering::Less => None,
        Ordering::Greater => None,
    }
}

/// The style that is kept first of a symbol.
pub(crate) fn first_in(marks: &SharedSet<Mark>, symbol: &Text) -> Option<Style>
    ensures value { result ≡ first_in symbol.now marks.now }
    ensures rises { Rises mark_cmp marks.now }
{
    let edge = Edge {
        symbol: symbol.as_bytes(),
        behind: false,
    };
    match marks.above(&edge) {
        Some(mark) => style_if(mark, symbol.as_bytes()),
        None => None,
    }
}

/// The style that is kept last of a symbol.
pub(crate) fn last_in(marks: &SharedSet<Mark>, symbol: &Text) -> Option<Style>
    ensures value { result ≡ last_in symbol.now marks.now }
    ensures rises { Rises mark_cmp marks.now }
{
    let edge = Edge {
        symbol: symbol.as_bytes(),
        behind: true,
    };
    match marks.below(&edge) {
        Some(mark) => style_if(mark, symbol.as_bytes()),
        None => None,
    }
}

/// The first mark of all.
pub(crate) fn first_mark(marks: &SharedSet<Mark>) -> Option<&Mark>
    ensures mark { option_copied result ≡ find (λ m. is_lt (edge_cmp [] false m)) marks.now }
    ensures rises { Rises mark_cmp marks.now }
{
    let edge = Edge {
        symbol: b"",
        behind: false,
    };
    marks.above(&edge)
}

/// The first mark behind all that is kept of a symbol.
pub(crate) fn next_mark<'a>(marks: &'a SharedSet<Mark>, symbol: &[u8]) -> Option<&'a Mark>
    ensures mark { option_copied result ≡ find (is_past symbol.now) marks.now }
    ensures rises { Rises mark_cmp marks.now }
{
    let edge = Edge {
        symbol,
        behind: true,
    };
    marks.above(&edge)
}
