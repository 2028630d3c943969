//! Entries that are made of lines.
ghost use Rattle.std.specs.Prelude.{◌≡◌, ◌+◌, ◌<◌, ◌^◌, codes, map, IfOk, length};
ghost use Rattle.hl_time.specs.Calendar.{last_day};
ghost use Rattle.book.specs.Style.{style_of};
ghost use Rattle.book.specs.Styles.{style_in};
ghost use Rattle.book_care.specs.Entries as spec;
ghost use Rattle.book_care.specs.Lines as lines_spec;

use crate::lines::Line;
use book::{Amount, Mark, Placed, Posting, Side, Style, Styles, Txn, Written};
use hl_base::{List, Memory, Text};
use hl_time::Day;
use std::alloc::Global;

/// How an amount of the entries is written: its symbol on the side and with the space of its style, and the number
/// without groups.
fn plain_shape(style: Style) -> Written
    ensures { result ≡ spec.plain_shape style }
{
    Written {
        left: style.shape.left,
        spaced: style.shape.spaced,
        mark: None,
        group: None,
        first: 3,
        rest: 3,
    }
}

/// A line's amount, written as its symbol is.
fn amount_of(alloc: Global, styles: &Styles, line: &Line) -> Result<Amount, Memory>
    ensures { IfOk result (λ amount. amount ≡ spec.amount_of (style_in styles.now) line.now) }
{
    let shape = plain_shape(styles.style(line.symbol()));
    let symbol = Text::copied(alloc, line.symbol().as_str())?;
    Ok(Amount {
        symbol,
        value: line.value(),
        shape,
    })
}

/// The posting of a line, in a line of the entry's text.
fn posted(alloc: Global, styles: &Styles, number: u64, line: &Line) -> Result<Posting, Memory>
    ensures { IfOk result (λ posting. posting ≡ spec.posted (style_in styles.now) number line.now) }
{
    let account = Text::copied(alloc, line.account().as_str())?;
    let amount = amount_of(alloc, styles, line)?;
    let mut posting = Posting::plain(alloc, number, Side::Real, account);
    posting.amount = Some(amount);
    Ok(posting)
}

/// The postings of some lines.
#[tactic(auto, using(crate::proofs::Posted::posted_more, crate::proofs::Posted::posted_all))]
fn all_posted(alloc: Global, styles: &Styles, lines: &[Line]) -> Result<List<Posting>, Memory>
    ensures { IfOk result (λ postings.
        postings ≡ spec.posted_from (style_in styles.now) 2 lines.now) }
{
    let mut postings = Vec::with_capacity(alloc, lines.len())?;
    let mut number = 2;
    for line in lines {
        postings.push(posted(alloc, styles, number, line)?)?;
        number += 1;
    }
    Ok(List::from_vec(postings))
}

/// An entry of a day.
fn entry_on(
    alloc: Global,
    styles: &Styles,
    day: Day,
    description: &str,
    lines: &[Line],
) -> Result<Txn, Memory>
    ensures { IfOk result
        (λ txn. txn ≡ spec.entry_on (style_in styles.now) day.0 description.now lines.now) }
{
    let description = Text::copied(alloc, description)?;
    let postings = all_posted(alloc, styles, lines)?;
    Ok(Txn {
        line: 1,
        day,
        mark: Mark::Unmarked,
        code: Text::new(alloc),
        description,
        comment: Text::new(alloc),
        tags: List::new(alloc),
        postings,
    })
}

/// Some lines with the other sign.
fn opposites<'a>(alloc: Global, lines: &[Line<'a>]) -> Result<Vec<Line<'a>>, Memory>
    ensures { IfOk result (λ opposites. opposites.items ≡ map lines_spec.opposite lines.now) }
{
    let mut opposites = Vec::with_capacity(alloc, lines.len())?;
    for line in lines {
        opposites.push(line.opposite())?;
    }
    Ok(opposites)
}

/// The closing entry of some lines and the opening one of the next day.
fn both(alloc: Global, styles: &Styles, on: Day, lines: &[Line]) -> Result<(Txn, Txn), Memory>
    requires { on.0 < last_day }
    ensures { IfOk result (λ both. both ≡ (
      spec.entry_on (style_in styles.now) on.0 (codes "closing") lines.now,
      spec.entry_on (style_in styles.now) (on.0
          + 1) (codes "opening") (map lines_spec.opposite lines.now),
    )) }
{
    let closing = entry_on(alloc, styles, on, "closing", lines)?;
    let turned = opposites(alloc, lines)?;
    let opening = entry_on(alloc, styles, Day(on.0 + 1), "opening", &turned)?;
    Ok((closing, opening))
}

/// The closing entry of some lines and the opening one of the next day, where there are lines; each amount is written as
/// its symbol is in some items.
#[tactic(auto, using(crate::proofs::Posted::two_entries))]
pub(crate) fn entries_with(
    alloc: Global,
    items: &[Placed],
    on: Day,
    lines: &[Line],
) -> Result<Option<(Txn, Txn)>, Memory>
    requires { on.0 < last_day }
    ensures { IfOk result
        (λ entries. entries ≡ spec.entries_with (style_of items.now) on.0 lines.now) }
{
    if lines.is_empty() {
        return Ok(None);
    }
    let styles = Styles::of(alloc, items)?;
    Ok(Some(both(alloc, &styles, on, lines)?))
}
