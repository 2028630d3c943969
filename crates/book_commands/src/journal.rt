//! What a text makes that is loaded.
ghost use Rattle.std.specs.Prelude.{◌≡◌, ◌≤◌, Ok, false, IfOk, IfErr, OnOk, nat_lt, length};
ghost use Rattle.hl_base.specs.Items.{items_of};
ghost use Rattle.hl_base.specs.Limits.{item_limit, text_limit};
ghost use Rattle.book.specs.Bounds.{TurnoverFits};
ghost use Rattle.book.specs.Postings.{postings_of};
ghost use Rattle.balancing.specs.Load.{load};
ghost use Rattle.journal_reader.specs.Items.{items_in};
ghost use Rattle.journal_reader.specs.Whole.{AreWithin};
ghost use Rattle.book_commands.specs.Answers.{RefusesText};
ghost use Rattle.book_commands.specs.Journals.{IsCheckedIn, IsCheckedOf, IsBookIn, IsJournalIn, IsJournalOf, IsKeptOf, IsWholeOf};
ghost use Rattle.book_commands.specs.Texts.{Making, judged_text, made_loaded, made_read};

use balancing::{CheckFault, check};
use book::{Book, Items, Styles};
use book_care::Declarations;
use error_lines::past_limit;
use hl_base::{ITEM_LIMIT, Piece, Steps, cut_items};
use journal_reader::ReadFault;
use parallel_reading::read_items;
use prices::Prices;
use query::Types;
use refusals::{Refusal, refuse_fault};
use std::alloc::Global;
use std::sync::ledger::Ledger;
use std::thread::Threads;

/// What the items of a text make: their book, and the styles, types of accounts and prices that they say.
#[derive(Drop)]
pub(crate) struct Journal {
    pub book: Book,
    pub styles: Styles,
    pub types: Types,
    pub prices: Prices,
}

/// The names that a text declares, and the book of its items.
#[derive(Drop)]
pub(crate) struct Checked {
    pub declarations: Declarations,
    pub book: Book,
}

/// The items of a text and their book.
#[derive(Drop)]
pub(crate) struct Kept {
    pub items: Items,
    pub book: Book,
}

/// The items of a text, and what they make.
#[derive(Drop)]
pub(crate) struct Whole {
    pub items: Items,
    pub journal: Journal,
}

/// The items of a text, with a year for dates without one, read by several threads where that serves.
fn read<R: Threads + Sync, L: Ledger>(
    rt: &R,
    alloc: Global,
    text: &[u8],
    pieces: &[Piece],
    year: Option<u16>,
    steps: &mut Steps<L>,
) -> Result<Items, Refusal>
    requires pieces { pieces.now ≡ items_of text.now }
    requires within { AreWithin text.now pieces.now }
    ensures items { IfOk result (λ items. items_in year text.now ≡ Ok items) }
    ensures refused { IfErr result (λ r. (make : Making)
        → RefusesText r (made_read make (items_in year text.now))) }
{
    match read_items(rt, alloc, text, pieces, year, steps) {
        Ok(items) => Ok(items),
        Err(ReadFault::Read(fault)) => Err(refuse_fault(alloc, &fault)),
        Err(ReadFault::Memory) => Err(Refusal::Memory),
    }
}

/// The book of a text's items.
fn make_book(alloc: Global, items: Items) -> Result<Book, Refusal>
    ensures book { IfOk result (λ book. load items ≡ Ok book) }
    ensures fits { IfOk result (λ book. TurnoverFits (postings_of book.txns)) }
    ensures refused { IfErr result (λ r. (make : Making)
        → RefusesText r (made_loaded make items (load items))) }
{
    match check(alloc, items) {
        Ok(book) => Ok(book),
        Err(CheckFault::Journal(fault)) => Err(refuse_fault(alloc, &fault)),
        Err(CheckFault::Memory) => Err(Refusal::Memory),
    }
}

/// The items of a text within the limit of bytes, with a year for dates without one.
fn load_items<R: Threads + Sync, L: Ledger>(
    rt: &R,
    alloc: Global,
    text: &[u8],
    year: Option<u16>,
    steps: &mut Steps<L>,
) -> Result<Items, Refusal>
    requires size { length text.now ≤ text_limit }
    ensures few { OnOk result (nat_lt item_limit (length (items_of text.now)) ≡ false) }
    ensures items { IfOk result (λ items. items_in year text.now ≡ Ok items) }
    ensures refused { IfErr result (λ r. (make : Making)
        → RefusesText r (judged_text make year text.now)) }
{
    let pieces = cut_items(alloc, text)?;
    let count = pieces.len() as u64;
    if count > ITEM_LIMIT {
        let line = past_limit(alloc, count, ITEM_LIMIT)?;
        return Err(Refusal::Line { status: 7, line });
    }
    read(rt, alloc, text, pieces.as_slice(), year, steps)
}

/// What a text's items make. Balancing takes the items, so their book is made last.
fn make_journal(alloc: Global, items: Items) -> Result<Journal, Refusal>
    ensures made { IfOk result (λ journal. IsJournalOf items journal) }
    ensures refused { IfErr result (λ r. (make : Making)
        → RefusesText r (made_loaded make items (load items))) }
{
    let styles = Styles::of(alloc, items.as_slice())?;
    let types = Types::new(alloc, &items)?;
    let prices = Prices::new(alloc, &items)?;
    let book = make_book(alloc, items)?;
    Ok(Journal {
        book,
        styles,
        types,
        prices,
    })
}

/// What a text within the limit of bytes makes, with a year for dates without one.
pub(crate) fn load_journal<R: Threads + Sync, L: Ledger>(
    rt: &R,
    alloc: Global,
    text: &[u8],
    year: Option<u16>,
    steps: &mut Steps<L>,
) -> Result<Journal, Refusal>
    requires size { length text.now ≤ text_limit }
    ensures few { OnOk result (nat_lt item_limit (length (items_of text.now)) ≡ false) }
    ensures journal { IfOk result (λ journal. IsJournalIn year text.now journal) }
    ensures refused { IfErr result (λ r. (make : Making)
        → RefusesText r (judged_text make year text.now)) }
{
    let items = load_items(rt, alloc, text, year, steps)?;
    make_journal(alloc, items)
}

/// The names that items declare, and their book. Balancing takes the items, so their book is made last.
fn make_checked(alloc: Global, items: Items) -> Result<Checked, Refusal>
    ensures made { IfOk result (λ checked. IsCheckedOf items checked) }
    ensures refused { IfErr result (λ r. (make : Making)
        → RefusesText r (made_loaded make items (load items))) }
{
    let declarations = Declarations::new(alloc, &items)?;
    let book = make_book(alloc, items)?;
    Ok(Checked { declarations, book })
}

/// The names that a text within the limit of bytes declares, and its book, with a year for dates without one.
pub(crate) fn load_checked<R: Threads + Sync, L: Ledger>(
    rt: &R,
    alloc: Global,
    text: &[u8],
    year: Option<u16>,
    steps: &mut Steps<L>,
) -> Result<Checked, Refusal>
    requires size { length text.now ≤ text_limit }
    ensures few { OnOk result (nat_lt item_limit (length (items_of text.now)) ≡ false) }
    ensures checked { IfOk result (λ checked. IsCheckedIn year text.now checked) }
    ensures refused { IfErr result (λ r. (make : Making)
        → RefusesText r (judged_text make year text.now)) }
{
    let items = load_items(rt, alloc, text, year, steps)?;
    make_checked(alloc, items)
}

/// The book of a text within the limit of bytes, with a year for dates without one.
fn load_book<R: Threads + Sync, L: Ledger>(
    rt: &R,
    alloc: Global,
    text: &[u8],
    year: Option<u16>,
    steps: &mut Steps<L>,
) -> Result<Book, Refusal>
    requires size { length text.now ≤ text_limit }
    ensures few { OnOk result (nat_lt item_limit (length (items_of text.now)) ≡ false) }
    ensures book { IfOk result (λ book. IsBookIn year text.now book) }
    ensures refused { IfErr result (λ r. (make : Making)
        → RefusesText r (judged_text make year text.now)) }
{
    let items = load_items(rt, alloc, text, year, steps)?;
    make_book(alloc, items)
}

/// The items of a text within the limit of bytes, with a year for dates without one, and their book. It is read
/// once for the book, which takes its items, and once for those that are kept.
pub(crate) fn load_kept<R: Threads + Sync, L: Ledger>(
    rt: &R,
    alloc: Global,
    text: &[u8],
    year: Option<u16>,
    steps: &mut Steps<L>,
) -> Result<Kept, Refusal>
    requires size { length text.now ≤ text_limit }
    ensures few { OnOk result (nat_lt item_limit (length (items_of text.now)) ≡ false) }
    ensures kept { IfOk result (λ kept. IsKeptOf year text.now kept) }
    ensures refused { IfErr result (λ r. (make : Making)
        → RefusesText r (judged_text make year text.now)) }
{
    let book = load_book(rt, alloc, text, year, steps)?;
    let items = load_items(rt, alloc, text, year, steps)?;
    Ok(Kept { items, book })
}

/// The items of a text within the limit of bytes, with a year for dates without one, and what they make. It is read once
/// for the book, which takes its items, and once for those that are kept.
pub(crate) fn load_whole<R: Threads + Sync, L: Ledger>(
    rt: &R,
    alloc: Global,
    text: &[u8],
    year: Option<u16>,
    steps: &mut Steps<L>,
) -> Result<Whole, Refusal>
    requires size { length text.now ≤ text_limit }
    ensures few { OnOk result (nat_lt item_limit (length (items_of text.now)) ≡ false) }
    ensures whole { IfOk result (λ whole. IsWholeOf year text.now whole) }
    ensures refused { IfErr result (λ r. (make : Making)
        → RefusesText r (judged_text make year text.now)) }
{
    let journal = load_journal(rt, alloc, text, year, steps)?;
    let items = load_items(rt, alloc, text, year, steps)?;
    Ok(Whole { items, journal })
}
