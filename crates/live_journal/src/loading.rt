//! What is made of a text when it is loaded.
ghost use Rattle.std.specs.Prelude.{◌≡◌, ◌+◌, ◌≤◌, None, IfErr, IfOk, Ok, OnOk, length};
ghost use Rattle.hl_base.specs.Items.{items_of};
ghost use Rattle.hl_base.specs.Pieces.{bytes_in};
ghost use Rattle.book.specs.Bounds.{TurnoverFits};
ghost use Rattle.book.specs.Postings.{postings_of};
ghost use Rattle.balancing.specs.Load.{load};
ghost use Rattle.journal_reader.specs.Whole.{AreWithin};
ghost use Rattle.live_journal.specs.Loading.{IsCut, Tells, book_of, fault_of, limit_fault, past_limit, reading_in, text_fault};
ghost use Rattle.loaded_texts.specs.Keeping.{IsLoaded};

use crate::entries::entries_of;
use crate::fault::OpenFault;
use additions::BookEnd;
use balancing::{CheckFault, check};
use book::{Book, Items, Placed};
use hl_base::{ITEM_LIMIT, List, Memory, Piece, Steps, TEXT_LIMIT, cut_items};
use journal_reader::{ReadFault, read_items};
use kept_books::KeptBook;
use kept_texts::KeptText;
use loaded_texts::Loaded;
use std::alloc::Global;
use std::sync::ledger::Ledger;
use std::thread::Threads;

/// The pieces of a text that is within the limits: its bytes are judged before its items.
#[tactic(auto, using(journal_reader::proofs::Whole::within))]
fn cut_within(alloc: Global, text: &[u8]) -> Result<List<Piece>, OpenFault>
    ensures cut { IfOk result (IsCut text.now) }
    ensures fault { IfErr result (λ e. Tells e (limit_fault (past_limit text.now))) }
{
    let size = text.len() as u64;
    if size > TEXT_LIMIT {
        let limit = TEXT_LIMIT;
        return Err(OpenFault::TooLarge { limit, size });
    }
    let pieces = cut_items(alloc, text)?;
    let count = pieces.len() as u64;
    if count > ITEM_LIMIT {
        let limit = ITEM_LIMIT;
        return Err(OpenFault::TooLarge { limit, size: count });
    }
    Ok(pieces)
}

/// The items of a text that is cut into these pieces.
fn read<L: Ledger>(
    alloc: Global,
    text: &[u8],
    pieces: &[Piece],
    year: Option<u16>,
    steps: &mut Steps<L>,
) -> Result<Items, OpenFault>
    requires pieces { pieces.now ≡ items_of text.now }
    requires within { AreWithin text.now pieces.now }
    requires whole { bytes_in pieces.now ≡ length text.now }
    ensures read { IfOk result (λ items. reading_in year text.now ≡ Ok items) }
    ensures fault { IfErr result (λ e. Tells e (text_fault (reading_in year text.now))) }
    ensures bound { steps.new.bytes_read ≤ steps.old.bytes_read + length text.now }
    ensures others { steps.new ≡ record steps.old { bytes_read = steps.new.bytes_read } }
{
    match read_items(alloc, text, pieces, year, steps) {
        Ok(items) => Ok(items),
        Err(ReadFault::Read(fault)) => Err(OpenFault::Load(fault)),
        Err(ReadFault::Memory) => Err(OpenFault::Memory),
    }
}

/// The items of a text that is cut into these pieces, which several threads may read.
fn read_by<R: Threads + Sync, L: Ledger>(
    rt: &R,
    alloc: Global,
    text: &[u8],
    pieces: &[Piece],
    year: Option<u16>,
    steps: &mut Steps<L>,
) -> Result<Items, OpenFault>
    requires pieces { pieces.now ≡ items_of text.now }
    requires within { AreWithin text.now pieces.now }
    requires whole { bytes_in pieces.now ≡ length text.now }
    ensures read { IfOk result (λ items. reading_in year text.now ≡ Ok items) }
    ensures fault { IfErr result (λ e. Tells e (text_fault (reading_in year text.now))) }
    ensures bound { steps.new.bytes_read ≤ steps.old.bytes_read + length text.now }
    ensures others { steps.new ≡ record steps.old { bytes_read = steps.new.bytes_read } }
{
    match parallel_reading::read_items(rt, alloc, text, pieces, year, steps) {
        Ok(items) => Ok(items),
        Err(ReadFault::Read(fault)) => Err(OpenFault::Load(fault)),
        Err(ReadFault::Memory) => Err(OpenFault::Memory),
    }
}

/// The book of some items.
fn checked(alloc: Global, items: Items) -> Result<Book, OpenFault>
    ensures book { IfOk result (λ book. load items ≡ Ok book) }
    ensures fault { IfErr result (λ e. Tells e (text_fault (load items))) }
    ensures fits { IfOk result (λ book. TurnoverFits (postings_of book.txns)) }
{
    match check(alloc, items) {
        Ok(book) => Ok(book),
        Err(CheckFault::Journal(fault)) => Err(OpenFault::Load(fault)),
        Err(CheckFault::Memory) => Err(OpenFault::Memory),
    }
}

/// The book of some items, of which copies of the transactions are checked.
fn book_of_items(alloc: Global, items: &[Placed]) -> Result<Book, OpenFault>
    ensures book { IfOk result (λ book. load items.now ≡ Ok book) }
    ensures fault { IfErr result (λ e. Tells e (text_fault (load items.now))) }
    ensures fits { IfOk result (λ book. TurnoverFits (postings_of book.txns)) }
{
    let entries = entries_of(alloc, items)?;
    checked(alloc, entries)
}

/// The book of a text within the limits, which is read once, since nothing else is kept of it.
pub fn load_book<L: Ledger>(
    alloc: Global,
    text: &[u8],
    year: Option<u16>,
    steps: &mut Steps<L>,
) -> Result<Book, OpenFault>
    ensures book { IfOk result (λ book. book_of year text.now ≡ Ok book) }
    ensures good { OnOk result (fault_of year text.now ≡ None) }
    ensures fault { IfErr result (λ e. Tells e (fault_of year text.now)) }
    ensures bound { steps.new.bytes_read ≤ steps.old.bytes_read + length text.now }
    ensures others { steps.new ≡ record steps.old { bytes_read = steps.new.bytes_read } }
{
    let pieces = cut_within(alloc, text)?;
    let items = read(alloc, text, pieces.as_slice(), year, steps)?;
    let book = checked(alloc, items)?;
    Ok(book)
}

/// The book of a text within the limits, as `load_book` makes it, where several threads may read the text.
pub fn load_book_by<R: Threads + Sync, L: Ledger>(
    rt: &R,
    alloc: Global,
    text: &[u8],
    year: Option<u16>,
    steps: &mut Steps<L>,
) -> Result<Book, OpenFault>
    ensures book { IfOk result (λ book. book_of year text.now ≡ Ok book) }
    ensures good { OnOk result (fault_of year text.now ≡ None) }
    ensures fault { IfErr result (λ e. Tells e (fault_of year text.now)) }
    ensures bound { steps.new.bytes_read ≤ steps.old.bytes_read + length text.now }
    ensures others { steps.new ≡ record steps.old { bytes_read = steps.new.bytes_read } }
{
    let pieces = cut_within(alloc, text)?;
    let items = read_by(rt, alloc, text, pieces.as_slice(), year, steps)?;
    let book = checked(alloc, items)?;
    Ok(book)
}

/// All that is made of a text with these pieces, items and book. What walks ask is made with it, so that the first edit costs what
/// any other one does; the sums of plain reports are made when they are asked for.
fn with_kept(
    alloc: Global,
    year: Option<u16>,
    text: &[u8],
    pieces: &[Piece],
    items: Items,
    book: Book,
) -> Result<Loaded, Memory>
    requires cut { IsCut text.now pieces.now }
    requires read { reading_in year text.now ≡ Ok items }
    requires loads { load items ≡ Ok book }
    requires fits { TurnoverFits (postings_of book.txns) }
    ensures { IfOk result (IsLoaded year text.now) }
{
    let of_text = KeptText::of(
        alloc,
        year,
        text,
        pieces,
        items.as_slice(),
        book.txns.as_slice(),
    )?;
    let end = BookEnd::of(alloc, book.txns.as_slice())?;
    let kept = KeptBook::of(alloc, items.as_slice(), book.txns.as_slice())?;
    Ok(Loaded {
        items,
        book,
        text: of_text,
        end,
        kept,
    })
}

/// Loads a text within the limits. It is read once: the book is made of copies of its transactions.
pub(crate) fn load_text<L: Ledger>(
    alloc: Global,
    text: &[u8],
    year: Option<u16>,
    steps: &mut Steps<L>,
) -> Result<Loaded, OpenFault>
    ensures loaded { IfOk result (IsLoaded year text.now) }
    ensures fault { IfErr result (λ e. Tells e (fault_of year text.now)) }
    ensures bound { steps.new.bytes_read ≤ steps.old.bytes_read + length text.now }
    ensures others { steps.new ≡ record steps.old { bytes_read = steps.new.bytes_read } }
{
    let pieces = cut_within(alloc, text)?;
    let items = read(alloc, text, pieces.as_slice(), year, steps)?;
    let book = book_of_items(alloc, items.as_slice())?;
    let loaded = with_kept(alloc, year, text, pieces.as_slice(), items, book)?;
    Ok(loaded)
}
