//! What is kept of a text.
ghost use Rattle.std.specs.Prelude.{◌≡◌, ◌++◌, ◌||◌, ℕ, List, Ok, Option, Some, IfOk, length, set, slice_get};
ghost use Rattle.std.specs.List.{AllByRecursion};
ghost use Rattle.hl_base.specs.Items as cut;
ghost use Rattle.hl_base.specs.Pieces.{IsWithin};
ghost use Rattle.book.specs.declared.item.Placed.{Placed as Stood};
ghost use Rattle.book.specs.declared.transaction.Txn.{Txn as Entry};
ghost use Rattle.journal_reader.specs.Items.{items_in};
ghost use Rattle.text_ends.specs.Ends.{end_of};
ghost use Rattle.text_ends.specs.Going.{items_behind};
ghost use Rattle.text_ends.specs.Whole.{ComesTo};
ghost use Rattle.asked_days.specs.Asked as asks;
ghost use Rattle.changed_texts.specs.Replacing.{replaced};
ghost use Rattle.changed_texts.specs.Standing.{Replaces};
ghost use Rattle.kept_texts.specs.Keeping.{Has, IsOf, IsWith};
ghost use Rattle.kept_texts.specs.Moving.{CanMoveEnd, IsEndMove, moved_end};
ghost use Rattle.hl_base.specs.declared.items.Piece.{Piece as Cut};

use crate::edited::Edited;
use asked_days::AskedDays;
use book::{Item, Placed, Txn};
use counted_styles::TextStyles;
use hl_base::{Memory, Piece};
use moved_lines::Offset;
use std::alloc::Global;
use text_ends::{Grown, KeptEnd};

/// What is kept of a text, its items and the transactions of its book, so that an edit costs what it touches: its end, with
/// its lines and the context behind it; the styles of its items, with the decimals of each symbol; and the days on which its
/// book asks for balances.
#[derive(Drop)]
pub struct KeptText {
    pub end: KeptEnd,
    pub styles: TextStyles,
    pub asked: AskedDays,
}

/// How the end of a text moves when other bytes stand in the place of one of its entries: how far all behind the entry moves,
/// the last piece of the new text, and whether the entry was the last piece of the old one.
#[derive(Clone, Copy, Debug)]
pub struct EndMove {
    pub by: Offset,
    pub last: Option<Piece>,
    pub was_last: bool,
}

impl KeptText {
    /// What is kept of a text that begins in a year, with its pieces, its items and the transactions of its book.
    pub fn of(
        alloc: Global,
        year: Option<u16>,
        text: &[u8],
        pieces: &[Piece],
        items: &[Placed],
        txns: &[Txn],
    ) -> Result<KeptText, Memory>
        requires cut { pieces.now ≡ cut.items_of text.now }
        requires within { AllByRecursion (IsWithin (length text.now)) pieces.now }
        ensures { IfOk result (IsOf year text.now items.now txns.now) }
    {
        let end = KeptEnd::of(alloc, year, text, pieces, items)?;
        let styles = TextStyles::of(alloc, items)?;
        let asked = AskedDays::of(alloc, txns)?;
        Ok(KeptText { end, styles, asked })
    }

    /// What an edit makes that puts bytes behind the text which come to these items, with more transactions behind the book.
    /// The time is that of what is added. What is kept stays as it is.
    pub fn with_added(&self, alloc: Global, grown: &Grown, txns: &[Txn]) -> Result<Edited, Memory>
        ensures { IfOk result (λ e. (items : List Stood) (book : List Entry)
            → Has items book self.now
            → IsWith (items_behind items grown.now) (book ++ txns.now) e) }
    {
        let styles = self.styles.with_added(alloc, grown.items.as_slice())?;
        let asked = asked_with(alloc, &self.asked, txns)?;
        Ok(Edited { styles, asked })
    }

    /// What an edit makes that puts an item under a number, counted from 0, in the place of another. The time is that of both
    /// items. What is kept stays as it is, and the book too: `Edited::exchange` changes it.
    pub fn with_changed(
        &self,
        alloc: Global,
        number: u64,
        old: &Item,
        new: &Item,
    ) -> Result<Edited, Memory>
        ensures { IfOk result (λ e. (items : List Stood) (book : List Entry) (was is : Stood)
            → Has items book self.now
            → slice_get items number ≡ Some was → was.item ≡ old.now → is.item ≡ new.now
            → IsWith (set items number is) book e) }
    {
        let styles = self.styles.with_changed(alloc, number, old, new)?;
        let asked = self.asked.copy()?;
        Ok(Edited { styles, asked })
    }

    /// Puts in what an edit made whose bytes come to this behind the text. It takes no memory.
    pub fn put_behind(&mut self, bytes: &[u8], grown: &Grown, edited: Edited)
        requires { ComesTo self.old.end bytes.now grown.now }
        ensures { (year : Option ℕ) (text : List ℕ) (items : List Stood) (book : List Entry)
            → items_in year text ≡ Ok items
            → self.old.end ≡ end_of year text items
            → IsWith (items_behind items grown.now) book edited
            → IsOf year (text ++ bytes.now) (items_behind items grown.now) book self.new }
    {
        let Edited { styles, asked } = edited;
        self.end.grow(bytes, grown);
        self.styles = styles;
        self.asked = asked;
    }

    /// Puts in what an edit made whose bytes, entries and gaps, stand in the place of an entry of the text. It takes no memory
    /// and reads nothing.
    pub fn put_changed(&mut self, to: EndMove, edited: Edited)
        requires { CanMoveEnd to.by self.old.end }
        ensures { (year : Option ℕ) (text bytes : List ℕ) (items after : List Stood)
            (book : List Entry) (n : ℕ) (p : Cut)
            → Replaces year text items n p bytes after → IsEndMove text n p bytes to
            → self.old.end ≡ end_of year text items → IsWith after book edited
            → IsOf year (replaced text p bytes) after book self.new }
    {
        let Edited { styles, asked } = edited;
        move_end(&mut self.end, to);
        self.styles = styles;
        self.asked = asked;
    }
}

/// Whether one of both holds.
fn either(one: bool, other: bool) -> bool
    ensures { result ≡ (one || other) }
{
    one || other
}

/// Lets the end of a text move.
fn move_end(end: &mut KeptEnd, to: EndMove)
    requires { CanMoveEnd to.by end.old }
    ensures { end.new ≡ moved_end to end.old }
{
    end.last = to.last;
    end.ended = either(end.ended, to.was_last);
    end.lines = to.by.lines.moved(end.lines);
    end.bytes = to.by.bytes.moved(end.bytes);
}

/// The days on which a book asks with more transactions behind it.
fn asked_with(alloc: Global, asked: &AskedDays, txns: &[Txn]) -> Result<AskedDays, Memory>
    ensures { IfOk result (λ all. (book : List Entry) → asks.AreOf book asked.now
        → asks.AreOf (book ++ txns.now) all) }
{
    let mut all = asked.copy()?;
    for txn in txns {
        all.add(alloc, txn)?;
    }
    Ok(all)
}
