//! What an edit makes of what is kept.
ghost use Rattle.std.specs.Prelude.{◌≡◌, ◌<◌, ◌++◌, ◌∷◌, [], ℕ, List, Some, OnErr, OnOk, length, set, slice_get};
ghost use Rattle.book.specs.declared.item.Placed.{Placed};
ghost use Rattle.book.specs.declared.transaction.Txn.{Txn as Entry};
ghost use Rattle.changed_texts.specs.OneEntry.{IsMet, items_met};
ghost use Rattle.kept_texts.specs.Keeping.{IsWith};

use crate::around::styles_met;
use asked_days::AskedDays;
use book::{Placed as Item, Txn};
use changed_texts::{Met, more_items};
use counted_styles::TextStyles;
use hl_base::Memory;
use std::alloc::Global;

/// What is kept of the items and the book of a text that an edit makes: all but its end.
#[derive(Drop)]
pub struct Edited {
    pub styles: TextStyles,
    pub asked: AskedDays,
}

impl Edited {
    /// Adds a transaction behind the book. After an error nothing has changed.
    pub fn add(&mut self, alloc: Global, txn: &Txn) -> Result<(), Memory>
        ensures ok { OnOk result ((items : List Placed) (book : List Entry)
            → IsWith items book self.old
            → IsWith items (book ++ txn.now ∷ []) self.new) }
        ensures err { OnErr result (self.new ≡ self.old) }
    {
        self.asked.add(alloc, txn)?;
        Ok(())
    }

    /// Lets a transaction of the book have another form, as a walk makes one. After an error nothing has changed.
    pub fn exchange(&mut self, alloc: Global, old: &Txn, new: &Txn) -> Result<(), Memory>
        ensures ok { OnOk result ((items : List Placed) (book : List Entry) (number : ℕ)
            → IsWith items book self.old
            → slice_get book number ≡ Some old.now
            → IsWith items (set book number new.now) self.new) }
        ensures err { OnErr result (self.new ≡ self.old) }
    {
        self.asked.exchange(alloc, old, new)?;
        Ok(())
    }

    /// Lets gaps stand round an item that an edit has put in the place of another, under a number counted from 0. Where a gap
    /// doesn't meet a gap of the text, the items behind it get other numbers: then the styles are made anew, from all items in
    /// memory, without reading a byte. After an error nothing has changed.
    pub fn meet(
        &mut self,
        alloc: Global,
        items: &[Item],
        number: usize,
        met: &Met,
    ) -> Result<(), Memory>
        requires number { number < length items.now }
        requires met { IsMet number items.now met.now }
        ensures ok { OnOk result ((book : List Entry)
            → IsWith (set items.now number met.now.placed) book self.old
            → IsWith (items_met number items.now met.now) book self.new) }
        ensures err { OnErr result (self.new ≡ self.old) }
    {
        if more_items(items, number, met) == 0 {
            return Ok(());
        }
        let styles = styles_met(alloc, items, number, met)?;
        self.styles = styles;
        Ok(())
    }
}
