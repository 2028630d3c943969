//! A journal that is kept open.
ghost use Rattle.std.specs.Prelude.{◌≡◌, ◌+◌, ◌-◌, ◌^◌, ◌<◌, ◌≤◌, ℕ, List, false, if◌then◌else◌, IfOk, IfSome, None, Ok, OnErr, OnOk, length};
ghost use Rattle.std.specs.Option.{option_copied};
ghost use Rattle.std.specs.Str.{bytes_eq};
ghost use Rattle.hl_base.specs.Gives.{Gives};
ghost use Rattle.hl_base.specs.Items.{items_of};
ghost use Rattle.hl_base.specs.Limits.{text_limit};
ghost use Rattle.book.specs.Bounds.{TurnoverFits};
ghost use Rattle.book.specs.Postings.{postings_of};
ghost use Rattle.book.specs.Style.{style_of};
ghost use Rattle.book.specs.Styles.{style_in};
ghost use Rattle.index_cells.specs.Books.{KeepsBook};
ghost use Rattle.live_journal.specs.Checking.{CountsEdit, CountsRefused};
ghost use Rattle.live_journal.specs.Edits as edits;
ghost use Rattle.live_journal.specs.Loading.{book_of, open_cause, opened, reading_in};
ghost use Rattle.live_journal.specs.Refusals.{cause_in, no_such_item, not_transactions, prepared, put_into};
ghost use Rattle.live_journal.specs.Trying.{ComesOf};

use crate::adding::add;
use crate::applied::{splice_of, spliced};
use crate::changing::change;
use crate::edit::Edit;
use crate::editing::{Editing, unwalked};
use crate::fault::{EditFault, OpenFault};
use crate::judge::{judge_base, judge_entry, judge_item};
use crate::loading::load_text;
use crate::plan::Plan;
use book::{Book, Items, Styles};
use hl_base::{Bytes, Splice, Steps};
use index_cells::Kept;
use loaded_texts::{Loaded, Made, keep_sums, put_made};
use std::alloc::Global;
use std::marker::Model;
use std::snapshot::Snapshot;
use std::sync::ledger::Ledger;

/// A journal that is kept open: its text, which loads, with its items, its book and its styles. Contracts see the
/// text, the year that it begins in if it has one, and the revision, the number of its edits.
#[derive(Drop)]
pub struct Live {
    alloc: Global,
    pub(crate) text: Bytes,
    year: Option<u16>,
    revision: u64,
    pub(crate) loaded: Loaded,
}

impl Model for Live {
    ghost use Rattle.live_journal.specs.Journals.{Journal};
    ghost use Rattle.loaded_texts.specs.Keeping.{IsLoaded};

    ghost Value = { Journal };

    ghost view = { λ l. record { text = l.text; year = l.year; revision = l.revision } };

    ghost invariant = { λ l. IsLoaded l.year l.text l.loaded };
}

/// Whether two texts are the same.
fn are_same(a: &[u8], b: &[u8]) -> bool
    ensures { result ≡ bytes_eq a.now b.now }
{
    a == b
}

/// The revision after an edit: one more, unless the text stays the same.
fn raised(revision: u64, same: bool) -> u64
    requires { same ≡ false → revision < 2 ^ 64 - 1 }
    ensures { result ≡ (if same then revision else revision + 1) }
{
    if same { revision } else { revision + 1 }
}

impl Live {
    /// Opens a journal of a text. The limits of a text, at most 16,777,216 bytes and 200,000 items, are judged
    /// first, the bytes before the items, and then the faults of its items and of its book.
    pub fn open<L: Ledger>(
        alloc: Global,
        text: &[u8],
        year: Option<u16>,
        revision: u64,
        steps: &mut Steps<L>,
    ) -> Result<Live, OpenFault>
        ensures { Gives (λ live.
            live) open_cause result
            (opened (record { text = text.now; year = year; revision = revision })) }
    {
        let loaded = load_text(alloc, text, year, steps)?;
        Ok(Live {
            alloc,
            text: Bytes::copied(alloc, text)?,
            year,
            revision,
            loaded,
        })
    }

    /// The text, which has at most 16,777,216 bytes.
    pub fn text(&self) -> &[u8]
        ensures text { result.now ≡ self.now.text }
        ensures few { length result.now ≤ text_limit }
    {
        self.text.as_slice()
    }

    /// The text's items.
    pub fn items(&self) -> &Items
        ensures { reading_in self.now.year self.now.text ≡ Ok result.now }
    {
        &self.loaded.items
    }

    /// The text's book.
    pub fn book(&self) -> &Book
        ensures book { book_of self.now.year self.now.text ≡ Ok result.now }
        ensures fits { TurnoverFits (postings_of result.now.txns) }
    {
        &self.loaded.book
    }

    /// The styles of the text's items.
    pub fn styles(&self) -> &Styles
        ensures { IfOk (reading_in self.now.year self.now.text)
            (λ items. (symbol : List ℕ) → style_in result.now symbol ≡ style_of items symbol) }
    {
        self.loaded.text.styles.styles()
    }

    /// The sums of the text's book for plain reports, if they are kept.
    pub fn sums(&self) -> Option<&Kept>
        ensures { IfSome (option_copied result) (λ kept.
            IfOk (book_of self.now.year self.now.text) (λ book. KeepsBook book.txns kept)) }
    {
        match &self.loaded.kept.sums {
            Some(kept) => Some(kept),
            None => None,
        }
    }

    /// Keeps the sums of the text's book for plain reports, if none are kept yet and there is memory for them. An edit keeps
    /// them where it puts bytes behind the text that change nothing else; after any other they are made anew.
    pub fn keep_sums(&mut self)
        ensures { self.new ≡ self.old }
    {
        keep_sums(self.alloc, &mut self.loaded);
    }

    /// How many edits the text has had.
    pub fn revision(&self) -> u64
        ensures { result ≡ self.now.revision }
    {
        self.revision
    }

    /// What an edit comes to that no test refuses: what it makes of all that is made of the text, or why the new text is
    /// refused. The journal stays as it is.
    fn made<L: Ledger>(
        &mut self,
        edit: &Edit,
        splice: &Splice,
        new: &[u8],
        steps: &mut Steps<L>,
    ) -> Result<Made, EditFault>
        requires splice { splice.now ≡ edits.splice_of self.old.text edit.now }
        requires new { new.now ≡ edits.applied self.old.text edit.now }
        requires item { no_such_item (items_of self.old.text) edit.now ≡ None }
        requires entries { not_transactions (items_of self.old.text) edit.now ≡ None }
        ensures comes { ComesOf self.old edit.now splice.now.inserted new.now result steps.old
            steps.new }
        ensures stays { self.new ≡ self.old }
    {
        let editing = Editing {
            year: self.year,
            text: self.text.as_slice(),
            edit,
            bytes: splice.inserted.as_slice(),
            new,
        };
        match edit {
            Edit::Add { entry: _ } => add(self.alloc, &editing, &mut self.loaded, steps),
            Edit::Change {
                base: _,
                item,
                entry: _,
            } => change(self.alloc, &editing, &mut self.loaded, *item, steps),
            Edit::Replace { base: _, text: _ } => unwalked(self.alloc, &editing, steps),
        }
    }

    /// Plans an edit, with all the memory that it takes; the journal stays as it is. An edit is refused by the
    /// first of these that holds: its base is above or below the revision; no item has its number; it isn't one of
    /// transactions; the new text has too many bytes or items; the new text has a fault.
    pub fn prepare<L: Ledger>(
        &mut self,
        edit: &Edit,
        steps: &mut Steps<L>,
    ) -> Result<Plan, EditFault>
        ensures value { Gives (λ plan. plan) cause_in result (prepared self.old edit.now) }
        ensures change { IfOk result (λ plan. edits.spliced self.old.text plan.splice ≡ plan.text) }
        ensures inside { IfOk result (λ plan.
            plan.splice.at + plan.splice.removed ≤ length self.old.text) }
        ensures from { IfOk result (λ plan. plan.from ≡ self.old) }
        ensures few { IfOk result (λ plan. length plan.text ≤ text_limit) }
        ensures stays { self.new ≡ self.old }
        // A plain edit reads what it puts in alone, and so does one with a fault of its own. It checks no more transactions than it
        // reaches, and asks few nodes of an index, where none of them is mixed and no dated one is replaced.
        ensures counts { OnOk result (CountsEdit self.old edit.now steps.old steps.new) }
        ensures refused { OnErr result (CountsRefused self.old edit.now steps.old steps.new) }
    {
        let text = self.text.as_slice();
        let items = self.loaded.items.as_slice();
        judge_base(self.revision, edit)?;
        judge_item(items, edit)?;
        judge_entry(self.alloc, items, edit)?;
        let unclosed = self.loaded.text.end.unclosed;
        let splice = splice_of(self.alloc, text, items, unclosed, edit)?;
        let new = spliced(self.alloc, text, &splice)?;
        let same = are_same(new.as_slice(), text);
        let made = self.made(edit, &splice, new.as_slice(), steps)?;
        Ok(Plan {
            from: Snapshot::of(self),
            text: new,
            splice,
            same,
            made,
        })
    }

    /// Puts in an edit that was planned. The revision rises by one, unless the text stays the same.
    pub fn put(&mut self, plan: Plan)
        requires from { plan.from ≡ self.old }
        requires counts { plan.same ≡ false → self.old.revision < 2 ^ 64 - 1 }
        ensures { self.new ≡ put_into plan
            (if plan.same then self.old.revision else self.old.revision + 1) }
    {
        let Plan {
            from: _,
            text,
            splice,
            same,
            made,
        } = plan;
        self.revision = raised(self.revision, same);
        self.text = text;
        put_made(
            self.alloc,
            &mut self.loaded,
            splice.inserted.as_slice(),
            made,
        );
    }
}
