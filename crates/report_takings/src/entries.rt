//! Postings with their transactions, and which of them a report takes.
ghost use Rattle.std.specs.Prelude.{◌≡◌, ◌++◌, filter, IfOk, OnOk};
ghost use Rattle.report_takings.specs.Asking.{Serves, entries, question_of};
ghost use Rattle.report_takings.specs.Takings.{before, holds, is_chosen, is_historical, is_kept, names_earlier};
ghost use Rattle.report_takings.specs.declared.entries.Part.TheVariants.{Named};
ghost use Rattle.report_takings.specs.Walked.{chosen_in, chosen_of};

use crate::scope::Scope;
use book::{Posting, Txn};
use hl_base::Memory;
use hl_time::{Day, Span};
use query::Search;
use report_options::Start;
use std::alloc::Global;
use std::marker::Model;

/// A posting with its transaction. Contracts see both.
#[derive(Drop)]
pub struct Entry<'a> {
    posting: &'a Posting,
    txn: &'a Txn,
}

impl<'a> Model for Entry<'a> {
    ghost use Rattle.book.specs.declared.transaction.Posting.{Posting};
    ghost use Rattle.book.specs.declared.transaction.Txn.{Txn};

    ghost Value = { Posting × Txn };

    ghost view = { λ e. (e.posting.now, e.txn.now) };
}

impl<'a> Entry<'a> {
    ghost use Rattle.std.specs.Prelude.{◌≡◌};
    ghost use Rattle.report_takings.specs.Entries.{day_in};

    /// A posting with its transaction.
    pub(crate) fn new(posting: &'a Posting, txn: &'a Txn) -> Entry<'a>
        ensures { result ≡ (posting.now, txn.now) }
    {
        Entry { posting, txn }
    }

    /// The posting.
    pub fn posting(&self) -> &'a Posting
        ensures { result.now ≡ self.now.0 }
    {
        self.posting
    }

    /// The transaction.
    pub fn txn(&self) -> &'a Txn
        ensures { result.now ≡ self.now.1 }
    {
        self.txn
    }

    /// The posting's own day, else that of its transaction.
    pub fn day(&self) -> Day
        ensures { result.0 ≡ day_in self.now }
    {
        self.posting.day_in(self.txn)
    }
}

/// Whether a day lies in a span.
fn holds(span: Span, day: u32) -> bool
    ensures { result ≡ holds span day }
{
    span.from <= day && day < span.end
}

/// Whether sums begin before all days.
fn is_historical(start: Start) -> bool
    ensures { result ≡ is_historical start }
{
    match start {
        Start::Historical => true,
        Start::Change | Start::Cumulative => false,
    }
}

/// What a report keeps a posting for.
#[derive(Clone, Copy)]
pub enum Part {
    /// Its amount.
    Counted,
    /// Its account alone, as `-E` asks.
    Named,
}

/// Whether a posting is chosen.
#[tactic(auto, using(crate::proofs::Serving::posting_is, crate::proofs::Serving::boundless_is, crate::proofs::Serving::serves_still))]
pub(crate) fn is_chosen(
    search: &mut Search,
    scope: &Scope,
    start: Start,
    shown: Span,
    posting: &Posting,
    txn: &Txn,
) -> bool
    requires { Serves search.old scope.now.query.now }
    ensures chosen { result ≡ is_chosen start (question_of scope.now) shown (posting.now, txn.now) }
    ensures serves { Serves search.new scope.now.query.now }
{
    let day = posting.day_in(txn).0;
    if is_historical(start) {
        if day < shown.end {
            return search.boundless(posting, txn, scope.types);
        }
        return false;
    }
    if holds(shown, day) {
        return search.posting(posting, txn, scope.types);
    }
    false
}

/// Keeps a posting, if it is chosen.
fn keep<'a>(
    search: &mut Search,
    scope: &Scope<'a>,
    start: Start,
    shown: Span,
    entry: Entry<'a>,
    kept: &mut Vec<Entry<'a>>,
) -> Result<(), Memory>
    requires { Serves search.old scope.now.query.now }
    ensures kept { OnOk result
        (kept.new.items ≡ kept.old.items
        ++ chosen_of start (question_of scope.now) shown entry.entry) }
    ensures serves { Serves search.new scope.now.query.now }
{
    if is_chosen(search, scope, start, shown, entry.posting, entry.txn) {
        kept.push(entry)?;
    }
    Ok(())
}

/// Keeps the postings of a transaction that are chosen.
fn keep_all<'a>(
    search: &mut Search,
    scope: &Scope<'a>,
    start: Start,
    shown: Span,
    txn: &'a Txn,
    kept: &mut Vec<Entry<'a>>,
) -> Result<(), Memory>
    requires { Serves search.old scope.now.query.now }
    ensures kept { OnOk result
        (kept.new.items ≡ kept.old.items ++ chosen_in start (question_of scope.now) shown txn.now) }
    ensures serves { Serves search.new scope.now.query.now }
{
    for posting in txn.postings.as_slice() {
        keep(search, scope, start, shown, Entry { posting, txn }, kept)?;
    }
    Ok(())
}

/// Postings of a report's book, in order, each with its transaction: for historical sums all before the end of the span
/// that the query means, whatever bounds it has on days; for others those on the span's days that it means. Fails only for want of
/// memory.
pub fn chosen_entries<'a>(
    alloc: Global,
    scope: &Scope<'a>,
    start: Start,
    shown: Span,
) -> Result<Vec<Entry<'a>>, Memory>
    ensures { IfOk result (λ kept. kept.items
        ≡ filter (is_chosen start (question_of scope.now) shown)
        (entries (question_of scope.now))) }
{
    let mut search = scope.query.search(alloc)?;
    let mut kept = Vec::new(alloc);
    for txn in scope.book.txns.as_slice() {
        keep_all(&mut search, scope, start, shown, txn, &mut kept)?;
    }
    Ok(kept)
}

/// Whether the accounts of earlier postings stand too.
fn names_earlier(scope: &Scope) -> bool
    ensures { result ≡ names_earlier (question_of scope.now) }
{
    scope.options.empty && !is_historical(scope.options.start)
}

/// The days before a span.
fn before(span: Span) -> Span
    ensures { result ≡ before span }
{
    Span {
        from: 0,
        end: span.from,
    }
}

/// The postings that a report keeps for their accounts alone, in order.
#[tactic(auto, using(crate::proofs::Keeping::named_are, crate::proofs::Keeping::none_named))]
fn named_entries<'a>(
    alloc: Global,
    scope: &Scope<'a>,
    shown: Span,
) -> Result<Vec<Entry<'a>>, Memory>
    ensures { IfOk result (λ kept. kept.items
        ≡ filter (is_kept Named (question_of scope.now) shown) (entries (question_of scope.now))) }
{
    if names_earlier(scope) {
        chosen_entries(alloc, scope, Start::Historical, before(shown))
    } else {
        Ok(Vec::new(alloc))
    }
}

/// The postings that a report keeps for a part, in order.
pub(crate) fn kept_entries<'a>(
    alloc: Global,
    scope: &Scope<'a>,
    part: Part,
    shown: Span,
) -> Result<Vec<Entry<'a>>, Memory>
    ensures { IfOk result (λ kept. kept.items
        ≡ filter (is_kept part (question_of scope.now) shown) (entries (question_of scope.now))) }
{
    match part {
        Part::Counted => chosen_entries(alloc, scope, scope.options.start, shown),
        Part::Named => named_entries(alloc, scope, shown),
    }
}
