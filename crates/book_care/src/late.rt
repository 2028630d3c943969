//! The first posting after a day.
ghost use Rattle.std.specs.Prelude.{◌≡◌, ◌+◌, ◌<◌, ◌≤◌, None, OnOk, IfErr, length, drop};
ghost use Rattle.std.specs.List.{list_any};
ghost use Rattle.std.specs.Option.{option_map};
ghost use Rattle.book.specs.SumsBefore.{is_assigned, number_in, placed_in, placed_from};
ghost use Rattle.book_care.specs.Judged.{IsFault, late_fault};
ghost use Rattle.book_care.specs.Late as spec;

use crate::faults::CloseFault;
use book::{Posting, Txn};
use hl_time::Day;
use std::marker::Model;

/// A posting at its place: its day, the number of its transaction, and its own number there. Contracts see both.
#[derive(Drop)]
struct At<'a> {
    day: u32,
    txn: usize,
    number: usize,
    posting: &'a Posting,
}

impl<'a> Model for At<'a> {
    ghost use Rattle.book.specs.SumsBefore.{Place};
    ghost use Rattle.book.specs.declared.transaction.Posting.{Posting};

    ghost Value = { Place × Posting };

    ghost view = { λ a. (record { day = a.day; txn = a.txn; posting = a.number }, a.posting.now) };
}

impl<'a> At<'a> {
    ghost use Rattle.std.specs.Prelude.{◌≡◌};
    ghost use Rattle.book.specs.SumsBefore.{is_before};
    ghost use Rattle.book_care.specs.Judged.{late_fault};
    ghost use Rattle.book_care.specs.Late as spec;

    /// Whether it comes before another one.
    fn is_before(&self, other: &At) -> bool
        ensures { result ≡ is_before self.now.0 other.now.0 }
    {
        self.day < other.day
            || (self.day == other.day
                && (self.txn < other.txn || (self.txn == other.txn && self.number < other.number)))
    }

    /// It, or another one that comes before it.
    fn or_sooner(self, other: Option<At<'a>>) -> At<'a>
        ensures { result ≡ spec.sooner self.entry other.entry }
    {
        match other {
            Some(other) => { if other.is_before(&self) { other } else { self } }
            None => self,
        }
    }

    fn fault(&self) -> CloseFault
        ensures { result ≡ late_fault self.now }
    {
        CloseFault::Later {
            line: self.posting.line,
            day: Day(self.day),
        }
    }
}

/// Whether balancing found a posting's amount by its assertion.
fn is_assigned(posting: &Posting) -> bool
    ensures { result ≡ is_assigned posting.now }
{
    posting.filled && posting.wanted.is_some()
}

fn has_assigned(postings: &[Posting]) -> bool
    ensures { result ≡ list_any is_assigned postings.now }
{
    postings.iter().any(|posting| is_assigned(posting))
}

/// The number of a posting: in a transaction with assigned amounts, one whose amount was missing comes after all others.
fn number_in(txn: &Txn, is_mixed: bool, n: usize, posting: &Posting) -> usize
    requires mixed { is_mixed ≡ list_any is_assigned txn.now.postings }
    requires within { n < length txn.now.postings }
    ensures { result ≡ number_in txn.now n posting.now }
{
    if is_mixed && posting.filled && posting.wanted.is_none() {
        txn.postings.as_slice().len() + n
    } else {
        n
    }
}

/// A posting at its place.
fn at_place<'a>(
    number: usize,
    txn: &'a Txn,
    is_mixed: bool,
    n: usize,
    posting: &'a Posting,
) -> At<'a>
    requires mixed { is_mixed ≡ list_any is_assigned txn.now.postings }
    requires within { n < length txn.now.postings }
    ensures { result ≡ spec.at_place number txn.now n posting.now }
{
    At {
        day: posting.day_in(txn).0,
        txn: number,
        number: number_in(txn, is_mixed, n, posting),
        posting,
    }
}

/// A posting where it is after a day, and another, if there is one: the first by place.
fn with_late<'a>(on: Day, at: At<'a>, least: Option<At<'a>>) -> Option<At<'a>>
    ensures { result ≡ spec.with_late on.0 at.entry least.entry }
{
    if on.0 < at.day {
        Some(at.or_sooner(least))
    } else {
        least
    }
}

/// The first posting of a transaction by place that is after a day, or another, if that comes before it.
#[tactic(auto, using(crate::proofs::Latest::posting_more, crate::proofs::Latest::posting_start))]
fn late_in<'a>(on: Day, number: usize, txn: &'a Txn, other: Option<At<'a>>) -> Option<At<'a>>
    ensures { result ≡ spec.gathered on.0 (placed_in txn.now number 0 txn.now.postings)
        other.entry }
{
    let postings = txn.postings.as_slice();
    let is_mixed = has_assigned(postings);
    let mut least = other;
    let mut n = postings.len();
    while 0 < n {
        n -= 1;
        let at = at_place(number, txn, is_mixed, n, &postings[n]);
        least = with_late(on, at, least);
    }
    least
}

/// The first posting by place that is after a day.
#[tactic(auto, using(crate::proofs::Latest::txn_more, crate::proofs::Latest::txn_start, crate::proofs::Latest::late_is))]
fn first_late(txns: &[Txn], on: Day) -> Option<At<'_>>
    ensures { result ≡ spec.first_late on.0 txns.now }
{
    let mut least = None;
    let mut number = txns.len();
    while 0 < number {
        number -= 1;
        least = late_in(on, number, &txns[number], least);
    }
    least
}

/// Whether no posting is after a day; else the first by place.
pub(crate) fn none_late(txns: &[Txn], on: Day) -> Result<(), CloseFault>
    ensures holds { OnOk result (option_map late_fault (spec.first_late on.0 txns.now) ≡ None) }
    ensures fault { IfErr result (IsFault (option_map late_fault (spec.first_late on.0 txns.now))) }
{
    match first_late(txns, on) {
        Some(at) => Err(at.fault()),
        None => Ok(()),
    }
}
