//! Texts that grow by walks alone, each up to an edit that is handed on.
ghost use Rattle.std.specs.Prelude.{◌≡◌, ◌<◌, ◌≤◌, [], IfOk, OnOk, length, set};
ghost use Rattle.balancing.specs.Solves.{Solves};
ghost use Rattle.placed_sums.specs.Accounts.{HasSymbols};
ghost use Rattle.walked_edits.specs.Forms.{with_form, with_forms};
ghost use Rattle.walked_edits.specs.Keeping.{IsKept};
ghost use Rattle.walked_edits.specs.Scenes.{IsEdited, scene};

use crate::swapping::swap_at;
use crate::{Edited, Kept, Replaced, WalkFault, Walked, walk};
use book::{Amount, Assertion, Boxed, Mark, Posting, Side, Txn, Written, copied_txn};
use hl_base::{List, Memory, Steps, Text};
use hl_num::Dec;
use hl_time::Day;
use kept_turnover::Turnover;
use placed_sums::index_of;
use reached_walk::Spot;
use shared_days::SharedDays;
use std::alloc::Global;
use std::marker::Brand;
use std::sync::ledger::{Blank, Ledger};
use std::test::Fail;
use watchers::Watchers;

fn amount_of(alloc: Global, symbol: &str, mantissa: i128) -> Result<Amount, Memory> {
    let symbol = Text::copied(alloc, symbol)?;
    match Dec::new(mantissa, 0) {
        Some(value) => Ok(Amount {
            symbol,
            value,
            shape: Written {
                left: false,
                spaced: true,
                mark: None,
                group: None,
                first: 3,
                rest: 3,
            },
        }),
        None => Err(Memory),
    }
}

/// `ACCOUNT  VALUE EUR`
fn moving(alloc: Global, account: &str, value: i128) -> Result<Posting, Memory> {
    let account = Text::copied(alloc, account)?;
    let mut posting = Posting::plain(alloc, 2, Side::Real, account);
    posting.amount = Some(amount_of(alloc, "EUR", value)?);
    Ok(posting)
}

/// `ACCOUNT  = WANTED EUR`, or with `==`
fn assigning(alloc: Global, account: &str, wanted: i128, only: bool) -> Result<Posting, Memory> {
    let account = Text::copied(alloc, account)?;
    let wanted = Assertion {
        amount: amount_of(alloc, "EUR", wanted)?,
        only,
        below: false,
    };
    let mut posting = Posting::plain(alloc, 2, Side::Real, account);
    posting.wanted = Some(Boxed::new(alloc, wanted)?);
    Ok(posting)
}

/// `ACCOUNT  1 SYMBOL == WANTED EUR`
fn asserting(alloc: Global, account: &str, symbol: &str, wanted: i128) -> Result<Posting, Memory> {
    let mut posting = assigning(alloc, account, wanted, true)?;
    posting.amount = Some(amount_of(alloc, symbol, 1)?);
    Ok(posting)
}

/// A transaction of a posting and another account.
fn entry(alloc: Global, day: Day, posting: Posting, other: &str) -> Result<Txn, Memory>
    ensures { IfOk result (λ txn. txn.day ≡ day) }
{
    let mut postings = Vec::new(alloc);
    postings.push(posting)?;
    let account = Text::copied(alloc, other)?;
    postings.push(Posting::plain(alloc, 3, Side::Real, account))?;
    Ok(Txn {
        line: 1,
        day,
        mark: Mark::Unmarked,
        code: Text::new(alloc),
        description: Text::new(alloc),
        comment: Text::new(alloc),
        tags: List::new(alloc),
        postings: List::from_vec(postings),
    })
}

/// A written transaction at a place.
fn placed(alloc: Global, spot: Spot, posting: Posting, other: &str) -> Result<Replaced, Memory>
    ensures { IfOk result (λ r. r.txn.day ≡ r.spot.day) }
{
    let txn = entry(alloc, spot.day, posting, other)?;
    Ok(Replaced { spot, txn })
}

fn put_one(alloc: Global, book: &mut Vec<Txn>, form: &Replaced) -> Result<(), Memory>
    ensures { OnOk result (book.new.items ≡ with_form book.old.items form.now) }
{
    let txn = copied_txn(alloc, &form.txn)?;
    let number = form.spot.number as usize;
    if number < book.len() {
        put_at(book, number, txn);
        return Ok(());
    }
    book.push(txn)?;
    Ok(())
}

fn put_at(book: &mut Vec<Txn>, number: usize, txn: Txn)
    requires { number < length book.old.items }
    ensures { book.new.items ≡ set book.old.items number txn }
{
    let mut form = txn;
    swap_at(book, number, &mut form);
}

fn put_all(alloc: Global, book: &mut Vec<Txn>, forms: &[Replaced]) -> Result<(), Memory>
    ensures { OnOk result (book.new.items ≡ with_forms book.old.items forms.now) }
{
    for form in forms {
        put_one(alloc, book, form)?;
    }
    Ok(())
}

fn copied_text(alloc: Global, text: &[Txn]) -> Result<Vec<Txn>, Memory>
    ensures { IfOk result (λ copies. copies.items ≡ text.now) }
{
    let mut copies = Vec::new(alloc);
    for txn in text {
        copies.push(copied_txn(alloc, txn)?)?;
    }
    Ok(copies)
}

/// A text with a transaction at its place.
fn text_with(alloc: Global, text: &[Txn], form: &Replaced) -> Result<Vec<Txn>, Memory>
    ensures { IfOk result (λ written. written.items ≡ with_form text.now form.now) }
{
    let mut written = copied_text(alloc, text)?;
    put_one(alloc, &mut written, form)?;
    Ok(written)
}

/// A text, its book, what is kept of that, and how many forms the last walk told.
#[derive(Drop)]
struct Told {
    text: Vec<Txn>,
    book: Vec<Txn>,
    kept: Kept,
    forms: usize,
}

/// What is kept of no transactions.
fn none_kept(alloc: Global, book: &[Txn]) -> Result<Kept, Memory>
    requires { book.now ≡ [] }
    ensures { IfOk result (IsKept book.now) }
{
    let index = index_of(alloc, book)?;
    let days = SharedDays::of(alloc, book)?;
    Ok(Kept {
        index,
        days,
        turnover: Turnover::new(alloc),
    })
}

fn nothing_told(alloc: Global) -> Result<Told, Memory>
    ensures none { IfOk result (λ told. told.book.items ≡ []) }
    ensures solves { IfOk result (λ told. Solves told.text.items told.book.items) }
    ensures kept { IfOk result (λ told. IsKept told.book.items told.kept) }
{
    let text = Vec::new(alloc);
    let book = Vec::new(alloc);
    let kept = none_kept(alloc, book.as_slice())?;
    Ok(Told {
        text,
        book,
        kept,
        forms: 0,
    })
}

/// The symbols of all amounts.
fn symbols_of_all(alloc: Global) -> Result<Vec<Text>, Memory>
    ensures { IfOk result (λ symbols. HasSymbols symbols.items []) }
{
    let euro = Text::copied(alloc, "EUR")?;
    let dollar = Text::copied(alloc, "USD")?;
    let mut symbols = Vec::new(alloc);
    symbols.push(euro)?;
    symbols.push(dollar)?;
    Ok(symbols)
}

/// A walk in the book of a text to that of the text with a transaction at its place.
fn walk_to<L: Ledger>(
    alloc: Global,
    told: &mut Told,
    written: &Vec<Txn>,
    form: &Replaced,
    symbols: &[Text],
    steps: &mut Steps<L>,
) -> Result<Walked, WalkFault>
    requires day { form.now.txn.day ≡ form.now.spot.day }
    requires place { form.now.spot.number ≤ length told.old.text.items }
    requires written { written.now.items ≡ with_form told.old.text.items form.now }
    requires told { (Solves told.old.text.items told.old.book.items
        × IsKept told.old.book.items told.old.kept)
        × HasSymbols symbols.now told.old.book.items }
    ensures walked { IfOk result (λ w. (Solves written.now.items
        (with_forms told.old.book.items w.forms.items)
        × IsKept (with_forms told.old.book.items w.forms.items) w.kept)
        × HasSymbols symbols.now (with_forms told.old.book.items w.forms.items)) }
    ensures stays { told.new.book.items ≡ told.old.book.items }
{
    let watchers = Watchers::of(alloc, written.as_slice())?;
    let spots = std::slice::from_ref(&form.spot);
    let edit = Edited::new(alloc, spots, &told.text, written, &watchers, symbols);
    walk(&mut told.book, &told.kept, &edit, steps)
}

/// Puts a transaction into a text at its place, and the forms that this reaches into the book.
fn put_in<L: Ledger>(
    alloc: Global,
    told: &mut Told,
    form: &Replaced,
    symbols: &[Text],
    steps: &mut Steps<L>,
) -> Result<(), WalkFault>
    requires day { form.now.txn.day ≡ form.now.spot.day }
    requires told { (Solves told.old.text.items told.old.book.items
        × IsKept told.old.book.items told.old.kept)
        × HasSymbols symbols.now told.old.book.items }
    ensures { OnOk result ((Solves told.new.text.items told.new.book.items
        × IsKept told.new.book.items told.new.kept)
        × HasSymbols symbols.now told.new.book.items) }
{
    if told.text.len() < form.spot.number as usize {
        return Err(WalkFault::Load);
    }
    let written = text_with(alloc, told.text.as_slice(), form)?;
    let all = walk_to(alloc, told, &written, form, symbols, steps)?;
    put_all(alloc, &mut told.book, all.forms.as_slice())?;
    told.forms = all.forms.len();
    told.text = written;
    told.kept = all.kept;
    Ok(())
}

/// What a line says of its account: an amount in euros, a balance that is assigned to it, or 1 euro or 1 dollar more and
/// the balance in euros that it then has, with nothing else beside it.
#[derive(Clone, Copy)]
enum Kind {
    Moved,
    Assigned,
    Asserted,
    Mixed,
}

/// A written line: an account, what is said of it, and the other account.
#[derive(Clone, Copy)]
struct Line<'a> {
    day: u32,
    number: u64,
    account: &'a str,
    kind: Kind,
    value: i128,
    other: &'a str,
}

fn posting_of(alloc: Global, line: &Line) -> Result<Posting, Memory> {
    match line.kind {
        Kind::Moved => moving(alloc, line.account, line.value),
        Kind::Assigned => assigning(alloc, line.account, line.value, false),
        Kind::Asserted => asserting(alloc, line.account, "EUR", line.value),
        Kind::Mixed => asserting(alloc, line.account, "USD", line.value),
    }
}

fn form_of(alloc: Global, line: &Line) -> Result<Replaced, Memory>
    ensures { IfOk result (λ r. r.txn.day ≡ r.spot.day) }
{
    let posting = posting_of(alloc, line)?;
    let spot = Spot {
        day: Day(line.day),
        number: line.number,
    };
    placed(alloc, spot, posting, line.other)
}

/// Puts in a line.
fn put_line<L: Ledger>(
    alloc: Global,
    told: &mut Told,
    line: &Line,
    symbols: &[Text],
    steps: &mut Steps<L>,
) -> Result<(), WalkFault>
    requires { (Solves told.old.text.items told.old.book.items
        × IsKept told.old.book.items told.old.kept)
        × HasSymbols symbols.now told.old.book.items }
    ensures { OnOk result ((Solves told.new.text.items told.new.book.items
        × IsKept told.new.book.items told.new.kept)
        × HasSymbols symbols.now told.new.book.items) }
{
    let form = form_of(alloc, line)?;
    put_in(alloc, told, &form, symbols, steps)
}

/// Puts in some lines, one walk after another.
fn put_lines<L: Ledger>(
    alloc: Global,
    told: &mut Told,
    lines: &[Line],
    symbols: &[Text],
    steps: &mut Steps<L>,
) -> Result<(), WalkFault>
    requires { (Solves told.old.text.items told.old.book.items
        × IsKept told.old.book.items told.old.kept)
        × HasSymbols symbols.now told.old.book.items }
{
    for line in lines {
        put_line(alloc, told, line, symbols, steps)?;
    }
    Ok(())
}

/// What some lines come to, one put in after another.
fn last_told<L: Ledger>(blank: Blank, alloc: Global, lines: &[Line]) -> Result<Told, WalkFault>
    requires name { blank.name ≡ L.name }
    requires parts { blank.parts ≡ L.parts }
    requires three { blank.parts ≡ 3 }
{
    let mut steps = Steps::<L>::start(blank);
    let symbols = symbols_of_all(alloc)?;
    let mut told = nothing_told(alloc)?;
    put_lines(alloc, &mut told, lines, symbols.as_slice(), &mut steps)?;
    Ok(told)
}

/// The amount of the first posting of a transaction of a book, in whole units.
fn first_amount(book: &[Txn], number: usize) -> u128 {
    match book.get(number) {
        Some(txn) => amount_first(txn.postings.as_slice()),
        None => 0,
    }
}

fn amount_first(postings: &[Posting]) -> u128 {
    match postings.first() {
        Some(posting) => mantissa_of(&posting.amount),
        None => 0,
    }
}

fn mantissa_of(amount: &Option<Amount>) -> u128 {
    match amount {
        Some(amount) => amount.value.magnitude(),
        None => 0,
    }
}

fn written_line<'a>(
    place: (u32, u64),
    account: &'a str,
    kind: Kind,
    value: i128,
    other: &'a str,
) -> Line<'a> {
    let (day, number) = place;
    Line {
        day,
        number,
        account,
        kind,
        value,
        other,
    }
}

/// How many forms the last of some lines came to.
fn last_forms<L: Ledger>(blank: Blank, alloc: Global, lines: &[Line]) -> Result<usize, WalkFault>
    requires name { blank.name ≡ L.name }
    requires parts { blank.parts ≡ L.parts }
    requires three { blank.parts ≡ 3 }
{
    let told = last_told::<L>(blank, alloc, lines)?;
    Ok(told.forms)
}

fn is_load(outcome: Result<usize, WalkFault>) -> bool {
    match outcome {
        Ok(_) => false,
        Err(WalkFault::Load) => true,
        Err(WalkFault::Memory) => false,
    }
}

#[test]
fn an_edit_is_handed_on_twice(rt: HostRuntime) -> Result<(), Fail> {
    let alloc = rt.alloc();
    // The last one comes in the place of the first one.
    let lines = [
        written_line((10, 0), "a", Kind::Moved, 5, "income"),
        written_line((11, 1), "a", Kind::Assigned, 20, "b"),
        written_line((12, 2), "b", Kind::Assigned, 0, "c"),
        written_line((13, 3), "x", Kind::Moved, 1, "y"),
        written_line((10, 0), "a", Kind::Moved, 8, "income"),
    ];
    let told = last_told::<Brand>(Blank::new(3), alloc, &lines)?;
    assert_eq!(rt; told.forms, 3);
    assert_eq!(rt; first_amount(told.book.as_slice(), 0), 8);
    assert_eq!(rt; first_amount(told.book.as_slice(), 1), 12);
    assert_eq!(rt; first_amount(told.book.as_slice(), 2), 12);
    assert_eq!(rt; first_amount(told.book.as_slice(), 3), 1);
    Ok(())
}

#[test]
fn an_edit_moves_its_day(rt: HostRuntime) -> Result<(), Fail> {
    let alloc = rt.alloc();
    // The first one comes behind the assignment, which then gets all that is wanted.
    let lines = [
        written_line((10, 0), "a", Kind::Moved, 5, "income"),
        written_line((11, 1), "a", Kind::Assigned, 20, "b"),
        written_line((12, 0), "a", Kind::Moved, 5, "income"),
    ];
    let told = last_told::<Brand>(Blank::new(3), alloc, &lines)?;
    assert_eq!(rt; told.forms, 2);
    assert_eq!(rt; first_amount(told.book.as_slice(), 0), 5);
    assert_eq!(rt; first_amount(told.book.as_slice(), 1), 20);
    Ok(())
}

#[test]
fn two_later_assertions_are_checked(rt: HostRuntime) -> Result<(), Fail> {
    let alloc = rt.alloc();
    let lines = [
        written_line((10, 0), "a", Kind::Moved, 5, "income"),
        written_line((11, 1), "a", Kind::Asserted, 6, "income"),
        written_line((12, 2), "a", Kind::Asserted, 7, "income"),
        written_line((10, 0), "a", Kind::Moved, 5, "gifts"),
    ];
    assert_eq!(rt; last_forms::<Brand>(Blank::new(3), alloc, &lines)?, 3);
    Ok(())
}

#[test]
fn a_later_assertion_that_fails_is_loaded(rt: HostRuntime) -> Result<(), Fail> {
    let alloc = rt.alloc();
    let lines = [
        written_line((10, 0), "a", Kind::Moved, 5, "income"),
        written_line((11, 1), "a", Kind::Asserted, 6, "income"),
        written_line((10, 0), "a", Kind::Moved, 4, "income"),
    ];
    assert!(rt; is_load(last_forms::<Brand>(Blank::new(3), alloc, &lines)));
    Ok(())
}

#[test]
fn a_mixed_transaction_is_loaded(rt: HostRuntime) -> Result<(), Fail> {
    let alloc = rt.alloc();
    let lines = [
        written_line((10, 0), "a", Kind::Moved, 5, "income"),
        written_line((11, 1), "a", Kind::Mixed, 5, "income"),
    ];
    assert!(rt; is_load(last_forms::<Brand>(Blank::new(3), alloc, &lines)));
    Ok(())
}
