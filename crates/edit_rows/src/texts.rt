//! Random entries and journals.
use crate::dice::{Dice, filled, push, push_form};
use std::alloc::Global;
use std::test::Fail;

/// Entries whose amounts are written, missing or assigned; with assertions of each kind, costs, postings that are virtual or have
/// days of their own, and comments. The last ones have faults.
const ENTRIES: &[&[u8]] = &[
    b"%d spent\n    %a  %n%s\n    %a\n",
    b"%d spent\n    %a  %n%s\n    %a  %n%s\n    equity\n",
    b"%d * (7) moved  ; tag: value\n    %x  %y EUR\n    %x  0 EUR\n    ; more\n    equity\n",
    b"%d nothing\n    %a  0 EUR\n    %a  0 EUR\n",
    b"%d counted\n    %a  = %n EUR\n    %a\n",
    b"%d counted\n    %a  = %n%s\n    equity\n",
    b"%d counted twice\n    %a  = %n EUR\n    %a  = %n EUR\n    equity\n",
    b"%d counted below\n    %x  =* %y EUR\n    %x  0 EUR =* %y EUR\n    equity\n",
    b"%d settled\n    %x  = %y EUR\n    %x  0 EUR = %y EUR\n    equity\n",
    b"%d settled alone\n    %x  = %y EUR\n    %x  0 EUR == %y EUR\n    equity\n",
    b"%d even\n    even  0 EUR == 0 EUR\n    cash  0 EUR\n",
    b"%d asked\n    %a  0 EUR = %n EUR\n    equity\n",
    b"%d asked below\n    %a  0 EUR =* %n%s\n    equity\n",
    b"%d asked alone\n    bank  0 EUR ==* %n EUR\n    equity\n",
    b"%d assigned alone\n    %a  == %n EUR\n    equity\n",
    b"%d shares\n    stock  %n PEN @ 1.25 EUR\n    %a\n",
    b"%d shares\n    %a  2 PEN @@ 3 EUR\n    %a\n",
    b"%d swapped\n    %a  2 PEN\n    %a  -3 EUR\n",
    b"%d set aside\n    (%a)  %n%s\n    [%a]  %n EUR\n    [%a]\n",
    b"%d later\n    %a  %n EUR  ; date:2024-01-20\n    equity\n",
    b"%d both later\n    %a  %n EUR  ; date:%d\n    %a  ; date:%d\n",
    b"%d wrong\n    %a  %n%s\n    %a  %n%s\n",
    b"%d two missing\n    %a\n    %a\n",
    b"2024-02-31 no such day\n    %a  %n EUR\n    %a\n",
    b"%d no amount\n    %a  %n EUR EUR\n    %a\n",
];

/// What stands between entries: gaps, comments, directives, prices and rules.
pub(crate) const PIECES: &[&[u8]] = &[
    b"\n",
    b"\n; so far\n\n",
    b"comment\nof 2024\nend comment\n",
    b"commodity 1,000.00 EUR\n",
    b"commodity 1.000,000 USD\n",
    b"commodity PEN\n    format 1.0 PEN\n",
    b"D 1.00 EUR\n",
    b"D 1.000 PEN\n",
    b"P 2024-01-10 PEN 2.50 EUR\n",
    b"apply account own\n",
    b"end apply account\n",
    b"alias food=meals\n",
    b"end aliases\n",
    b"~ monthly\n    food  1.0000 GBP\n    cash\n",
    b"= food\n    (budget)  *-1\n",
    b"Y2024\n",
];

/// What stands before an entry that is put in, and what behind it.
const FRONTS: &[&[u8]] = &[b"", b"", b"", b"", b"; before\n", b"\n", b"\n; before\n\n"];

const BACKS: &[&[u8]] = &[b"", b"", b"", b"", b"\n", b"; behind\n", b"\n\n; behind\n"];

/// Ends of texts: the last ones are blocks that no line ends, and a line without its end.
const ENDS: &[&[u8]] = &[
    b"",
    b"",
    b"",
    b"\n",
    b"comment\n2024\n",
    b"comment\nof",
    b"; so far",
];

/// An entry of one of the forms.
fn push_entry(out: &mut Vec<u8>, dice: &mut Dice) -> Result<(), Fail> {
    let form = dice.one_of(ENTRIES)?;
    push_form(out, form, dice)
}

/// Takes the line's end away from the end of a text, now and then.
fn cut_end(out: &mut Vec<u8>, dice: &mut Dice) {
    let len = out.len();
    if len > 0 && dice.roll(5) == 0 {
        out.truncate(len - 1);
    }
}

/// An entry, and up to so many more behind it, now and then with gaps round them or without the last line's end.
pub(crate) fn entries(alloc: Global, most: u64, dice: &mut Dice) -> Result<Vec<u8>, Fail> {
    let mut out = filled(alloc, FRONTS, dice)?;
    push_entry(&mut out, dice)?;
    for _ in 0..dice.roll(8).saturating_sub(5).min(most) {
        push(&mut out, b"\n")?;
        push_entry(&mut out, dice)?;
    }
    push(&mut out, dice.one_of(BACKS)?)?;
    cut_end(&mut out, dice);
    Ok(out)
}

/// A journal of a few entries and pieces.
pub(crate) fn journal(alloc: Global, dice: &mut Dice) -> Result<Vec<u8>, Fail> {
    let mut out = Vec::new(alloc);
    for _ in 0..dice.roll(8) {
        if dice.roll(3) == 0 {
            push(&mut out, dice.one_of(PIECES)?)?;
        } else {
            push_entry(&mut out, dice)?;
        }
    }
    push(&mut out, dice.one_of(ENDS)?)?;
    Ok(out)
}
