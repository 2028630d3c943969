//! Random edits of a journal, one after another: each is refused where its text doesn't open, by the same fault, and after each
//! that is taken the journal is what its text opens as.
ghost use Rattle.std.specs.Prelude.{◌≡◌};

use crate::dice::{Dice, filled};
use crate::texts::{PIECES, entries, journal};
use crate::trying::{added, place_of, push_line_end, spliced, try_edit};
use hl_base::{Bytes, Steps};
use live_journal::{Edit, Live};
use std::alloc::Global;
use std::marker::Brand;
use std::sync::ledger::{Blank, Ledger};
use std::test::Fail;

/// How many edits a text is given.
const EDITS: u32 = 250;

/// How many of them are taken, at least.
const TAKEN: u64 = 30;

/// A chain of assignments, each of which gives to the next account what it takes.
const CHAIN: &[u8] =
    b"2024-01-05 start\n    bank  10.00 EUR\n    equity\n\n2024-01-15 count\n    bank  = 8 EUR\n    cash\n\n2024-01-25 count\n    cash  = 5.5 EUR\n    equity\n\n2024-02-05 even\n    even  0 EUR == 0 EUR\n    cash  0 EUR\n";

/// Directives that entries behind them are read by, and an account below another one that is asked for with it.
const DECLARED: &[u8] =
    b"D 1.000 EUR\ncommodity 1,000.0 PEN\n; begin\n2024-02-10 second\n    bank:till  2.5\n    equity\n\n2024-01-10 first\n    bank  1.50 EUR\n    equity\n\n2024-02-20 both\n    bank  0 =* 4 EUR\n    cash\ncommodity 1.00 USD\n2024-02-15 pens\n    stock  3 PEN @ 1.25 EUR\n    cash\n";

/// Postings with days of their own, and a block that no line ends.
const DATED: &[u8] =
    b"2024-01-02 early\n    food  3 EUR  ; date:2024-01-20\n    cash\n\n2024-01-10 asked\n    food  0 EUR = 0 EUR\n    cash  0 EUR = -3 EUR\n\n2024-01-21 asked\n    food  0 EUR = 3 EUR\n    equity\n\ncomment\nso far\n";

/// Tries entries behind the text.
fn add<L: Ledger>(
    alloc: Global,
    live: &mut Live,
    dice: &mut Dice,
    steps: &mut Steps<L>,
) -> Result<(), Fail> {
    let entry = entries(alloc, 2, dice)?;
    let after = added(alloc, live, &entry)?;
    let entry = Bytes::from_vec(entry);
    try_edit(alloc, live, &Edit::Add { entry }, &after, steps)
}

/// What is put in the place of an entry: mostly one with or without gaps round it, else several or none.
fn other(alloc: Global, dice: &mut Dice) -> Result<Vec<u8>, Fail> {
    let mut entry = match dice.roll(8) {
        0 => Vec::new(alloc),
        1 => entries(alloc, 2, dice)?,
        _ => entries(alloc, 0, dice)?,
    };
    push_line_end(&mut entry)?;
    Ok(entry)
}

/// Tries an entry in the place of another one, or to take it away.
fn change<L: Ledger>(
    alloc: Global,
    live: &mut Live,
    dice: &mut Dice,
    steps: &mut Steps<L>,
) -> Result<(), Fail> {
    let count = live.items().len() as u64;
    if count > 1000 {
        return Err(Fail::new("few items"));
    }
    let number = dice.roll(count + 1);
    let Some((at, removed)) = place_of(live, number as usize) else {
        return Ok(());
    };
    let entry = other(alloc, dice)?;
    let after = spliced(alloc, live.text(), at, removed, &entry)?;
    let edit = Edit::Change {
        base: live.revision(),
        item: number + 1,
        entry: Bytes::from_vec(entry),
    };
    try_edit(alloc, live, &edit, &after, steps)
}

/// A text to put in the place of the whole: mostly the same with something more before an item, else another one.
fn another(alloc: Global, live: &Live, dice: &mut Dice) -> Result<Vec<u8>, Fail> {
    let count = live.items().len() as u64;
    if count > 1000 {
        return Err(Fail::new("few items"));
    }
    let number = dice.roll(count + 1);
    if dice.roll(3) == 0 {
        return journal(alloc, dice);
    }
    let at = match live.items().as_slice().get(number as usize) {
        Some(placed) => placed.piece.at as usize,
        None => 0,
    };
    let more = filled(alloc, PIECES, dice)?;
    spliced(alloc, live.text(), at, 0, &more)
}

/// Tries another text.
fn replace<L: Ledger>(
    alloc: Global,
    live: &mut Live,
    dice: &mut Dice,
    steps: &mut Steps<L>,
) -> Result<(), Fail> {
    let after = another(alloc, live, dice)?;
    let edit = Edit::Replace {
        base: live.revision(),
        text: Bytes::copied(alloc, &after)?,
    };
    try_edit(alloc, live, &edit, &after, steps)
}

/// Tries a random edit: mostly additions while the journal is short, and changes once it is long.
fn one_edit<L: Ledger>(
    alloc: Global,
    live: &mut Live,
    dice: &mut Dice,
    steps: &mut Steps<L>,
) -> Result<(), Fail> {
    let is_long = live.items().len() > 40;
    match dice.roll(12) {
        0 => replace(alloc, live, dice, steps),
        1..=4 => change(alloc, live, dice, steps),
        _ => {
            if is_long {
                change(alloc, live, dice, steps)
            } else {
                add(alloc, live, dice, steps)
            }
        }
    }
}

/// Tries random edits of a journal of a text.
fn each_edit<L: Ledger>(alloc: Global, blank: Blank, text: &[u8], seed: u64) -> Result<(), Fail>
    requires name { blank.name ≡ L.name }
    requires parts { blank.parts ≡ L.parts }
    requires three { blank.parts ≡ 3 }
{
    let mut steps = Steps::<L>::start(blank);
    let steps = &mut steps;
    let mut dice = Dice::from(seed);
    let mut live = Live::open(alloc, text, None, 0, steps)?;
    for _ in 0..EDITS {
        one_edit(alloc, &mut live, &mut dice, steps)?;
    }
    if live.revision() < TAKEN {
        return Err(Fail::new("many edits that are taken"));
    }
    Ok(())
}

/// The same, with counters of its own.
fn edits_of(alloc: Global, text: &[u8], seed: u64) -> Result<(), Fail> {
    each_edit::<Brand>(alloc, Blank::new(3), text, seed)
}

#[test]
fn random_edits(rt: HostRuntime) -> Result<(), Fail> {
    edits_of(rt.alloc(), b"", 1)?;
    edits_of(rt.alloc(), CHAIN, 2024)?;
    edits_of(rt.alloc(), DECLARED, 17)?;
    edits_of(rt.alloc(), DATED, 5)
}
