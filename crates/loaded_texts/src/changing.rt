//! What an entry makes in the place of another one.
ghost use Rattle.std.specs.Prelude.{◌≡◌, ◌<◌, ◌≤◌, suc, IfOk, length, set};
ghost use Rattle.book.specs.Postings.{txns_of};
ghost use Rattle.balancing.specs.Solves.{Solves};
ghost use Rattle.changed_texts.specs.OneEntry.{IsMet};
ghost use Rattle.changed_texts.specs.Replacing.{number_at};
ghost use Rattle.kept_books.specs.Keeping.{IsOf};
ghost use Rattle.kept_texts.specs.Keeping.{Has};
ghost use Rattle.walked_texts.specs.Making.{Answers, AreParts, IsTxn, IsTxnAt, edit_at};
ghost use Rattle.loaded_texts.specs.Changing as spec;
ghost use Rattle.loaded_texts.specs.Keeping.{IsLoaded};

use crate::loaded::{Loaded, given_back, taken};
use book::{Boxed, count_txns};
use changed_texts::Met;
use hl_base::{Memory, Steps};
use std::alloc::Global;
use std::sync::ledger::Ledger;
use walked_edits::WalkFault;
use walked_texts::{ItemAt, Parts, parts_at};

/// Bytes in the place of an entry of a text: the year that the text begins in, if it has one, the text, the entry's number
/// among its items, counted from 0, the bytes, and the text that they make.
#[derive(Clone, Copy, Debug)]
pub struct Inside<'a> {
    pub year: Option<u16>,
    pub text: &'a [u8],
    pub number: usize,
    pub bytes: &'a [u8],
    pub new: &'a [u8],
}

/// What an entry makes in the place of another one: where it stands, with the gaps around it, the number of the first transaction
/// behind it, and what is made of the book, in which that one and all behind it still have their old lines.
#[derive(Drop)]
pub struct Changed {
    pub number: usize,
    pub met: Met,
    pub first: usize,
    pub parts: Parts,
}

/// What a walk makes of an entry in the place of another one, of the book alone.
fn changed_parts<L: Ledger>(
    alloc: Global,
    loaded: &mut Loaded,
    number: usize,
    met: &Met,
    steps: &mut Steps<L>,
) -> Result<Parts, WalkFault>
    requires text { Has loaded.old.items loaded.old.book.txns loaded.old.text }
    requires kept { IsOf (txns_of loaded.old.items) loaded.old.book.txns loaded.old.kept }
    requires solves { Solves (txns_of loaded.old.items) loaded.old.book.txns }
    requires there { IsTxnAt loaded.old.items number }
    requires txn { IsTxn met.now.placed.item }
    ensures answers { Answers (edit_at loaded.old.items number met.now.placed)
        (AreParts (set loaded.old.items number met.now.placed) loaded.old.book.txns) result steps.old
        steps.new }
    ensures stays { loaded.new ≡ loaded.old }
{
    let mut open = taken(alloc, loaded);
    let at = ItemAt {
        number,
        placed: &met.placed,
    };
    let parts = parts_at(alloc, &loaded.kept, &loaded.text, &at, &mut open, steps);
    given_back(loaded, open);
    parts
}

/// The parts, with the gaps around the entry.
fn with_gaps(
    alloc: Global,
    loaded: &Loaded,
    number: usize,
    met: &Met,
    parts: Parts,
) -> Result<Parts, Memory>
    requires number { number < length loaded.now.items }
    requires met { IsMet number loaded.now.items met.now }
    requires parts { AreParts (set loaded.now.items number met.now.placed) loaded.now.book.txns
        parts }
    ensures { IfOk result (spec.AreMetParts loaded.now.items loaded.now.book.txns number met.now) }
{
    let Parts {
        forms,
        vacants,
        mut edited,
        end,
        kept,
    } = parts;
    edited.meet(alloc, loaded.items.as_slice(), number, met)?;
    Ok(Parts {
        forms,
        vacants,
        edited,
        end,
        kept,
    })
}

/// All of it, with the number of the first transaction behind the entry.
fn changed_of(
    alloc: Global,
    loaded: &Loaded,
    number: usize,
    met: Met,
    parts: Parts,
) -> Result<Boxed<Changed>, Memory>
    requires { number < length loaded.now.items }
    ensures number { IfOk result (λ c. c.number ≡ number) }
    ensures met { IfOk result (λ c. c.met ≡ met) }
    ensures first { IfOk result (λ c. c.first ≡ suc (number_at loaded.now.items number)) }
    ensures parts { IfOk result (λ c. c.parts ≡ parts) }
{
    let (front, _) = loaded.items.as_slice().split_at(number);
    let first = count_txns(front) + 1;
    let changed = Changed {
        number,
        met,
        first,
        parts,
    };
    let boxed = Boxed::new(alloc, changed)?;
    Ok(boxed)
}

/// All of it, of the parts that a walk makes.
fn changed_with(
    alloc: Global,
    loaded: &Loaded,
    number: usize,
    met: Met,
    walked: Parts,
) -> Result<Boxed<Changed>, Memory>
    requires number { number < length loaded.now.items }
    requires met { IsMet number loaded.now.items met }
    requires parts { AreParts (set loaded.now.items number met.placed) loaded.now.book.txns
        walked }
    ensures number { IfOk result (λ c. c.number ≡ number) }
    ensures met { IfOk result (λ c. c.met ≡ met) }
    ensures first { IfOk result (λ c. c.first ≡ suc (number_at loaded.now.items number)) }
    ensures parts { IfOk result (λ c.
        spec.AreMetParts loaded.now.items loaded.now.book.txns number met c.parts) }
{
    let parts = with_gaps(alloc, loaded, number, &met, walked)?;
    changed_of(alloc, loaded, number, met, parts)
}

/// What an entry makes in the place of another one, by a walk of the transactions that it reaches. What is loaded is as it was
/// afterwards. `Load` says that the whole text has to be loaded, and that load answers.
pub fn walked_change<L: Ledger>(
    alloc: Global,
    loaded: &mut Loaded,
    inside: &Inside,
    met: Met,
    steps: &mut Steps<L>,
) -> Result<Boxed<Changed>, WalkFault>
    requires loaded { IsLoaded inside.now.year inside.now.text.now loaded.old }
    requires met { spec.IsMetIn inside.now.year inside.now.text.now inside.now.bytes.now
        inside.now.new.now inside.now.number loaded.old.items met }
    ensures answers { Answers (spec.edit_met loaded.old.items inside.now.number met)
        (spec.ChangesTo inside.now.year inside.now.text.now inside.now.bytes.now inside.now.new.now)
        result steps.old steps.new }
    ensures stays { loaded.new ≡ loaded.old }
{
    let walked = changed_parts(alloc, loaded, inside.number, &met, steps)?;
    let changed = changed_with(alloc, loaded, inside.number, met, walked)?;
    Ok(changed)
}
