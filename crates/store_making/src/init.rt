//! A store of a text that loads.
ghost use Rattle.std.specs.Prelude.{◌≡◌, None, IfErr, OnOk};
ghost use Rattle.live_journal.specs.Loading.{fault_of};
ghost use Rattle.store_making.specs.Making.{JudgesAndMakes, MakesStore};
ghost use Rattle.store_making.specs.Refusals.{IsOfText};

use crate::making::make_files;
use crate::refusal::{JournalRefusal, of_store, of_text};
use hl_base::{Shelf, Steps, Text};
use live_journal::load_book;
use std::alloc::Global;
use std::sync::ledger::Ledger;
use store_text::second_name;

/// Judges the limits of a text, the bytes before the items, and then its faults. It has no year before it.
fn judge_text<L: Ledger>(
    alloc: Global,
    text: &[u8],
    steps: &mut Steps<L>,
) -> Result<(), JournalRefusal>
    ensures good { OnOk result (fault_of None text.now ≡ None) }
    ensures cause { IfErr result (λ e. IsOfText e (fault_of None text.now)) }
{
    match load_book(alloc, text, None, steps) {
        Ok(_) => Ok(()),
        Err(fault) => Err(of_text(fault)),
    }
}

/// Judges a text, and makes its store.
fn judge_and_make<S: Shelf, L: Ledger>(
    alloc: Global,
    name: &Text,
    text: &[u8],
    limit: u64,
    shelf: &mut S,
    steps: &mut Steps<L>,
) -> Result<(), JournalRefusal>
    ensures { JudgesAndMakes S.Shelf S.Disk.Disk name.now text.now limit shelf.old shelf.new
        result }
{
    if let Err(refusal) = judge_text(alloc, text, steps) {
        return Err(refusal);
    }
    let Ok(beside) = second_name(alloc, name) else {
        return Err(JournalRefusal::Memory);
    };
    match make_files(alloc, shelf, name, &beside, text, limit) {
        Ok(()) => Ok(()),
        Err(refusal) => Err(of_store(refusal)),
    }
}

/// Makes the store of a text under a name, at revision 0, with a limit of each file's length in bytes. The text, which has no
/// year before it, is judged and loaded first, and where it is refused the shelf isn't asked. Then both disks are taken, made
/// where they are absent, and come back. It is refused where the text has more than 16,777,216 bytes or 200,000 items; where it has
/// a fault; where a disk couldn't be taken; where the store would pass the limit; where a file isn't empty; where a call of a
/// disk failed; and where memory ran out. But for the last two the bytes of the files stay.
pub fn init_store<S: Shelf, L: Ledger>(
    alloc: Global,
    name: &Text,
    text: &[u8],
    limit: u64,
    shelf: &mut S,
    steps: &mut Steps<L>,
) -> Result<(), JournalRefusal>
    ensures { MakesStore S.Shelf S.Disk.Disk name.now text.now limit shelf.old shelf.new result }
{
    judge_and_make(alloc, name, text, limit, shelf, steps)
}
