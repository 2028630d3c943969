//! One request of a machine over two disks.
ghost use Rattle.std.specs.Prelude.{◌≡◌};
ghost use Rattle.hl_time.specs.Calendar.{IsDay};
ghost use Rattle.store_commands.specs.Asking.{AsksDisks, IsAsked, of_opening, told_by};
ghost use Rattle.store_commands.specs.Replacing.{ReplacesDisks, base_or};

use crate::edit::{Replacement, StoreEdit};
use desk::{Allow, Desk, DeskFault, Reply, Request};
use hl_base::{Disk, Steps};
use hl_time::Day;
use query::Maker;
use std::alloc::Global;
use std::sync::ledger::Ledger;
use store_making::{JournalRefusal, of_store, of_text};
use store_text::unopened;

/// Why two disks aren't opened as a machine, as the refusal of a journal.
pub fn of_opening(fault: DeskFault) -> JournalRefusal
    ensures { result ≡ of_opening fault }
{
    match fault {
        DeskFault::Store(fault) => of_store(unopened(fault)),
        DeskFault::Load(fault) => of_text(fault),
        DeskFault::Memory => JournalRefusal::Memory,
    }
}

/// Asks a machine once and closes it: its disks, and the reply.
fn ask_desk<D: Disk, M: Maker, L: Ledger>(
    alloc: Global,
    desk: Desk<D>,
    request: &Request,
    day: Day,
    maker: &mut M,
    steps: &mut Steps<L>,
) -> (D, D, Reply)
    requires { IsDay day.0 }
    ensures { IsAsked desk request.now day (told_by M.Maker maker.old maker.new)
        result.2 (result.0, result.1) }
{
    let mut desk = desk;
    let reply = desk.request(alloc, request, day, maker, steps);
    let (first, second) = desk.close();
    (first, second, reply)
}

/// Opens two disks as a machine, with permission to edit, asks it once, and closes it: the disks, and the reply, or why it
/// wasn't opened.
pub(crate) fn ask_disks<D: Disk, M: Maker, L: Ledger>(
    alloc: Global,
    first: D,
    second: D,
    edit: &StoreEdit,
    maker: &mut M,
    steps: &mut Steps<L>,
) -> (D, D, Result<Reply, JournalRefusal>)
    requires { IsDay edit.now.day.0 }
    ensures { AsksDisks D.Disk (first, second) (result.0, result.1) edit.now.request edit.now.day
        (told_by M.Maker maker.old maker.new) result.2 }
{
    match Desk::open(alloc, first, second, Allow::Edit, steps) {
        Ok(desk) => {
            let (first, second, reply) = ask_desk(
                alloc,
                desk,
                &edit.request,
                edit.day,
                maker,
                steps,
            );
            (first, second, Ok(reply))
        }
        Err((first, second, fault)) => (first, second, Err(of_opening(fault))),
    }
}

/// The base of a replacement: the revision that is there where none is given.
fn base_or(base: Option<u64>, revision: u64) -> u64
    ensures { result ≡ base_or base revision }
{
    match base {
        Some(base) => base,
        None => revision,
    }
}

/// Asks a machine to replace its text, and closes it: its disks, and the reply.
fn replace_in_desk<D: Disk, M: Maker, L: Ledger>(
    alloc: Global,
    desk: Desk<D>,
    what: Replacement,
    maker: &mut M,
    steps: &mut Steps<L>,
) -> (D, D, Reply)
    requires { IsDay what.day.0 }
    ensures { IsAsked desk (Request.Replace (base_or what.base desk.live.revision) what.text)
        what.day (told_by M.Maker maker.old maker.new) result.2 (result.0, result.1) }
{
    let Replacement { text, base, day } = what;
    let (revision, _, _) = desk.counts();
    let base = base_or(base, revision);
    let request = Request::Replace { base, text };
    ask_desk(alloc, desk, &request, day, maker, steps)
}

/// Opens two disks as a machine, with permission to edit, asks it to replace its text, and closes it: the disks, and the reply,
/// or why it wasn't opened.
pub(crate) fn replace_in_disks<D: Disk, M: Maker, L: Ledger>(
    alloc: Global,
    first: D,
    second: D,
    what: Replacement,
    maker: &mut M,
    steps: &mut Steps<L>,
) -> (D, D, Result<Reply, JournalRefusal>)
    requires { IsDay what.day.0 }
    ensures { ReplacesDisks D.Disk (first, second) (result.0, result.1) what.text what.base what.day
        (told_by M.Maker maker.old maker.new) result.2 }
{
    match Desk::open(alloc, first, second, Allow::Edit, steps) {
        Ok(desk) => {
            let (first, second, reply) = replace_in_desk(alloc, desk, what, maker, steps);
            (first, second, Ok(reply))
        }
        Err((first, second, fault)) => (first, second, Err(of_opening(fault))),
    }
}
