//! A machine that a connection asks under a lock, and that is closed after it.
ghost use Rattle.std.specs.Prelude.{◌≡◌, List, OnErr};
ghost use Rattle.desk.specs.Entries.{Entry};
ghost use Rattle.hl_time.specs.Calendar.{IsDay};
ghost use Rattle.store_commands.specs.Asking.{told_by};
ghost use Rattle.talk_commands.specs.Links.{wire};
ghost use Rattle.talk_commands.specs.Stores.{IsTalked, TalksDesk};
ghost use Rattle.turn_lock.specs.Passes.{first_pass};

use desk::Desk;
use hl_base::{Disk, Link, MemClock, Memory, Steps};
use hl_time::Day;
use query::Maker;
use shared_desk::{Shared, serve_connection};
use std::alloc::Global;
use std::sync::Wait;
use std::sync::ledger::Ledger;
use store_making::JournalRefusal;
use turn_lock::{Pass, Turn};
use web_desk::ConnEnd;
use web_messages::page::Page;

/// Answers the messages that come over a link, on a day, from the machine under a lock that was just made, with its first
/// pass, and closes the lock and the machine: its disks, and the connection's end.
fn talk_under<D: Disk, W: Wait, K: Link, M: Maker, L: Ledger>(
    rt: &W,
    alloc: Global,
    lock: (Turn<Shared<D>>, Pass<Shared<D>>),
    day: Day,
    link: &mut K,
    maker: &mut M,
    steps: &mut Steps<L>,
) -> (D, D, ConnEnd)
    requires first { lock.1 ≡ first_pass lock.0 }
    requires done { lock.0.done ≡ 0 }
    requires day { IsDay day.0 }
    ensures { (entries : List Entry)
        × IsTalked lock.0.opening.desk day.0 (told_by M.Maker maker.old maker.new)
        (wire K.Link link.old link.new)
        result.2 (result.0, result.1) entries }
{
    let (turn, mut pass) = lock;
    let mut clock = MemClock::new(day.0);
    let page = Page::Absent;
    let end = serve_connection(
        rt, alloc, &page, &turn, &mut pass, link, &mut clock, maker, steps,
    );
    let (Shared { desk }, _) = turn.close(pass);
    let (first, second) = desk.close();
    (first, second, end)
}

/// Answers the messages that come over a link, on a day, from a machine that is put under a lock, and closes it: its disks,
/// and the connection's end. Where there is no memory for the lock, nothing is read of the link or sent over it.
pub(crate) fn talk_desk<D: Disk, W: Wait, K: Link, M: Maker, L: Ledger>(
    rt: &W,
    alloc: Global,
    desk: Desk<D>,
    day: Day,
    link: &mut K,
    maker: &mut M,
    steps: &mut Steps<L>,
) -> (D, D, Result<ConnEnd, JournalRefusal>)
    requires { IsDay day.0 }
    ensures talks { TalksDesk desk day.0 (told_by M.Maker maker.old maker.new)
        (wire K.Link link.old link.new) result.2 (result.0, result.1) }
    ensures untouched { OnErr result.2 ((link.new ≡ link.old) × (maker.new ≡ maker.old)) }
{
    match Turn::new(alloc, Shared { desk }, 0) {
        Ok(lock) => {
            let (first, second, end) = talk_under(rt, alloc, lock, day, link, maker, steps);
            (first, second, Ok(end))
        }
        Err((shared, Memory)) => {
            let Shared { desk } = shared;
            let (first, second) = desk.close();
            (first, second, Err(JournalRefusal::Memory))
        }
    }
}
