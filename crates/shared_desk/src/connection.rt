//! One connection to a journal that others serve at the same time.
ghost use Rattle.std.specs.Prelude.{◌≡◌, ◌≤◌, List, length, IfSome};
ghost use Rattle.desk.specs.Entries.{Entry};
ghost use Rattle.shared_desk.specs.Full.{IsFull};
ghost use Rattle.turn_lock.specs.Growth.{Grown};
ghost use Rattle.turn_lock.specs.Passes.{IsFree};
ghost use Rattle.web_desk.specs.Counts.{Counted};
ghost use Rattle.web_desk.specs.Ends.{EndsWell};
ghost use Rattle.web_desk.specs.Makers.{AreAsked};
ghost use Rattle.web_desk.specs.Sent.{Sends};
ghost use Rattle.web_desk.specs.Served.{Served};
ghost use Rattle.web_messages.specs.Streams.{IsOfWhole, most_messages};

use crate::locked::Locked;
use crate::shared::Shared;
use hl_base::{Clock, Disk, Link, Steps};
use query::Maker;
use std::alloc::Global;
use std::sync::Wait;
use std::sync::ledger::Ledger;
use turn_lock::{Pass, Turn};
use web_desk::{ConnEnd, serve_link};
use web_messages::page::Page;

/// Answers the messages that come over a link, from a machine that is asked with one pass all along.
fn serve_locked<'a, D: Disk, W: Wait, K: Link, C: Clock, M: Maker, L: Ledger>(
    alloc: Global,
    page: &Page,
    ask: &mut Locked<'a, D, W>,
    link: &mut K,
    clock: &mut C,
    maker: &mut M,
    steps: &mut Steps<L>,
) -> ConnEnd
    ensures same { ask.new.pass.ghost_name ≡ ask.old.pass.ghost_name }
    ensures served { (entries : List Entry) × Grown ask.old.pass.now ask.new.pass.now entries
        × AreAsked (C.always clock.old) (M.refusals maker.old) (M.refusals maker.new)
        (M.last_refused maker.old) (M.last_refused maker.new) entries
        × IfSome (K.coming link.old)
        (λ bytes. Sends (K.sent link.old) (K.sent link.new) (λ text.
        Served page.now bytes result entries text))
        × length entries ≤ most_messages }
    ensures counted { Counted result
        (K.read_faults link.old) (K.read_faults link.new) (K.write_faults link.old)
        (K.write_faults link.new) }
    ensures always { C.always clock.new ≡ C.always clock.old }
    ensures sound { IfSome (K.coming link.old) (λ bytes. IsOfWhole bytes → EndsWell result) }
    ensures spent { result ≡ ConnEnd.Spent → IsFull ask.new.pass.now }
{
    serve_link(alloc, page, ask, link, clock, maker, steps)
}

/// Answers the messages that come over a link, one after another, from the machine under a lock, up to the end of the
/// connection; GET / with the page, where there is one. It ends as `serve_link` says, and `Spent` where the lock's history
/// has no room for another entry. Whole messages within the limits end well, unless the link failed or memory ran out.
pub fn serve_connection<D: Disk, W: Wait, K: Link, C: Clock, M: Maker, L: Ledger>(
    rt: &W,
    alloc: Global,
    page: &Page,
    turn: &Turn<Shared<D>>,
    pass: &mut Pass<Shared<D>>,
    link: &mut K,
    clock: &mut C,
    maker: &mut M,
    steps: &mut Steps<L>,
) -> ConnEnd
    requires { IsFree turn.now pass.old }
    // The pass grew by the entries of the messages that asked, in order, each on the clock's day; the maker's count rises
    // with those alone whose pattern was refused; and what was sent, where the link tells it, are the answers in order,
    // and then the reply that belongs to the end. The entries are no more than the messages of a connection may be,
    // whatever the link tells.
    ensures served { (entries : List Entry) × Grown pass.old pass.new entries
        × AreAsked (C.always clock.old) (M.refusals maker.old) (M.refusals maker.new)
        (M.last_refused maker.old) (M.last_refused maker.new) entries
        × IfSome (K.coming link.old)
        (λ bytes. Sends (K.sent link.old) (K.sent link.new) (λ text.
        Served page.now bytes result entries text))
        × length entries ≤ most_messages }
    ensures counted { Counted result
        (K.read_faults link.old) (K.read_faults link.new) (K.write_faults link.old)
        (K.write_faults link.new) }
    ensures always { C.always clock.new ≡ C.always clock.old }
    ensures sound { IfSome (K.coming link.old) (λ bytes. IsOfWhole bytes → EndsWell result) }
    ensures spent { result ≡ ConnEnd.Spent → IsFull pass.new }
{
    let mut ask = Locked::new(rt, turn, pass);
    serve_locked(alloc, page, &mut ask, link, clock, maker, steps)
}
