//! One connection to a store among the files of a shelf.
ghost use Rattle.std.specs.Prelude.{◌≡◌, OnErr};
ghost use Rattle.hl_time.specs.Calendar.{IsDay};
ghost use Rattle.store_commands.specs.Asking.{told_by};
ghost use Rattle.talk_commands.specs.Links.{wire};
ghost use Rattle.talk_commands.specs.Stores.{TalksDisks, TalksStore};

use crate::machine::talk_desk;
use crate::terms::Terms;
use desk::Desk;
use hl_base::{Disk, Link, Shelf, Steps, Text};
use query::Maker;
use std::alloc::Global;
use std::sync::Wait;
use std::sync::ledger::Ledger;
use store_commands::of_opening;
use store_making::{JournalRefusal, of_store};
use store_text::{give_back_disks, second_name, take_disks};
use web_desk::ConnEnd;

/// A connection to the store of a name.
#[derive(Drop)]
pub struct StoreTalk {
    pub store: Text,
    pub terms: Terms,
}

/// Opens two disks as a machine, answers a link from it, and closes it: the disks, and the connection's end, or why it wasn't
/// opened.
fn talk_disks<D: Disk, W: Wait, K: Link, M: Maker, L: Ledger>(
    rt: &W,
    alloc: Global,
    disks: (D, D),
    terms: Terms,
    link: &mut K,
    maker: &mut M,
    steps: &mut Steps<L>,
) -> (D, D, Result<ConnEnd, JournalRefusal>)
    requires { IsDay terms.day.0 }
    ensures talks { TalksDisks D.Disk terms.allow disks (result.0, result.1) terms.day.0
        (told_by M.Maker maker.old maker.new) (wire K.Link link.old link.new) result.2 }
    ensures untouched { OnErr result.2 ((link.new ≡ link.old) × (maker.new ≡ maker.old)) }
{
    let (first, second) = disks;
    match Desk::open(alloc, first, second, terms.allow, steps) {
        Ok(desk) => talk_desk(rt, alloc, desk, terms.day, link, maker, steps),
        Err((first, second, fault)) => (first, second, Err(of_opening(fault))),
    }
}

/// Answers the messages that come over a link, up to the end of the connection, from the store of a name: each request is one
/// step of the machine from the store's image. Both disks are taken from the shelf before, and come back after it; the second file is
/// made where it is absent. It is refused where the first file is absent, where the files are no store or one of a later edition,
/// where its text makes no journal, where a disk couldn't be taken, where a call of a disk failed, and where memory ran out. Then
/// nothing is read of the link or sent over it.
pub fn talk_store<S: Shelf, W: Wait, K: Link, M: Maker, L: Ledger>(
    rt: &W,
    alloc: Global,
    talk: &StoreTalk,
    shelf: &mut S,
    link: &mut K,
    maker: &mut M,
    steps: &mut Steps<L>,
) -> Result<ConnEnd, JournalRefusal>
    requires { IsDay talk.now.terms.day.0 }
    ensures talks { TalksStore S.Shelf S.Disk.Disk talk.now.store talk.now.terms.allow
        talk.now.terms.day.0
        (told_by M.Maker maker.old maker.new) (wire K.Link link.old link.new) shelf.old shelf.new
        result }
    ensures untouched { OnErr result ((link.new ≡ link.old) × (maker.new ≡ maker.old)) }
{
    let Ok(beside) = second_name(alloc, &talk.store) else {
        return Err(JournalRefusal::Memory);
    };
    match take_disks(alloc, shelf, &talk.store, &beside, false) {
        Ok(disks) => {
            let (first, second, end) = talk_disks(rt, alloc, disks, talk.terms, link, maker, steps);
            give_back_disks(shelf, &talk.store, &beside, first, second);
            end
        }
        Err(refusal) => Err(of_store(refusal)),
    }
}
