//! One worker at its door.
ghost use Rattle.std.specs.Prelude.{◌≡◌, ◌↔◌, IsTrue};
ghost use Rattle.shared_desk.specs.Stays.{ServesDoor, ServesGiven, StaysSound, end_after, kit_told};
ghost use Rattle.turn_lock.specs.Passes.{IsFree};

use crate::connection::serve_connection;
use crate::kit::Kit;
use crate::shared::Shared;
use hl_base::{Clock, Disk, Door, Knock, Steps};
use query::Maker;
use std::alloc::Global;
use std::sync::Wait;
use std::sync::ledger::Ledger;
use turn_lock::{Pass, Turn};
use web_desk::ConnEnd;
use web_messages::page::Page;

/// How a worker's serving of a door ended.
#[derive(Clone, Copy, Debug, PartialEq, Eq)]
pub enum DoorEnd {
    /// No link comes any more.
    End,
    /// A call of the door failed.
    Failed,
    /// So many links were served as were allowed.
    Enough,
    /// The last connection ended because the lock's history has no room for another entry.
    Spent,
}

/// How the serving of a door goes on after a connection that ended so: on, unless the lock is spent.
fn after_end(end: ConnEnd) -> DoorEnd
    ensures { result ≡ end_after end }
{
    match end {
        ConnEnd::Spent => DoorEnd::Spent,
        _ => DoorEnd::Enough,
    }
}

/// Whether a serving may go on.
fn goes_on(end: DoorEnd) -> bool
    ensures { IsTrue result ↔ (end ≡ DoorEnd.Enough) }
{
    match end {
        DoorEnd::Enough => true,
        DoorEnd::End | DoorEnd::Failed | DoorEnd::Spent => false,
    }
}

/// Serves a link that the door gave, and gives it back.
fn serve_given<D: Disk, W: Wait, R: Door, C: Clock, M: Maker, L: Ledger>(
    rt: &W,
    alloc: Global,
    page: &Page,
    turn: &Turn<Shared<D>>,
    pass: &mut Pass<Shared<D>>,
    kit: &mut Kit<R, C, M>,
    link: R::Link,
    steps: &mut Steps<L>,
) -> DoorEnd
    requires free { IsFree turn.now pass.old }
    requires fresh { (R.Link.read_faults link ≡ 0) × (R.Link.write_faults link ≡ 0) }
    ensures served { ServesGiven R.Link.coming R.Link.sent page.now result link
        (kit_told R.Door C.Clock M.Maker kit.old)
        (kit_told R.Door C.Clock M.Maker kit.new) pass.old pass.new }
    ensures sound { StaysSound (R.IsSound kit.old.door) (R.IsSound kit.new.door) result }
{
    let mut link = link;
    let end = serve_connection(
        rt,
        alloc,
        page,
        turn,
        pass,
        &mut link,
        &mut kit.clock,
        &mut kit.maker,
        steps,
    );
    kit.door.give_back(link);
    after_end(end)
}

/// Serves the next link that comes to the door, if one comes, and says whether the serving goes on.
fn serve_next<D: Disk, W: Wait, R: Door, C: Clock, M: Maker, L: Ledger>(
    rt: &W,
    alloc: Global,
    page: &Page,
    turn: &Turn<Shared<D>>,
    pass: &mut Pass<Shared<D>>,
    kit: &mut Kit<R, C, M>,
    steps: &mut Steps<L>,
) -> DoorEnd
    requires { IsFree turn.now pass.old }
    ensures served { ServesDoor R.Link.coming R.Link.sent page.now 1 result
        (kit_told R.Door C.Clock M.Maker kit.old)
        (kit_told R.Door C.Clock M.Maker kit.new) pass.old pass.new }
    ensures sound { StaysSound (R.IsSound kit.old.door) (R.IsSound kit.new.door) result }
{
    match kit.door.next() {
        Knock::Link(link) => serve_given(rt, alloc, page, turn, pass, kit, link, steps),
        Knock::End => DoorEnd::End,
        Knock::Failed => DoorEnd::Failed,
    }
}

/// Serves the links that come to a worker's door, one after another, at most so many, and gives each back to it. A
/// connection that ends badly doesn't end the serving, unless the lock was spent. The call itself takes no memory.
pub fn serve_door<D: Disk, W: Wait, R: Door, C: Clock, M: Maker, L: Ledger>(
    rt: &W,
    alloc: Global,
    page: &Page,
    turn: &Turn<Shared<D>>,
    pass: &mut Pass<Shared<D>>,
    kit: &mut Kit<R, C, M>,
    limit: u64,
    steps: &mut Steps<L>,
) -> DoorEnd
    requires { IsFree turn.now pass.old }
    ensures served { ServesDoor R.Link.coming R.Link.sent page.now limit result
        (kit_told R.Door C.Clock M.Maker kit.old)
        (kit_told R.Door C.Clock M.Maker kit.new) pass.old pass.new }
    ensures sound { StaysSound (R.IsSound kit.old.door) (R.IsSound kit.new.door) result }
{
    'links: for _served in 0..limit {
        let end = serve_next(rt, alloc, page, turn, pass, kit, steps);
        if !goes_on(end) {
            return end;
        }
    }
    DoorEnd::Enough
}
