//! Workers, each at its own door.
ghost use Rattle.std.specs.Prelude.{◌≡◌, ◌||◌, All, length};
ghost use Rattle.desk_team.specs.Teams.{AllWorked, Worked, is_failed};
ghost use Rattle.shared_desk.specs.Stays.{ServesDoor, StaysSound, kit_told};
ghost use Rattle.turn_lock.specs.Passes.{IsFree};

use hl_base::{Clock, Disk, Door, Steps};
use query::Maker;
use shared_desk::{DoorEnd, Kit, Shared, serve_door};
use std::alloc::Global;
use std::marker::Brand;
use std::sync::Wait;
use std::sync::ledger::{Blank, Ledger};
use std::thread::{Threads, for_each_mut};
use turn_lock::{Pass, Turn};
use web_messages::page::Page;

/// A worker: its pass of the lock, its kit, and how its serving ended.
#[derive(Drop)]
pub struct Worker<P, R, C, M> {
    pub pass: P,
    pub kit: Kit<R, C, M>,
    pub end: DoorEnd,
}

/// Whether a serving ended because a call of the door failed.
fn door_failed(end: DoorEnd) -> bool
    ensures { result ≡ is_failed end }
{
    match end {
        DoorEnd::Failed => true,
        DoorEnd::End | DoorEnd::Enough | DoorEnd::Spent => false,
    }
}

/// Whether a call of some door failed, where one more serving ended so.
pub fn failed_with(failed: bool, end: DoorEnd) -> bool
    ensures { result ≡ (failed || is_failed end) }
{
    failed || door_failed(end)
}

/// Serves a door with counters of its own.
fn serve_counted<D: Disk, W: Wait, R: Door, C: Clock, M: Maker, L: Ledger>(
    rt: &W,
    alloc: Global,
    page: &Page,
    turn: &Turn<Shared<D>>,
    pass: &mut Pass<Shared<D>>,
    kit: &mut Kit<R, C, M>,
    limit: u64,
    blank: Blank,
) -> DoorEnd
    requires free { IsFree turn.now pass.old }
    requires name { blank.name ≡ L.name }
    requires parts { blank.parts ≡ L.parts }
    requires three { blank.parts ≡ 3 }
    ensures served { ServesDoor R.Link.coming R.Link.sent page.now limit result
        (kit_told R.Door C.Clock M.Maker kit.old)
        (kit_told R.Door C.Clock M.Maker kit.new) pass.old pass.new }
    ensures sound { StaysSound (R.IsSound kit.old.door) (R.IsSound kit.new.door) result }
{
    let mut steps = Steps::<L>::start(blank);
    serve_door(rt, alloc, page, turn, pass, kit, limit, &mut steps)
}

/// Lets a worker serve its door.
fn work<D: Disk, W: Wait, R: Door, C: Clock, M: Maker>(
    rt: &W,
    alloc: Global,
    page: &Page,
    turn: &Turn<Shared<D>>,
    worker: &mut Worker<Pass<Shared<D>>, R, C, M>,
    limit: u64,
)
    requires { IsFree turn.now worker.old.pass }
    ensures { Worked R.Door C.Clock M.Maker R.Link.coming R.Link.sent page.now limit worker.old
        worker.new }
{
    let end = serve_counted::<D, W, R, C, M, Brand>(
        rt,
        alloc,
        page,
        turn,
        &mut worker.pass,
        &mut worker.kit,
        limit,
        Blank::new(3),
    );
    worker.end = end;
}

/// Lets the workers of a slice serve their doors, each in a thread of its own where one can be made.
fn work_each<
    D: Disk + Send,
    W: Threads + Wait + Sync,
    R: Door + Send,
    C: Clock + Send,
    M: Maker + Send,
>(
    rt: &W,
    alloc: Global,
    page: &Page,
    turn: &Turn<Shared<D>>,
    workers: &mut [Worker<Pass<Shared<D>>, R, C, M>],
    limit: u64,
)
    requires { All (λ worker. IsFree turn.now worker.pass) workers.old }
    ensures { AllWorked R.Door C.Clock M.Maker R.Link.coming R.Link.sent page.now limit workers.old
        workers.new }
{
    let threads = workers.len().max(1);
    for_each_mut(
        rt,
        workers,
        threads,
        &|_place: usize, worker: &mut Worker<Pass<Shared<D>>, R, C, M>|
            requires { IsFree turn.now worker.now.pass }
            ensures { Worked R.Door C.Clock M.Maker R.Link.coming R.Link.sent page.entry.now limit
                worker.entry.now worker.exit.now }
        { work(rt, alloc, page, turn, worker, limit) },
    );
}

/// Lets the workers serve their doors, each in a thread of its own where one can be made.
pub fn work_all<
    D: Disk + Send,
    W: Threads + Wait + Sync,
    R: Door + Send,
    C: Clock + Send,
    M: Maker + Send,
>(
    rt: &W,
    alloc: Global,
    page: &Page,
    turn: &Turn<Shared<D>>,
    workers: &mut Vec<Worker<Pass<Shared<D>>, R, C, M>>,
    limit: u64,
)
    requires { All (λ worker. IsFree turn.now worker.pass) workers.old.items }
    ensures worked { AllWorked R.Door C.Clock M.Maker R.Link.coming R.Link.sent page.now limit
        workers.old.items workers.new.items }
    ensures many { length workers.new.items ≡ length workers.old.items }
    ensures free { All (λ worker. IsFree turn.now worker.pass) workers.new.items }
{
    work_each(rt, alloc, page, turn, workers.as_mut_slice(), limit);
}
