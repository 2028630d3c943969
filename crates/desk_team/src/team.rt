//! A team of workers that serves one journal, and the history that its lock gives when it is closed.
ghost use Rattle.std.specs.Prelude.{◌≡◌, ◌≤◌, ◌++◌, false, [], All, IfOk, IfErr, length, map, vec_capacity};
ghost use Rattle.std.specs.List.{list_any};
ghost use Rattle.desk_team.specs.Teams.{ServesTeam, has_failed, hired, member_of, told_of};
ghost use Rattle.turn_lock.specs.Passes.{IsFirst, IsFree, first_pass};

use crate::worker::{Worker, failed_with, work_all};
use desk::Desk;
use hl_base::{Clock, Disk, Door, List, Memory};
use query::Maker;
use shared_desk::{DoorEnd, Kit, Shared};
use std::alloc::Global;
use std::sync::Wait;
use std::thread::Threads;
use turn_lock::{Pass, Turn};
use web_messages::page::Page;

/// What a team leaves when all its workers have ended: the machine, the first pass, which has seen the whole history, the
/// kits in their order, and whether a call of a door failed.
#[derive(Drop)]
pub struct Closed<D: Disk, R, C, M> {
    pub desk: Desk<D>,
    pub pass: Pass<Shared<D>>,
    pub kits: List<Kit<R, C, M>>,
    pub failed: bool,
}

/// Gives each kit a pass, in order. The list has the room.
fn hire<D: Disk, R: Drop, C: Drop, M: Drop>(
    turn: &Turn<Shared<D>>,
    first: &mut Pass<Shared<D>>,
    kits: List<Kit<R, C, M>>,
    mut workers: Vec<Worker<Pass<Shared<D>>, R, C, M>>,
) -> Vec<Worker<Pass<Shared<D>>, R, C, M>>
    requires first { first.old ≡ first_pass turn.now }
    requires none { workers.items ≡ [] }
    requires room { length kits ≤ vec_capacity workers }
    ensures hired { result.items ≡ hired turn.now 0 kits }
    ensures free { All (λ worker. IsFree turn.now worker.pass) result.items }
    ensures first { first.new ≡ record (first_pass turn.now) { made = length kits } }
{
    for kit in kits.into_vec() {
        let Ok(pass) = turn.split(first) else {
            unreachable!()
        };
        workers.push_reserved(Worker {
            pass,
            kit,
            end: DoorEnd::End,
        });
    }
    workers
}

/// Takes each worker's pass in, in order, and keeps its kit. The list has the room.
fn dismiss<D: Disk, R: Drop, C: Drop, M: Drop>(
    turn: &Turn<Shared<D>>,
    first: &mut Pass<Shared<D>>,
    workers: Vec<Worker<Pass<Shared<D>>, R, C, M>>,
    mut kits: Vec<Kit<R, C, M>>,
) -> (List<Kit<R, C, M>>, bool)
    requires first { IsFirst turn.now first.old }
    requires free { All (λ worker. IsFree turn.now worker.pass) workers.items }
    requires none { kits.items ≡ [] }
    requires room { length workers.items ≤ vec_capacity kits }
    ensures kits { result.0 ≡ map (λ worker. worker.kit) workers.items }
    ensures failed { result.1 ≡ list_any has_failed workers.items }
    ensures joined { first.new.joined ≡ first.old.joined ++ map member_of workers.items }
    ensures first { IsFirst turn.now first.new × (first.new.made ≡ first.old.made)
        × (first.new.mine ≡ first.old.mine) }
    ensures seen { All (λ worker. length worker.pass.seen ≤ length first.new.seen) workers.items }
{
    let mut failed = false;
    for worker in workers {
        let Worker { pass, kit, end } = worker;
        failed = failed_with(failed, end);
        turn.join(first, pass);
        kits.push_reserved(kit);
    }
    (List::from_vec(kits), failed)
}

/// Serves the journal under a lock that is there, and closes it.
fn serve_under<
    D: Disk + Send,
    W: Threads + Wait + Sync,
    R: Door + Drop + Send,
    C: Clock + Drop + Send,
    M: Maker + Drop + Send,
>(
    rt: &W,
    alloc: Global,
    page: &Page,
    lock: (Turn<Shared<D>>, Pass<Shared<D>>),
    kits: List<Kit<R, C, M>>,
    rooms: (Vec<Worker<Pass<Shared<D>>, R, C, M>>, Vec<Kit<R, C, M>>),
    limit: u64,
) -> Closed<D, R, C, M>
    requires first { lock.1 ≡ first_pass lock.0 }
    requires done { lock.0.done ≡ 0 }
    requires none { (rooms.0.items ≡ []) × (rooms.1.items ≡ []) }
    requires room { (length kits ≤ vec_capacity rooms.0) × (length kits ≤ vec_capacity rooms.1) }
    ensures served { ServesTeam R.Link.coming R.Link.sent page.now limit lock.0.opening.desk
        (told_of R.Door C.Clock M.Maker kits)
        (told_of R.Door C.Clock M.Maker result.kits) result.failed result.pass.seen result.desk }
    ensures sound { All (λ kit. R.IsSound kit.door) kits → result.failed ≡ false }
{
    let (turn, mut first) = lock;
    let (workers, done) = rooms;
    let mut workers = hire(&turn, &mut first, kits, workers);
    work_all(rt, alloc, page, &turn, &mut workers, limit);
    let (kits, failed) = dismiss(&turn, &mut first, workers, done);
    let (Shared { desk }, pass) = turn.close(first);
    Closed {
        desk,
        pass,
        kits,
        failed,
    }
}

/// Serves a journal with as many workers as there are kits, at the same time, each at its own door and up to so many
/// links, until all have ended. All of them show the page, if there is one. Where memory runs out before the first link,
/// the machine and the kits come back as they were. Where no call of a door is to fail, none is reported as failed.
pub fn serve_all<
    D: Disk + Send,
    W: Threads + Wait + Sync,
    R: Door + Drop + Send,
    C: Clock + Drop + Send,
    M: Maker + Drop + Send,
>(
    rt: &W,
    alloc: Global,
    page: &Page,
    desk: Desk<D>,
    kits: List<Kit<R, C, M>>,
    limit: u64,
) -> Result<Closed<D, R, C, M>, (Desk<D>, List<Kit<R, C, M>>, Memory)>
    ensures served { IfOk result (λ closed.
        ServesTeam R.Link.coming R.Link.sent page.now limit desk
        (told_of R.Door C.Clock M.Maker kits)
        (told_of R.Door C.Clock M.Maker closed.kits) closed.failed closed.pass.seen closed.desk) }
    ensures sound { All (λ kit. R.IsSound kit.door) kits
        → IfOk result (λ closed. closed.failed ≡ false) }
    ensures back { IfErr result (λ refusal. (refusal.0 ≡ desk) × (refusal.1 ≡ kits)) }
{
    let count = kits.len();
    let Ok(workers) = Vec::with_capacity(alloc, count) else {
        return Err((desk, kits, Memory));
    };
    let Ok(done) = Vec::with_capacity(alloc, count) else {
        return Err((desk, kits, Memory));
    };
    match Turn::new(alloc, Shared { desk }, 0) {
        Ok(lock) => Ok(serve_under(rt, alloc, page, lock, kits, (workers, done), limit)),
        Err((shared, memory)) => {
            let Shared { desk } = shared;
            Err((desk, kits, memory))
        }
    }
}
