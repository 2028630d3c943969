//! A journal that is served at the doors of a house.
ghost use Rattle.std.specs.Prelude.{◌≡◌, ◌≤◌, ◌<◌, true, false, [], All, IfOk, IfErr, List, MatchBool, length, map, vec_capacity};
ghost use Rattle.hl_base.specs.Causes.{Rose};
ghost use Rattle.shared_desk.specs.Stays.{kit_told};
ghost use Rattle.shared_desk.specs.declared.kit.Kit.{Kit};
ghost use Rattle.desk_team.specs.Hostings.{AreAllOut, FreshBy, Hosts, Takes, TakesAll, Unserved};
ghost use Rattle.desk_team.specs.Houses.{bound_once_more};
ghost use Rattle.desk_team.specs.Teams.{ServesTeam};

use crate::house::House;
use crate::team::{Closed, serve_all};
use desk::Desk;
use hl_base::{Disk, Failed, List, Memory, Text};
use shared_desk::{Kit, Shared};
use std::alloc::Global;
use std::sync::Wait;
use std::thread::Threads;
use turn_lock::Pass;
use web_messages::page::Page;

/// Where a house binds.
#[derive(Drop)]
pub struct Address {
    pub host: Text,
    pub port: u16,
}

/// How many workers serve, and how many links each of them serves at most.
#[derive(Clone, Copy, Debug)]
pub struct Crew {
    pub workers: usize,
    pub links: u64,
}

/// Why a journal isn't served.
#[derive(Clone, Copy, Debug, PartialEq, Eq)]
pub enum HouseFault {
    /// The house failed to bind, or to hand out a kit.
    Failed,
    /// Memory ran out.
    Memory,
}

/// What the workers of a house leave when all have ended: the machine, the first pass, which has seen the whole history,
/// and whether a call of a door failed.
#[derive(Drop)]
pub struct Hosted<D: Disk> {
    pub desk: Desk<D>,
    pub pass: Pass<Shared<D>>,
    pub failed: bool,
}

/// Takes so many kits from a house, and says whether it handed out all of them. The list has the room.
fn take_kits<H: House>(
    house: &mut H,
    count: usize,
    mut kits: Vec<Kit<H::Door, H::Clock, H::Maker>>,
) -> (Vec<Kit<H::Door, H::Clock, H::Maker>>, bool)
    requires none { kits.items ≡ [] }
    requires room { count ≤ vec_capacity kits }
    ensures takes { Takes (H.told house.old) (H.told house.new) result.0.items }
    ensures fresh { All (FreshBy (kit_told H.Door.Door H.Clock.Clock H.Maker.Maker))
        result.0.items }
    ensures whole { MatchBool result.1
        ((length result.0.items ≡ count) × ((H.told house.new).faults ≡ (H.told house.old).faults))
        ((length result.0.items < count)
        × Rose (H.told house.old).faults (H.told house.new).faults) }
    ensures sound { count ≤ (H.told house.old).faultless
        → (result.1 ≡ true) × All (λ kit. H.Door.IsSound kit.door) result.0.items }
{
    for _taken in 0..count {
        match house.worker() {
            Ok(kit) => kits.push_reserved(kit),
            Err(Failed) => return (kits, false),
        }
    }
    (kits, true)
}

/// Gives kits back to their house, in order.
fn give_back_all<H: House>(house: &mut H, kits: List<Kit<H::Door, H::Clock, H::Maker>>)
    requires out { AreAllOut (H.told house.old) kits }
    ensures { TakesAll (kit_told H.Door.Door H.Clock.Clock H.Maker.Maker) (H.told house.old)
        (H.told house.new) kits }
{
    for kit in kits.into_vec() {
        house.give_back(kit);
    }
}

/// Gives the kits of workers that have ended back to their house.
fn conclude<H: House, D: Disk>(
    house: &mut H,
    closed: Closed<D, H::Door, H::Clock, H::Maker>,
) -> Hosted<D>
    requires out { AreAllOut (H.told house.old) closed.kits }
    ensures back { TakesAll (kit_told H.Door.Door H.Clock.Clock H.Maker.Maker) (H.told house.old)
        (H.told house.new) closed.kits }
    ensures desk { result.desk ≡ closed.desk }
    ensures pass { result.pass ≡ closed.pass }
    ensures failed { result.failed ≡ closed.failed }
{
    let Closed {
        desk,
        pass,
        kits,
        failed,
    } = closed;
    give_back_all(house, kits);
    Hosted { desk, pass, failed }
}

/// Serves a journal with kits that a house handed out, and gives them back.
fn serve_kits<H: House, D: Disk + Send, W: Threads + Wait + Sync>(
    rt: &W,
    alloc: Global,
    page: &Page,
    house: &mut H,
    desk: Desk<D>,
    kits: List<Kit<H::Door, H::Clock, H::Maker>>,
    links: u64,
) -> Result<Hosted<D>, Desk<D>>
    requires out { AreAllOut (H.told house.old) kits }
    ensures served { IfOk result (λ hosted. (kits_now : List (Kit H.Door H.Clock H.Maker))
        × ServesTeam H.Door.Link.coming H.Door.Link.sent page.now links desk
        (map (kit_told H.Door.Door H.Clock.Clock H.Maker.Maker) kits)
        (map (kit_told H.Door.Door H.Clock.Clock H.Maker.Maker) kits_now) hosted.failed
        hosted.pass.seen hosted.desk
        × TakesAll (kit_told H.Door.Door H.Clock.Clock H.Maker.Maker) (H.told house.old)
        (H.told house.new) kits_now) }
    ensures sound { All (λ kit. H.Door.IsSound kit.door) kits
        → IfOk result (λ hosted. hosted.failed ≡ false) }
    ensures unserved { IfErr result (λ left. (left ≡ desk)
        × TakesAll (kit_told H.Door.Door H.Clock.Clock H.Maker.Maker) (H.told house.old)
        (H.told house.new) kits) }
{
    match serve_all(rt, alloc, page, desk, kits, links) {
        Ok(closed) => Ok(conclude(house, closed)),
        Err((desk, kits, Memory)) => {
            give_back_all(house, kits);
            Err(desk)
        }
    }
}

/// Serves a journal with as many workers as a house that bound is asked for.
fn serve_bound<H: House, D: Disk + Send, W: Threads + Wait + Sync>(
    rt: &W,
    alloc: Global,
    page: &Page,
    house: &mut H,
    desk: Desk<D>,
    crew: Crew,
) -> Result<Hosted<D>, (Desk<D>, HouseFault)>
    ensures served { IfOk result (λ hosted. Hosts (kit_told H.Door.Door H.Clock.Clock H.Maker.Maker)
        H.Door.Link.coming H.Door.Link.sent page.now crew.workers crew.links
        (H.told house.old).bound desk (H.told house.old) (H.told house.new) hosted.failed hosted.pass.seen hosted.desk) }
    ensures unserved { IfErr result (λ left. (left.0 ≡ desk)
        × Unserved crew.workers (H.told house.old).bound (H.told house.old) (H.told house.new)
        left.1) }
{
    let Ok(room) = Vec::with_capacity(alloc, crew.workers) else {
        return Err((desk, HouseFault::Memory));
    };
    let (kits, whole) = take_kits(house, crew.workers, room);
    let kits = List::from_vec(kits);
    if !whole {
        give_back_all(house, kits);
        return Err((desk, HouseFault::Failed));
    }
    match serve_kits(rt, alloc, page, house, desk, kits, crew.links) {
        Ok(hosted) => Ok(hosted),
        Err(desk) => Err((desk, HouseFault::Memory)),
    }
}

/// Serves a journal at an address of a house, with so many workers at the same time, each at the door of its own kit and up
/// to so many links, until all have ended. All of them show the page, if there is one. The house is asked to bind once.
/// Where it doesn't bind or hand out the kits, or memory runs out before the first link, no link is served, and the machine
/// and the kits come back as they were.
pub fn serve_house<H: House, D: Disk + Send, W: Threads + Wait + Sync>(
    rt: &W,
    alloc: Global,
    page: &Page,
    house: &mut H,
    address: Address,
    desk: Desk<D>,
    crew: Crew,
) -> Result<Hosted<D>, (Desk<D>, HouseFault)>
    ensures served { IfOk result (λ hosted. Hosts (kit_told H.Door.Door H.Clock.Clock H.Maker.Maker)
        H.Door.Link.coming H.Door.Link.sent page.now crew.workers crew.links
        (bound_once_more (H.told house.old).bound address.host address.port) desk
        (H.told house.old) (H.told house.new) hosted.failed hosted.pass.seen hosted.desk) }
    ensures unserved { IfErr result (λ left. (left.0 ≡ desk)
        × Unserved crew.workers (bound_once_more (H.told house.old).bound address.host address.port)
        (H.told house.old) (H.told house.new) left.1) }
{
    let Address { host, port } = address;
    match house.bind(host, port) {
        Ok(()) => serve_bound(rt, alloc, page, house, desk, crew),
        Err(Failed) => Err((desk, HouseFault::Failed)),
    }
}
