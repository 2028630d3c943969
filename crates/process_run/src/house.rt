//! The house whose doors are sockets at one address of this machine. It tells nothing of its kits, and counts what fails.
ghost use Rattle.std.specs.Prelude.{◌≡◌, None};
ghost use Rattle.desk_team.specs.Houses.{after_door, after_maker};

use crate::clock::SystemClock;
use crate::sockets::SocketDoor;
use desk_team::House;
use hl_base::{Failed, Text};
use local_day::Zone;
use query::{Maker, RegexMaker};
use shared_desk::Kit;
use std::net::{Net, TcpListener, TcpStream};
use std::rt::Clock;
use std::sync::Wait;
use waiting_room::Entrance;

/// A listener's address on this machine, with a door for each worker.
#[derive(Drop)]
pub struct SocketHouse<'a, R> {
    rt: &'a R,
    zone: &'a Zone,
    /// Whether connections wait for their next message in a room, or are each served to its end.
    has_room: bool,
    entrance: Option<Entrance>,
    binds: u64,
    last: Option<(Text, u16)>,
    faults: u64,
    refusals: u64,
}

impl<'a, R> SocketHouse<'a, R> {
    /// A house that wasn't asked to bind yet, whose clocks are in a zone. With a room a worker has a connection for one message
    /// at a time; without one it has it to its end.
    pub fn new(rt: &'a R, zone: &'a Zone, has_room: bool) -> SocketHouse<'a, R>
        ensures binds { (result.binds ≡ 0) × (result.last ≡ None) }
        ensures counts { (result.faults ≡ 0) × (result.refusals ≡ 0) }
    {
        SocketHouse {
            rt,
            zone,
            has_room,
            entrance: None,
            binds: 0,
            last: None,
            faults: 0,
            refusals: 0,
        }
    }
}

/// The entrance of one more worker, where there is one.
fn entrance_for_one_more<R: Wait>(rt: &R, entrance: &Option<Entrance>) -> Option<Entrance> {
    match entrance {
        Some(entrance) => entrance.for_one_more(rt),
        None => None,
    }
}

/// A count, once a door came back with so many faults.
fn with_door(faults: u64, of_door: u64) -> u64
    ensures { result ≡ after_door faults of_door }
{
    if of_door == 0 {
        faults
    } else {
        faults.saturating_add(1)
    }
}

/// Refusals, once a maker came back with so many more.
fn with_maker(refusals: u64, more: u64) -> u64
    ensures { result ≡ after_maker refusals more }
{
    refusals.saturating_add(more)
}

impl<
    'a,
    R: Net<Listener = TcpListener, Stream = TcpStream> + Clock + Wait + Sync + AllocGlobal,
> House for SocketHouse<'a, R> {
    type Door = SocketDoor<'a, R>;

    type Clock = SystemClock<'a, R>;

    type Maker = RegexMaker;

    ghost use Rattle.desk_team.specs.Houses.{TakesBack, bound_of};
    ghost use Rattle.process_run.specs.Silence.{silent};

    ghost told = { λ h. silent (bound_of h.binds h.last) h.faults h.refusals };

    fn bind(&mut self, host: Text, port: u16) -> Result<(), Failed> {
        let outcome = Entrance::open(self.rt, host.as_str(), port, self.has_room);
        self.binds = self.binds.saturating_add(1);
        self.last = Some((host, port));
        match outcome {
            Ok(entrance) => {
                self.entrance = Some(entrance);
                Ok(())
            }
            Err(_) => {
                self.faults = self.faults.saturating_add(1);
                Err(Failed)
            }
        }
    }

    fn worker(&mut self) -> Result<Kit<SocketDoor<'a, R>, SystemClock<'a, R>, RegexMaker>, Failed> {
        match entrance_for_one_more(self.rt, &self.entrance) {
            Some(entrance) => Ok(Kit {
                door: SocketDoor::new(self.rt, entrance),
                clock: SystemClock::new(self.rt, self.zone),
                maker: RegexMaker::new(),
            }),
            None => {
                self.faults = self.faults.saturating_add(1);
                Err(Failed)
            }
        }
    }

    fn give_back(&mut self, kit: Kit<SocketDoor<'a, R>, SystemClock<'a, R>, RegexMaker>)
        ensures { TakesBack
            (silent (bound_of self.old.binds self.old.last) self.old.faults self.old.refusals)
            (silent (bound_of self.new.binds self.new.last) self.new.faults self.new.refusals)
            kit.entry kit.entry.door.faults (⟦<RegexMaker as Maker>⟧.refusals kit.entry.maker) }
    {
        self.faults = with_door(self.faults, kit.door.faults());
        self.refusals = with_maker(self.refusals, kit.maker.refusals());
    }
}
