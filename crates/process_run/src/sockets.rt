//! Connections over sockets, and the doors at which they come. Their clauses say nothing of the bytes.
ghost use Rattle.std.specs.Prelude.{◌≡◌};

use hl_base::{Door, Failed, Knock, Link};
use std::rt::Clock;
use std::sync::Wait;
use waiting_room::{Caller, Entrance};

/// A connection over a socket.
#[derive(Drop)]
pub struct SocketLink<'a, R> {
    rt: &'a R,
    caller: Caller,
    read_faults: u64,
    write_faults: u64,
}

impl<'a, R> SocketLink<'a, R> {
    /// A connection of which no call has failed.
    fn new(rt: &'a R, caller: Caller) -> SocketLink<'a, R>
        ensures { (result.read_faults ≡ 0) × (result.write_faults ≡ 0) }
    {
        SocketLink {
            rt,
            caller,
            read_faults: 0,
            write_faults: 0,
        }
    }
}

impl<R: Wait + Clock> Link for SocketLink<'_, R> {
    ghost use Rattle.std.specs.Prelude.{None};

    ghost coming = { λ _. None };

    ghost sent = { λ _. None };

    ghost read_faults = { λ l. l.read_faults };

    ghost write_faults = { λ l. l.write_faults };

    ghost HasRoom = { λ _ _. ⊥ };

    fn read(&mut self, room: &mut [u8]) -> Result<usize, Failed> {
        match self.caller.read(self.rt, room) {
            Ok(count) => Ok(count),
            Err(_) => {
                self.read_faults = self.read_faults.saturating_add(1);
                Err(Failed)
            }
        }
    }

    fn write(&mut self, piece: &[u8]) -> Result<usize, Failed> {
        match self.caller.write(self.rt, piece) {
            Ok(count) if count > 0 || piece.is_empty() => Ok(count),
            _ => {
                self.write_faults = self.write_faults.saturating_add(1);
                Err(Failed)
            }
        }
    }
}

/// One worker's door at an entrance that it shares with others.
#[derive(Drop)]
pub struct SocketDoor<'a, R> {
    rt: &'a R,
    entrance: Entrance,
    faults: u64,
}

impl<'a, R> SocketDoor<'a, R> {
    /// A door of which no call has failed.
    pub(crate) fn new(rt: &'a R, entrance: Entrance) -> SocketDoor<'a, R>
        ensures { result.faults ≡ 0 }
    {
        SocketDoor {
            rt,
            entrance,
            faults: 0,
        }
    }

    /// How many calls have failed.
    pub(crate) fn faults(&self) -> u64
        ensures { result ≡ self.now.faults }
    {
        self.faults
    }
}

impl<'a, R: Wait + Clock + Sync> Door for SocketDoor<'a, R> {
    type Link = SocketLink<'a, R>;

    ghost use Rattle.std.specs.Prelude.{None};

    ghost coming = { λ _. None };

    ghost given = { λ _. None };

    ghost faults = { λ d. d.faults };

    ghost IsSound = { λ _. ⊥ };

    fn next(&mut self) -> Knock<SocketLink<'a, R>> {
        match self.entrance.next(self.rt) {
            Some(caller) => Knock::Link(SocketLink::new(self.rt, caller)),
            None => {
                self.faults = self.faults.saturating_add(1);
                Knock::Failed
            }
        }
    }

    fn give_back(&mut self, link: SocketLink<'a, R>) {
        let SocketLink {
            caller,
            read_faults,
            write_faults,
            ..
        } = link;
        caller.leave(self.rt, read_faults, write_faults);
    }
}
