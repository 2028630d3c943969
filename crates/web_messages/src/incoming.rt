//! The bytes that came over a link and aren't used yet.
ghost use Rattle.std.specs.Prelude.{◌≡◌, ◌<◌, ◌≤◌, [], true, false, length, drop, IfOk, OnOk, vec_len};
ghost use Rattle.web_messages.specs.ReadCounts.{ReadsCounted};
ghost use Rattle.web_messages.specs.Receipt.{Keeps, GoesOn};

use crate::broken::Broken;
use hl_base::{Link, Memory};
use std::alloc::Global;
use std::marker::Model;

/// How many bytes are asked for at once.
const ROOM: usize = 65536;

/// The bytes that came over a link and aren't used yet, and whether its end was seen.
#[derive(Drop)]
pub struct Incoming {
    held: Vec<u8>,
    start: usize,
    room: Vec<u8>,
    ended: bool,
}

impl Model for Incoming {
    ghost use Rattle.std.specs.Prelude.{◌<◌, ◌≤◌, drop, length};
    ghost use Rattle.web_messages.specs.Unread.{Unread};

    ghost Value = { Unread };

    ghost view = { λ i. record { bytes = drop i.start i.held.items; ended = i.ended } };

    ghost invariant = { λ i. (i.start ≤ length i.held.items) × (0 < length i.room.items) };
}

/// So many bytes, all zero.
fn zeros(alloc: Global, count: usize) -> Result<Vec<u8>, Memory>
    ensures { IfOk result (λ bytes. vec_len bytes ≡ count) }
{
    Ok(vec![in alloc; 0u8; count]?)
}

impl Incoming {
    /// No bytes yet.
    pub fn new(alloc: Global) -> Result<Incoming, Memory>
        ensures { IfOk result (λ i. i ≡ record { bytes = []; ended = false }) }
    {
        Ok(Incoming {
            held: Vec::new(alloc),
            start: 0,
            room: zeros(alloc, ROOM)?,
            ended: false,
        })
    }

    /// The bytes that aren't used yet.
    pub fn as_slice(&self) -> &[u8]
        ensures { result.now ≡ self.now.bytes }
    {
        let (_, rest) = self.held.as_slice().split_at(self.start);
        rest
    }

    /// Whether the end of the stream was seen.
    pub fn has_ended(&self) -> bool
        ensures { result ≡ self.now.ended }
    {
        self.ended
    }

    /// Goes past so many bytes. What is left moves to the front once it is less than what was used, so that each
    /// byte moves seldom.
    pub fn consume(&mut self, count: usize)
        requires { count ≤ length self.old.bytes }
        ensures { self.new ≡ record self.old { bytes = drop count self.old.bytes } }
    {
        self.start += count;
        let left = self.held.len() - self.start;
        if left < self.start {
            self.held.rotate_left(self.start);
            self.held.truncate(left);
            self.start = 0;
        }
    }

    /// Reads some more bytes, or sees the end.
    pub fn receive<K: Link>(&mut self, link: &mut K) -> Result<(), Broken>
        requires { self.old.ended ≡ false }
        ensures longer { OnOk result (self.new.ended ≡ false
            → length self.old.bytes < length self.new.bytes) }
        ensures on { OnOk result (GoesOn self.old.bytes self.new.bytes) }
        ensures stream { OnOk result (Keeps (K.coming link.old) self.old (K.coming link.new)
            self.new) }
        ensures sent { K.sent link.new ≡ K.sent link.old }
        ensures counted { ReadsCounted result (K.read_faults link.old) (K.read_faults link.new)
            (K.write_faults link.old) (K.write_faults link.new) }
    {
        let room = self.room.as_mut_slice();
        let Ok(count) = link.read(room) else {
            return Err(Broken::Link);
        };
        if count == 0 {
            self.ended = true;
            return Ok(());
        }
        let (read, _) = room.split_at(count);
        self.held.extend_from_slice(read)?;
        Ok(())
    }
}
