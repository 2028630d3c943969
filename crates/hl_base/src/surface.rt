//! The bytes of a file in memory, whose room is taken when it is made.
ghost use Rattle.std.specs.Prelude.{◌≡◌, ◌+◌, ◌-◌, ◌≤◌, ◌++◌, List, length, take, drop, replicate, max, IfOk};
ghost use Rattle.hl_base.specs.Disk.{overwritten, ReadsAt};

use crate::fault::Memory;
use std::alloc::Global;
use std::marker::Model;

/// The bytes of a file, within a room that doesn't grow.
#[derive(Drop)]
pub struct Surface {
    buffer: Vec<u8>,
    len: usize,
}

impl Model for Surface {
    ghost use Rattle.std.specs.Prelude.{◌≤◌, take, length};
    ghost use Rattle.hl_base.specs.Surface.{Held};

    ghost Value = { Held };

    ghost view = { λ s. record { text = take s.len s.buffer.items; room = length s.buffer.items } };

    ghost invariant = { λ s. s.len ≤ length s.buffer.items };
}

impl Surface {
    /// A file with these bytes and this room.
    pub fn new(alloc: Global, text: &[u8], room: usize) -> Result<Surface, Memory>
        requires { length text.now ≤ room }
        ensures { IfOk result (λ s. s ≡ record { text = text.now; room = room }) }
    {
        let mut surface = Surface {
            buffer: vec![in alloc; 0u8; room]?,
            len: 0,
        };
        surface.write(0, text);
        Ok(surface)
    }

    pub fn room(&self) -> usize
        ensures { result ≡ self.now.room }
    {
        self.buffer.len()
    }

    pub fn as_slice(&self) -> &[u8]
        ensures text { result.now ≡ self.now.text }
        ensures fits { length self.now.text ≤ self.now.room }
    {
        &self.buffer[..self.len]
    }

    /// Writes bytes at a place; a hole before it is zeros.
    pub fn write(&mut self, at: usize, piece: &[u8])
        requires { at + length piece.now ≤ self.old.room }
        ensures { self.new ≡ record self.old { text = overwritten self.old.text at piece.now } }
    {
        overwrite(&mut self.buffer, self.len, at, piece);
        self.len = self.len.max(at + piece.len());
    }

    /// Cuts the file to a length; a shorter one stays.
    pub fn cut(&mut self, len: usize)
        ensures { self.new ≡ record self.old { text = take len self.old.text } }
    {
        self.len = self.len.min(len);
    }
}

// Puts bytes at a place of a file that is the front of the buffer.
fn overwrite(buffer: &mut [u8], len: usize, at: usize, piece: &[u8])
    requires inside { len ≤ length buffer.old }
    requires room { at + length piece.now ≤ length buffer.old }
    ensures { take (max len (at + length piece.now)) buffer.new
        ≡ overwritten (take len buffer.old) at piece.now }
{
    fill_hole(buffer, len, at);
    put(buffer, at, piece);
}

// Puts bytes at a place.
pub(crate) fn put(buffer: &mut [u8], at: usize, piece: &[u8])
    requires { at + length piece.now ≤ length buffer.old }
    ensures { buffer.new ≡ take at buffer.old ++ piece.now
        ++ drop (at + length piece.now) buffer.old }
{
    buffer[at..at + piece.len()].copy_from_slice(piece);
}

// Puts zeros between a file's end and a place behind it.
fn fill_hole(buffer: &mut [u8], len: usize, at: usize)
    requires inside { at ≤ length buffer.old }
    requires ends { len ≤ length buffer.old }
    ensures front { take at buffer.new ≡ take at (take len buffer.old ++ replicate (at - len) 0) }
    ensures back { drop at buffer.new ≡ drop at buffer.old }
{
    if len < at {
        buffer[len..at].fill(0);
    }
}

/// Copies bytes from a place of a file into the front of a room, as many as there are.
pub fn copy_out(file: &[u8], at: u64, room: &mut [u8]) -> usize
    ensures fits { result ≤ length room.old }
    ensures bytes { ReadsAt file.now at result room.old room.new }
{
    let at = (at as usize).min(file.len());
    let count = room.len().min(file.len() - at);
    room[..count].copy_from_slice(&file[at..at + count]);
    count
}
