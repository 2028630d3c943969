//! The next message of a stream, or the way in which it ends.
ghost use Rattle.std.specs.Prelude.{◌≡◌, ◌⊎◌, ◌≤◌, true, false, None, length, IfOk, OnOk, IfSome, IsSome};
ghost use Rattle.web_messages.specs.ReadCounts.{ReadsCounted};
ghost use Rattle.web_messages.specs.Receipt.{Keeps, GoesOn, is_settled, SettledSo, NextSo, Whatever, ending_of, StartsWith};
ghost use Rattle.web_messages.specs.Streams.{most_head, front, IsOpen, EndsSo};

use crate::broken::Broken;
use crate::head::{Head, Judged, judge};
use crate::incoming::Incoming;
use crate::paths::Paths;
use crate::target::is_past_target;
use hl_base::{Link, Memory};
use std::alloc::Global;

/// The most bytes that a head may have.
const MOST_HEAD: usize = 16_384;

/// The most bytes that a body may have.
const MOST_BODY: u64 = 8_388_608;

/// Where the reading of a stream stopped.
#[derive(Clone, Copy, Debug, PartialEq, Eq)]
pub enum Stop {
    /// At its end, between two messages.
    Over,
    /// At a head that says no length of its body that can be used.
    Unframed,
    /// At bytes that begin no head.
    BadHead,
    /// At a head past a limit.
    LongHead,
    /// At a head that says a body of so many bytes, which are too many.
    LongBody { said: u64 },
    /// At the stream's end, inside a body.
    CutBody { had: u64, said: u64 },
    /// At the stream's end, inside a head.
    CutHead { had: u64 },
}

/// A whole message at the front of a stream, or where the reading stopped.
#[derive(Debug, Drop)]
pub enum Next {
    /// A message of so many bytes in all.
    Message { head: Head, total: usize },
    Stopped(Stop),
}

/// The bytes in which a head has to be whole.
pub fn front_of(bytes: &[u8]) -> &[u8]
    ensures value { result.now ≡ front bytes.now }
    ensures within { length result.now ≤ most_head }
{
    if bytes.len() <= MOST_HEAD {
        return bytes;
    }
    let (front, _) = bytes.split_at(MOST_HEAD);
    front
}

/// Whether an empty line ends among the bytes from this place on.
fn may_be_whole(bytes: &[u8], from: usize) -> bool {
    let start = from.saturating_sub(2).min(bytes.len());
    let (_, tail) = bytes.split_at(start);
    let mut is_empty = false;
    for b in tail {
        if *b == b'\n' {
            if is_empty {
                return true;
            }
            is_empty = true;
        } else if *b != b'\r' {
            is_empty = false;
        }
    }
    false
}

/// What the front of a stream is, if no more bytes can change that.
fn settle(
    alloc: Global,
    paths: &Paths,
    bytes: &[u8],
    settled: bool,
) -> Result<Option<Judged>, Memory>
    requires { length bytes.now ≤ most_head }
    ensures found { IfOk result (λ found.
        IfSome found (λ judged. SettledSo settled bytes.now judged)) }
    ensures some { IfOk result (λ found. settled ≡ true → IsSome found) }
{
    match judge(alloc, paths, bytes)? {
        Judged::Open if !settled => Ok(None),
        Judged::Bad if !settled && !is_past_target(bytes) => Ok(None),
        judged => Ok(Some(judged)),
    }
}

/// Whether no more bytes can change what the front of the stream is.
fn has_settled(incoming: &Incoming) -> bool
    ensures { result ≡ is_settled incoming.now }
{
    incoming.has_ended() || incoming.as_slice().len() >= MOST_HEAD
}

/// What the front of the stream is, if no more bytes can change that.
fn look(
    alloc: Global,
    paths: &Paths,
    incoming: &Incoming,
    seen: usize,
) -> Result<Option<Judged>, Memory>
    ensures found { IfOk result (λ found.
        IfSome found (λ judged.
        SettledSo (is_settled incoming.now) (front incoming.now.bytes) judged)) }
    ensures none { IfOk result (λ found. found ≡ None → is_settled incoming.now ≡ false) }
{
    let settled = has_settled(incoming);
    let bytes = front_of(incoming.as_slice());
    if settled || may_be_whole(bytes, seen) {
        return settle(alloc, paths, bytes, settled);
    }
    Ok(None)
}

/// Reads until it is settled what the front of the stream is.
fn read_head<K: Link>(
    alloc: Global,
    paths: &Paths,
    incoming: &mut Incoming,
    link: &mut K,
) -> Result<Judged, Broken>
    ensures judged { IfOk result (λ judged.
        SettledSo (is_settled incoming.new) (front incoming.new.bytes) judged) }
    ensures stream { OnOk result (Keeps (K.coming link.old) incoming.old (K.coming link.new)
        incoming.new) }
    ensures sent { K.sent link.new ≡ K.sent link.old }
    ensures counted { ReadsCounted result (K.read_faults link.old) (K.read_faults link.new)
        (K.write_faults link.old) (K.write_faults link.new) }
{
    let mut seen = 0;
    'heads: loop {
        if let Some(judged) = look(alloc, paths, incoming, seen)? {
            return Ok(judged);
        }
        seen = incoming.as_slice().len();
        incoming.receive(link)?;
    }
}

/// Reads until so many bytes are there, or the end was seen.
fn read_body<K: Link>(incoming: &mut Incoming, link: &mut K, total: usize) -> Result<(), Broken>
    ensures all { OnOk result ((total ≤ length incoming.new.bytes) ⊎ (incoming.new.ended ≡ true)) }
    ensures on { OnOk result (GoesOn incoming.old.bytes incoming.new.bytes) }
    ensures stream { OnOk result (Keeps (K.coming link.old) incoming.old (K.coming link.new)
        incoming.new) }
    ensures sent { K.sent link.new ≡ K.sent link.old }
    ensures counted { ReadsCounted result (K.read_faults link.old) (K.read_faults link.new)
        (K.write_faults link.old) (K.write_faults link.new) }
{
    while !incoming.has_ended() && incoming.as_slice().len() < total {
        incoming.receive(link)?;
    }
    Ok(())
}

/// Where a stream stopped whose front is no head yet and never will be one.
fn stop_without_head(incoming: &Incoming) -> Stop
    requires open { IsOpen (front incoming.now.bytes) }
    requires settled { is_settled incoming.now ≡ true }
    ensures { Whatever incoming.now.ended incoming.now.bytes (λ rest.
        EndsSo 0 rest (ending_of result)) }
{
    let had = incoming.as_slice().len();
    if had == 0 {
        Stop::Over
    } else if had >= MOST_HEAD {
        Stop::LongHead
    } else {
        Stop::CutHead { had: had as u64 }
    }
}

/// Reads the body of a message whose head has come.
fn next_body<K: Link>(incoming: &mut Incoming, link: &mut K, head: Head) -> Result<Next, Broken>
    requires { StartsWith incoming.old.bytes head }
    ensures next { IfOk result (λ next. NextSo incoming.new.ended incoming.new.bytes next) }
    ensures stream { OnOk result (Keeps (K.coming link.old) incoming.old (K.coming link.new)
        incoming.new) }
    ensures sent { K.sent link.new ≡ K.sent link.old }
    ensures counted { ReadsCounted result (K.read_faults link.old) (K.read_faults link.new)
        (K.write_faults link.old) (K.write_faults link.new) }
{
    let Some(said) = head.said else {
        return Ok(Next::Stopped(Stop::Unframed));
    };
    if said > MOST_BODY {
        return Ok(Next::Stopped(Stop::LongBody { said }));
    }
    let total = head.length + said as usize;
    read_body(incoming, link, total)?;
    let come = incoming.as_slice().len();
    if come < total {
        let had = (come - head.length) as u64;
        return Ok(Next::Stopped(Stop::CutBody { had, said }));
    }
    Ok(Next::Message { head, total })
}

/// Reads the next message, or up to where the stream stops.
pub fn next_message<K: Link>(
    alloc: Global,
    paths: &Paths,
    incoming: &mut Incoming,
    link: &mut K,
) -> Result<Next, Broken>
    ensures next { IfOk result (λ next. NextSo incoming.new.ended incoming.new.bytes next) }
    ensures stream { OnOk result (Keeps (K.coming link.old) incoming.old (K.coming link.new)
        incoming.new) }
    ensures sent { K.sent link.new ≡ K.sent link.old }
    ensures counted { ReadsCounted result (K.read_faults link.old) (K.read_faults link.new)
        (K.write_faults link.old) (K.write_faults link.new) }
{
    match read_head(alloc, paths, incoming, link)? {
        Judged::Whole(head) => next_body(incoming, link, head),
        Judged::Long => Ok(Next::Stopped(Stop::LongHead)),
        Judged::Bad => Ok(Next::Stopped(Stop::BadHead)),
        Judged::Open => Ok(Next::Stopped(stop_without_head(incoming))),
    }
}
