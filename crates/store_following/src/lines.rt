//! The exit statuses, and the lines that say what came of a source that was followed.
ghost use Rattle.std.specs.Prelude.{◌≡◌, ◌++◌, ◌∷◌, [], IfOk};
ghost use Rattle.std.specs.Fmt.{decimal};
ghost use Rattle.std.specs.String.{string_bytes};
ghost use Rattle.error_lines.specs.Lines.{ended as ended_line};
ghost use Rattle.store_following.specs.Lines as spec;

use crate::refusal::{FollowRefusal, Followed};
use error_lines::{frame, frame_kind, memory, past_limit, read_fault};
use follower::FrameFault;
use hl_base::{Bytes, Memory, Text};
use std::alloc::Global;
use std::string::ToString;
use store_text::{refusal_line, refusal_status};

/// A line of one text.
fn ended(mut line: String) -> Result<Bytes, Memory>
    ensures { IfOk result (λ bytes. bytes ≡ ended_line (string_bytes line)) }
{
    line.push_str("\n")?;
    Ok(Bytes::from_vec(line.into_bytes()))
}

/// A text with another one and a number behind it.
fn with_count(alloc: Global, mut line: String, front: &str, number: u64) -> Result<String, Memory>
    ensures { IfOk result (λ longer.
        string_bytes longer ≡ spec.with_count (string_bytes line) front.now number) }
{
    line.push_str(front)?;
    line.push_str(number.to_string(alloc)?.as_str())?;
    Ok(line)
}

/// The line of a source that was followed to its end: the replica's revision, and how many frames were taken, were old, and stood
/// behind a gap.
pub fn followed_line(alloc: Global, followed: &Followed) -> Result<Bytes, Memory>
    ensures { IfOk result (λ line. line ≡ spec.followed_line followed.now) }
{
    let tally = followed.tally;
    let line = with_count(alloc, String::new(alloc), "revision ", followed.revision)?;
    let taken = with_count(alloc, line, ", taken ", tally.taken)?;
    let old = with_count(alloc, taken, ", old ", tally.old)?;
    ended(with_count(alloc, old, ", gaps ", tally.gaps)?)
}

/// Why no frame is read.
fn unread_line(alloc: Global, fault: FrameFault) -> Result<Bytes, Memory>
    ensures { IfOk result (λ line. line ≡ spec.unread_line fault) }
{
    match fault {
        FrameFault::ReadFault => read_fault(alloc),
        FrameFault::Cut { .. } => frame(alloc, "cut"),
        FrameFault::BadFrame { kind } => frame_kind(alloc, u64::from(kind)),
        FrameFault::TooLong { said, limit } => past_limit(alloc, said, limit),
        FrameFault::Memory => memory(alloc),
    }
}

/// The line that says why a source isn't followed with a replica of this name.
pub fn follow_line(alloc: Global, name: &Text, refusal: FollowRefusal) -> Result<Bytes, Memory>
    ensures { IfOk result (λ line. line ≡ spec.refusal_line name.now refusal) }
{
    match refusal {
        FollowRefusal::Store(refusal) => refusal_line(alloc, name, refusal),
        FollowRefusal::Unread(fault) => unread_line(alloc, fault),
        FollowRefusal::NoSnapshot => frame(alloc, "no snapshot"),
        FollowRefusal::Payload => frame(alloc, "payload"),
    }
}

/// The exit status of a source of which no frame is read.
fn unread_status(fault: FrameFault) -> u8
    ensures { result ≡ spec.unread_status fault }
{
    match fault {
        FrameFault::ReadFault => 3,
        FrameFault::Cut { .. } | FrameFault::BadFrame { .. } => 1,
        FrameFault::TooLong { .. } => 7,
        FrameFault::Memory => 6,
    }
}

/// The exit status of such a refusal: that of the store; 3 where a read of the source failed, 6 where memory ran out, 7 where a frame
/// says that it has too long a payload, and else 1.
pub fn follow_status(refusal: FollowRefusal) -> u8
    ensures { result ≡ spec.refusal_status refusal }
{
    match refusal {
        FollowRefusal::Store(refusal) => refusal_status(refusal),
        FollowRefusal::Unread(fault) => unread_status(fault),
        FollowRefusal::NoSnapshot | FollowRefusal::Payload => 1,
    }
}
