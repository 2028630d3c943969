//! Why a source isn't followed, and what is told where it was.
ghost use Rattle.std.specs.Prelude.{◌≡◌};
ghost use Rattle.store_following.specs.Refusals as spec;

use follow_commands::{Stop, Tally};
use follower::{FollowFault, FrameFault};
use store_text::{StoreRefusal, unopened};

/// Why a source isn't followed.
#[derive(Clone, Copy, Debug, PartialEq, Eq)]
pub enum FollowRefusal {
    /// The files of the replica weren't taken, made or opened, or it has no room.
    Store(StoreRefusal),
    /// No frame was read.
    Unread(FrameFault),
    /// The source of a new replica has no `C` at its front.
    NoSnapshot,
    /// A frame's payload doesn't read, its part lies outside the text, or its revision is above 2^62.
    Payload,
}

/// What is told of a source that was followed to its end: the replica's revision, and what became of the frames.
#[derive(Clone, Copy, Debug, PartialEq, Eq)]
pub struct Followed {
    pub revision: u64,
    pub tally: Tally,
}

/// The refusal of a frame, as that of a command.
pub(crate) fn of_fault(fault: FollowFault) -> FollowRefusal
    ensures { result ≡ spec.of_fault fault }
{
    match fault {
        FollowFault::Store(cause) => FollowRefusal::Store(unopened(cause)),
        FollowFault::NotASnapshot { .. } => FollowRefusal::NoSnapshot,
        FollowFault::BadPayload { .. } => FollowRefusal::Payload,
        FollowFault::Memory => FollowRefusal::Store(StoreRefusal::Memory),
    }
}

/// That of what stopped it.
fn of_stop(stop: Stop) -> FollowRefusal
    ensures { result ≡ spec.of_stop stop }
{
    match stop {
        Stop::Unread(fault) => FollowRefusal::Unread(fault),
        Stop::Refused(fault) => of_fault(fault),
    }
}

/// What is told at the end of a source, or of what stopped it.
pub(crate) fn told_of(
    done: Result<(), Stop>,
    revision: u64,
    tally: Tally,
) -> Result<Followed, FollowRefusal>
    ensures { result ≡ spec.told_of done revision tally }
{
    match done {
        Ok(()) => Ok(Followed { revision, tally }),
        Err(stop) => Err(of_stop(stop)),
    }
}
