//! Following a source to its end.
ghost use Rattle.std.specs.Prelude.{◌<◌, ◌^◌, IfErr};
ghost use Rattle.follow_commands.specs.Walks.{Follows, IfFailed, OneIsAccepted, StepsOn};
ghost use Rattle.follow_commands.specs.Genuine.{LeadsOn};
ghost use Rattle.follow_commands.specs.Whole.{CatchesUp};

use crate::tally::Tally;
use follower::{Accepted, FollowFault, Follower, Frame, FrameFault, next_frame};
use hl_base::{Disk, Source};
use std::alloc::Global;

/// Why frames aren't followed on.
#[derive(Clone, Copy, Debug, PartialEq, Eq)]
pub enum Stop {
    /// No frame was read.
    Unread(FrameFault),
    /// A frame was refused.
    Refused(FollowFault),
}

// Has a frame accepted.
fn accept_one<D: Disk>(
    alloc: Global,
    follower: &mut Follower<D>,
    frame: &Frame,
) -> Result<Option<Accepted>, Stop>
    ensures accepts { OneIsAccepted D.Disk follower.old frame.now follower.new result }
    ensures small { frame.now.revision < 2 ^ 64 }
{
    let _revision = frame.revision;
    match follower.accept(alloc, frame) {
        Ok(accepted) => Ok(Some(accepted)),
        Err(fault) => Err(Stop::Refused(fault)),
    }
}

// Reads the next frame and has it accepted; none is the end of the source.
fn follow_next<J: Source, D: Disk>(
    alloc: Global,
    source: &mut J,
    follower: &mut Follower<D>,
) -> Result<Option<Accepted>, Stop>
    ensures steps { StepsOn J.Source D.Disk source.old source.new follower.old follower.new result }
    ensures sound { J.IsSound source.old → IfErr result (λ stop. IfFailed stop ⊥)
        × J.IsSound source.new }
{
    match next_frame(alloc, source) {
        Err(fault) => Err(Stop::Unread(fault)),
        Ok(found) => match found {
            None => Ok(None),
            Some(frame) => accept_one(alloc, follower, &frame),
        },
    }
}

// Has a follower accept the frames of a source up to its end, one after the other, and counts them.
fn follow_all<J: Source, D: Disk>(
    alloc: Global,
    source: &mut J,
    follower: &mut Follower<D>,
    tally: &mut Tally,
) -> Result<(), Stop>
    ensures { Follows J.Source D.Disk source.old source.new follower.old follower.new
        tally.entry.now tally.exit.now result }
{
    for _ in 0..u64::MAX {
        match follow_next(alloc, source, follower) {
            Err(stop) => return Err(stop),
            Ok(next) => match next {
                None => return Ok(()),
                Some(accepted) => *tally = tally.counting(accepted),
            },
        }
    }
    Err(Stop::Refused(FollowFault::Memory))
}

/// Has a follower accept the frames of a source up to its end, one after the other, and counts them. At a refusal the frames before it
/// are kept and counted, and no byte behind it is read.
pub fn follow_source<J: Source, D: Disk>(
    alloc: Global,
    source: &mut J,
    follower: &mut Follower<D>,
    tally: &mut Tally,
) -> Result<(), Stop>
    ensures follows { Follows J.Source D.Disk source.old source.new follower.old follower.new
        tally.entry.now tally.exit.now result }

    // Over frames of one history, in any cutting into reads, a follower that has an image of it has one that isn't earlier.
    ensures genuine { LeadsOn (J.left source.old) follower.old.image follower.new.image }

    // Over all frames of a history in their order, one that has an image of it, or one from before it, has the last one at Ok.
    ensures whole { CatchesUp (J.left source.old) follower.old.image follower.new.image result }
{
    follow_all(alloc, source, follower, tally)
}
