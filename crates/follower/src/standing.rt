//! Where frames stand beside a revision.
ghost use Rattle.follower.specs.Standings.{IsStanding};

use crate::frame::Frame;

/// By how much a change raises the revision.
const STEP: u64 = 1;

/// Where a frame stands beside a revision: at or before it, next, or behind a gap.
#[derive(Clone, Copy)]
pub enum Standing {
    Old,
    Next,
    Gap,
}

/// Where a frame stands beside a revision. A `C` is next where its revision is a later one, and another frame where it is the one after.
pub fn standing_of(had: u64, frame: &Frame) -> Standing
    ensures { IsStanding had frame.now result }
{
    let got = frame.revision;
    if got <= had {
        return Standing::Old;
    }
    if frame.kind == b'C' {
        return Standing::Next;
    }
    if got - had > STEP {
        return Standing::Gap;
    }
    Standing::Next
}
