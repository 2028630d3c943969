//! A replica in two disks that follows a source.
ghost use Rattle.std.specs.Prelude.{◌≡◌, ◌<◌, ◌^◌, ◌⊎◌};
ghost use Rattle.store_following.specs.Replicas.{ByLength, FollowsDisks, IsLed, IsMade, IsOpened, IsUnmade, IsUnopened, Starts};

use crate::lengths::are_empty;
use crate::refusal::{FollowRefusal, Followed, of_fault, told_of};
use follow_commands::{Tally, follow_source};
use follower::{Follower, Frame, next_frame};
use hl_base::{Disk, Source};
use std::alloc::Global;
use store_text::StoreRefusal;

/// The revision of a replica.
fn revision_of<D: Disk>(follower: &Follower<D>) -> u64
    ensures { result ≡ follower.now.image.revision }
{
    follower.image().revision
}

/// Follows a source to its end or a refusal, and closes the replica.
fn lead<J: Source, D: Disk>(
    alloc: Global,
    source: &mut J,
    follower: Follower<D>,
    tally: Tally,
) -> (D, D, Result<Followed, FollowRefusal>)
    ensures { IsLed J.Source D.Disk source.old source.new follower tally (result.0, result.1)
        result.2 }
{
    let mut follower = follower;
    let mut tally = tally;
    let done = follow_source(alloc, source, &mut follower, &mut tally);
    let revision = revision_of(&follower);
    let (first, second) = follower.close();
    (first, second, told_of(done, revision, tally))
}

/// Makes a replica of the first frame of a source, with a limit of each file's length in bytes, and leads it on.
fn make<J: Source, D: Disk>(
    alloc: Global,
    source: &mut J,
    first: D,
    second: D,
    frame: &Frame,
    limit: u64,
) -> (D, D, Result<Followed, FollowRefusal>)
    ensures makes { IsMade J.Source D.Disk frame.now source.old source.new (first, second)
        (result.0, result.1) limit result.2
        ⊎ IsUnmade D.Disk frame.now source.old source.new (first, second) (result.0, result.1) limit
        result.2 }
    ensures small { frame.now.revision < 2 ^ 64 }
{
    let _revision = frame.revision;
    match Follower::create(alloc, first, second, frame, limit) {
        Ok(follower) => {
            let tally = Tally {
                taken: 1,
                old: 0,
                gaps: 0,
            };
            lead(alloc, source, follower, tally)
        }
        Err((first, second, fault)) => (first, second, Err(of_fault(fault))),
    }
}

/// Reads the first frame of a source, and makes a replica of it.
fn begin<J: Source, D: Disk>(
    alloc: Global,
    source: &mut J,
    first: D,
    second: D,
    limit: u64,
) -> (D, D, Result<Followed, FollowRefusal>)
    ensures { Starts J.Source D.Disk source.old source.new (first, second) (result.0, result.1)
        limit result.2 }
{
    match next_frame(alloc, source) {
        Ok(found) => match found {
            Some(frame) => make(alloc, source, first, second, &frame, limit),
            None => (first, second, Err(FollowRefusal::NoSnapshot)),
        },
        Err(fault) => (first, second, Err(FollowRefusal::Unread(fault))),
    }
}

/// Opens two disks as a replica, and leads it on.
fn go_on<J: Source, D: Disk>(
    alloc: Global,
    source: &mut J,
    first: D,
    second: D,
) -> (D, D, Result<Followed, FollowRefusal>)
    ensures { IsOpened J.Source D.Disk source.old source.new (first, second) (result.0, result.1)
        result.2
        ⊎ IsUnopened D.Disk source.old source.new (first, second) (result.0, result.1) result.2 }
{
    match Follower::open(alloc, first, second) {
        Ok(follower) => {
            let tally = Tally {
                taken: 0,
                old: 0,
                gaps: 0,
            };
            lead(alloc, source, follower, tally)
        }
        Err((first, second, fault)) => (first, second, Err(of_fault(fault))),
    }
}

/// Follows with two disks that are empty or not.
fn by_length<J: Source, D: Disk>(
    alloc: Global,
    source: &mut J,
    first: D,
    second: D,
    empty: bool,
    limit: u64,
) -> (D, D, Result<Followed, FollowRefusal>)
    ensures { ByLength J.Source D.Disk source.old source.new (first, second) (result.0, result.1)
        limit result.2 empty }
{
    if empty {
        begin(alloc, source, first, second, limit)
    } else {
        go_on(alloc, source, first, second)
    }
}

/// Follows a source to its end or a refusal with two disks, the first and the second, which both come back: empty ones become a
/// replica of its first frame, with a limit of each file's length in bytes, and others are opened before a byte of it is read.
pub fn follow_disks<J: Source, D: Disk>(
    alloc: Global,
    source: &mut J,
    first: D,
    second: D,
    limit: u64,
) -> (D, D, Result<Followed, FollowRefusal>)
    ensures { FollowsDisks J.Source D.Disk source.old source.new (first, second)
        (result.0, result.1) limit result.2 }
{
    let mut first = first;
    let mut second = second;
    match are_empty(&mut first, &mut second) {
        Ok(empty) => by_length(alloc, source, first, second, empty, limit),
        Err(_) => (
            first,
            second,
            Err(FollowRefusal::Store(StoreRefusal::DiskFault)),
        ),
    }
}
