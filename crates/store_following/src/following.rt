//! A replica among the files of a shelf that follows a source.
ghost use Rattle.std.specs.Prelude.{◌≡◌};
ghost use Rattle.store_text.specs.Shelved.{second_name as second_name_of};
ghost use Rattle.store_following.specs.Following.{FollowsStore};

use crate::refusal::{FollowRefusal, Followed};
use crate::replicas::follow_disks;
use hl_base::{Shelf, Source, Text};
use std::alloc::Global;
use store_text::{StoreRefusal, give_back_disks, second_name, take_disks};

/// Follows with the replica of this name, whose second file has the other name.
fn follow_beside<J: Source, S: Shelf>(
    alloc: Global,
    name: &Text,
    beside: &Text,
    limit: u64,
    source: &mut J,
    shelf: &mut S,
) -> Result<Followed, FollowRefusal>
    requires { beside.now ≡ second_name_of name.now }
    ensures { FollowsStore J.Source S.Shelf S.Disk.Disk name.now limit source.old source.new
        shelf.old shelf.new result }
{
    match take_disks(alloc, shelf, name, beside, true) {
        Ok((first, second)) => {
            let (first, second, done) = follow_disks(alloc, source, first, second, limit);
            give_back_disks(shelf, name, beside, first, second);
            done
        }
        Err(refusal) => Err(FollowRefusal::Store(refusal)),
    }
}

/// Has the replica of this name accept the frames of a source, one after the other, up to its end. Both disks are taken from the shelf,
/// made where they are absent, and come back. A replica that isn't empty is opened before a byte of the source is read; an absent or
/// empty one is made of the first frame, which has to be a `C`, with a limit of each file's length in bytes. It is refused where a
/// disk couldn't be taken, where the files are no store or one of a later edition, where a call of a disk failed, where no frame
/// is read or one has a payload that doesn't read, where the replica has no room, and where memory ran out. At a refusal the frames
/// before it are kept. Each other file stays.
pub fn follow_store<J: Source, S: Shelf>(
    alloc: Global,
    name: &Text,
    limit: u64,
    source: &mut J,
    shelf: &mut S,
) -> Result<Followed, FollowRefusal>
    ensures { FollowsStore J.Source S.Shelf S.Disk.Disk name.now limit source.old source.new
        shelf.old shelf.new result }
{
    let Ok(beside) = second_name(alloc, name) else {
        return Err(FollowRefusal::Store(StoreRefusal::Memory));
    };
    follow_beside(alloc, name, &beside, limit, source, shelf)
}
