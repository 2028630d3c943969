//! The frames of a store, and a replica that follows frames.
ghost use Rattle.std.specs.Prelude.{◌≡◌, IfErr};
ghost use Rattle.command_line.specs.Frames as spec;
ghost use Rattle.command_line.specs.StoreTasks.{IsOfStored, RefusedAs};
ghost use Rattle.store_following.specs.Lines as lines;

use crate::outside::Outside;
use crate::stored::refuse_store;
use command_words::Following;
use hl_base::{Bytes, Memory, Shelf, Sink, Source, Text};
use query::Maker;
use refusals::Refusal;
use std::alloc::Global;
use store_feeding::feed_store;
use store_following::{
    FollowRefusal, Followed, follow_line, follow_status, follow_store, followed_line,
};

/// The frames of a store.
pub(crate) fn feed<J: Source, O: Sink, E: Sink, S: Shelf, M: Maker>(
    alloc: Global,
    name: &Text,
    outside: &mut Outside<J, O, E, S, M>,
) -> Result<Bytes, Refusal>
    ensures feeds { spec.FeedsFrames S.Shelf S.Disk.Disk name.now outside.old outside.new result }
    ensures kind { IfErr result IsOfStored }
{
    match feed_store(alloc, name, &mut outside.shelf) {
        Ok(frames) => Ok(frames),
        Err(refusal) => Err(refuse_store(alloc, name, refusal)),
    }
}

/// What is said of frames that were followed to their end.
fn followed_said(alloc: Global, followed: &Followed) -> Result<Bytes, Refusal>
    ensures told { spec.ToldFollowed (lines.followed_line followed.now) result }
    ensures kind { IfErr result IsOfStored }
{
    match followed_line(alloc, followed) {
        Ok(line) => Ok(line),
        Err(Memory) => Err(Refusal::Memory),
    }
}

/// The refusal of frames, of a replica of this name.
fn refuse_frames(alloc: Global, name: &Text, refusal: FollowRefusal) -> Refusal
    ensures refused { RefusedAs (lines.refusal_status refusal) (lines.refusal_line name.now refusal)
        result }
    ensures kind { IsOfStored result }
{
    let status = follow_status(refusal);
    match follow_line(alloc, name, refusal) {
        Ok(line) => Refusal::Line { status, line },
        Err(Memory) => Refusal::Memory,
    }
}

/// Has a replica follow the frames that the input is.
pub(crate) fn follow<J: Source, O: Sink, E: Sink, S: Shelf, M: Maker>(
    alloc: Global,
    what: &Following,
    outside: &mut Outside<J, O, E, S, M>,
) -> Result<Bytes, Refusal>
    ensures follows { spec.FollowsFrames J.Source S.Shelf S.Disk.Disk what.now outside.old
        outside.new result }
    ensures kind { IfErr result IsOfStored }
{
    match follow_store(
        alloc,
        &what.replica,
        what.limit,
        &mut outside.streams.input,
        &mut outside.shelf,
    ) {
        Ok(followed) => followed_said(alloc, &followed),
        Err(refusal) => Err(refuse_frames(alloc, &what.replica, refusal)),
    }
}
