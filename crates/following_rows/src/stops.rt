//! A stop before and inside each call of a disk while a follower is made and takes a frame, and then an opening.
ghost use Rattle.std.specs.Prelude.{◌<◌};

use follower::{
    Accepted, FollowFault, Follower, Frame, crashes_show_one_image, genuine_frames_lead_on,
    genuine_snapshots_begin, next_frame,
};
use hl_base::{MemDisk, MemSource, Memory};
use std::alloc::Global;
use std::test::Fail;
use text_store::StoreFault;

/// An entry of 68 bytes.
const ENTRY: [u8; 68] = *b"2024-01-05 bread\n    expenses:food  10 EUR\n    assets:cash  -10 EUR\n";

/// The frames of a store of the empty text to which the entry was added: a `C` of 21 bytes and an `S` of 101.
pub(crate) const FED: [u8; 122] =
    *b"\0\0\0\0\0\0\0\0C\x04\0\0\0\0\0\0\0\0\0\0\0\x01\0\0\0\0\0\0\0S\x54\0\0\0\0\0\0\0\0\0\0\0\0\0\0\0\0\0\0\0\0\0\0\x002024-01-05 bread\n    expenses:food  10 EUR\n    assets:cash  -10 EUR\n";

/// How many bytes of a piece have reached the file: none, its first, parts and more than any piece has.
const PARTS: [u64; 6] = [0, 1, 9, 20, 32, 200];

// The frame with which bytes begin.
fn frame_of(alloc: Global, bytes: &[u8]) -> Result<Frame, Fail> {
    let mut source = MemSource::new(alloc, bytes, &[])?;
    match next_frame(alloc, &mut source) {
        Ok(Some(frame)) => Ok(frame),
        _ => Err(Fail::new("a frame")),
    }
}

// The files of a follower.
#[derive(Drop)]
struct Files {
    first: MemDisk,
    second: MemDisk,
}

// An empty file that keeps a record of its calls.
fn file(alloc: Global) -> Result<MemDisk, Memory> {
    MemDisk::new(alloc, b"", 250, Some((80, 2000)), &[])
}

// The files of a follower that was made of a frame and has taken another one.
fn followed(alloc: Global, snapshot: &Frame, next: &Frame) -> Result<Files, Fail> {
    match Follower::create(alloc, file(alloc)?, file(alloc)?, snapshot, 1048576) {
        Ok(mut follower) => {
            let taken = follower.accept(alloc, next);
            let (first, second) = follower.close();
            if taken != Ok(Accepted::Taken { revision: 1 }) {
                return Err(Fail::new("it is taken"));
            }
            Ok(Files { first, second })
        }
        Err((_first, _second, _fault)) => Err(Fail::new("it is made")),
    }
}

// Whether two files have no image, that of the snapshot, or that with the entry.
fn is_one(alloc: Global, first: MemDisk, second: MemDisk) -> bool {
    match Follower::open(alloc, first, second) {
        Ok(opened) => {
            let image = opened.image();
            let text = image.text.as_slice();
            image.revision == 0 && text.is_empty()
                || image.revision == 1 && text == ENTRY.as_slice()
        }
        Err((_first, _second, fault)) => {
            fault == FollowFault::Store(StoreFault::NotAStore { at: 0 })
        }
    }
}

// Stopped inside a call of the first file or of the second, the files have one of the images.
fn stops_inside(alloc: Global, files: &Files, in_second: bool, call: u64) -> Result<(), Fail>
    requires { 0 < call }
{
    for bytes in PARTS {
        let first = files
            .first
            .stopped(alloc, if in_second { u64::MAX } else { call }, bytes)?;
        let second = files
            .second
            .stopped(alloc, if in_second { call } else { u64::MAX }, bytes)?;
        if !is_one(alloc, first, second) {
            return Err(Fail::new("one of the images"));
        }
    }
    Ok(())
}

// Stopped at any call of the first file or of the second, the files have one of the images.
fn stops(alloc: Global, files: &Files, in_second: bool, calls: u64) -> Result<(), Fail> {
    for before in 0..calls {
        if before < 1000 {
            stops_inside(alloc, files, in_second, before + 1)?;
        }
    }
    Ok(())
}

// Stopped at any call of the first file or of the second while frames are taken, the files have one of the images.
fn followed_stops(alloc: Global, in_second: bool) -> Result<(), Fail> {
    let snapshot = frame_of(alloc, &FED)?;
    let next = frame_of(alloc, &FED[21..])?;
    let files = followed(alloc, &snapshot, &next)?;
    let calls = if in_second {
        files.second.calls()
    } else {
        files.first.calls()
    };
    stops(alloc, &files, in_second, calls)
}

#[test]
fn a_stop_at_a_call_leaves_one_of_the_images(rt: HostRuntime) -> Result<(), Fail> {
    genuine_snapshots_begin();
    genuine_frames_lead_on();
    crashes_show_one_image::<MemDisk>();
    followed_stops(rt.alloc(), false)?;
    followed_stops(rt.alloc(), true)
}
