//! A stop before and inside each call of a disk, and then an opening; those of other deeds are in `crash_rows`.
ghost use Rattle.std.specs.Prelude.{◌<◌};

use crate::files::{
    Deed, Files, MADE, Shown, acknowledged, again, files_of, is_shown, stopped, tried,
};
use std::alloc::Global;
use std::test::Fail;

/// How many bytes of a piece have reached the file: none, its first, parts and more than any piece has.
const PARTS: [u64; 6] = [0, 1, 9, 20, 32, 200];

// Stopped inside a call, the files have the one image or the other.
fn stops_inside(
    alloc: Global,
    files: &Files,
    in_second: bool,
    call: u64,
    images: (Shown, Shown),
) -> Result<(), Fail>
    requires { 0 < call }
{
    for bytes in PARTS {
        let image = stopped(alloc, files, in_second, call, bytes)?;
        if !is_shown(&image, images.0) && !is_shown(&image, images.1) {
            return Err(Fail::new("the one image or the other"));
        }
    }
    Ok(())
}

// Stopped at any call of a file, the files have the old image or the new, and the new one once all calls were made.
fn stops(
    alloc: Global,
    files: &Files,
    in_second: bool,
    old: Shown,
    new: Shown,
) -> Result<(), Fail> {
    let calls = if in_second {
        files.second.calls()
    } else {
        files.first.calls()
    };
    for before in 0..calls {
        if before < 1000 {
            stops_inside(alloc, files, in_second, before + 1, (old, new))?;
        }
    }
    if !is_shown(&stopped(alloc, files, in_second, u64::MAX, 0)?, new) {
        return Err(Fail::new("the new image once it is acknowledged"));
    }
    Ok(())
}

// Files in the second of which a text is kept at revision 2.
fn kept(alloc: Global) -> Result<Files, Fail> {
    let made = files_of(alloc, &MADE, b"")?;
    acknowledged(tried(alloc, made, Deed::Keep(2))?)
}

#[test]
fn a_stop_in_the_checkpoint_back(rt: HostRuntime) -> Result<(), Fail> {
    let kept = again(rt.alloc(), &kept(rt.alloc())?)?;
    let files = acknowledged(tried(rt.alloc(), kept, Deed::Keep(7))?)?;
    stops(
        rt.alloc(),
        &files,
        false,
        Some((2, b"b\n")),
        Some((7, b"b\n")),
    )
}

#[test]
fn a_stop_in_append_to_the_second_file(rt: HostRuntime) -> Result<(), Fail> {
    let kept = again(rt.alloc(), &kept(rt.alloc())?)?;
    let files = acknowledged(tried(rt.alloc(), kept, Deed::Append)?)?;
    stops(
        rt.alloc(),
        &files,
        true,
        Some((2, b"b\n")),
        Some((3, b"a\nb\n")),
    )
}

// Stopped at any call of an opening, the files have the image.
fn stops_in_open(alloc: Global, first: &[u8], in_second: bool, image: Shown) -> Result<(), Fail> {
    let found = files_of(alloc, first, b"")?;
    let files = acknowledged(tried(alloc, found, Deed::Open)?)?;
    stops(alloc, &files, in_second, image, image)
}

#[test]
fn a_stop_in_open(rt: HostRuntime) -> Result<(), Fail> {
    let torn =
        b"HLSTORE\x02\0\0\x10\0\0\0\0\0\x01\0\0\0\0\0\0\0\0\0\0\0\0\0\0\0\x01C\x04\0\0\0\0\0\0\0\0\0\0\0\x01S\x12\0\0".as_slice();
    stops_in_open(rt.alloc(), torn, false, Some((0, b"")))?;
    stops_in_open(rt.alloc(), &MADE, false, Some((0, b"")))
}
