//! A fault at each call of a disk, once and for ever, and then an opening.
use crate::files::{
    Deed, Files, MADE, Shown, acknowledged, again, calls, done_at_last, failing, is_shown, numbers,
    opened, tried,
};
use hl_base::{Disk, Memory};
use std::alloc::Global;
use std::test::Fail;

/// Files, what is done to them, and the images before and after.
#[derive(Clone, Copy)]
struct Case<'a> {
    first: &'a [u8],
    deed: Deed,
    old: Shown<'a>,
    new: Shown<'a>,
}

// The image that files open as once no call fails.
fn left(alloc: Global, files: &Files) -> Result<Option<text_store::Image>, Fail> {
    let again = again(alloc, files)?;
    opened(alloc, again.first, again.second)
}

// With calls of a file that fail, the files have the old image or the new, and the new one where that was acknowledged.
// It isn't where a call failed.
fn leaves(alloc: Global, case: &Case, in_second: bool, fails: &[u64]) -> Result<(), Fail> {
    let files = failing(alloc, case.first, b"", in_second, fails)?;
    let (acknowledged, files) = tried(alloc, files, case.deed)?;
    let failed = files.first.faults() > 0 || files.second.faults() > 0;
    if acknowledged == failed {
        return Err(Fail::new("it is acknowledged where no call failed"));
    }
    let image = left(alloc, &files)?;
    let is_good = is_shown(&image, case.new) || !acknowledged && is_shown(&image, case.old);
    if !is_good {
        return Err(Fail::new("the old image or the new"));
    }
    Ok(())
}

// The same for each call of a file, which fails once and for ever.
fn each_leaves(alloc: Global, case: &Case, in_second: bool) -> Result<(), Fail> {
    for call in 1..22u64 {
        leaves(alloc, case, in_second, &[call])?;
        leaves(alloc, case, in_second, &numbers(alloc, call, 30)?)?;
    }
    Ok(())
}

/// Each deed to files that it fits.
const CASES: [Case; 4] = [
    Case {
        first: b"",
        deed: Deed::Create,
        old: None,
        new: Some((0, b"b\n")),
    },
    Case {
        first: &MADE,
        deed: Deed::Append,
        old: Some((0, b"")),
        new: Some((1, b"a\n")),
    },
    Case {
        first: &MADE,
        deed: Deed::Keep(2),
        old: Some((0, b"")),
        new: Some((2, b"b\n")),
    },
    Case {
        first: b"HLSTORE\x01\0\0\x10\0\0\0\0\0\x01T\x02\0\0\0\0\0\0\0b\n\0",
        deed: Deed::Open,
        old: Some((0, b"b\n")),
        new: Some((0, b"b\n")),
    },
];

#[test]
fn a_fault_leaves_the_old_image_or_the_new(rt: HostRuntime) -> Result<(), Fail> {
    for case in CASES {
        each_leaves(rt.alloc(), &case, false)?;
        each_leaves(rt.alloc(), &case, true)?;
    }
    Ok(())
}

// A fault at a call of a deed, one at a call of the repair after it, and then the deed again.
fn comes_at_last(
    alloc: Global,
    in_second: bool,
    deed: Deed,
    fails: &[u64],
    new: Shown,
) -> Result<(), Fail> {
    let files = failing(alloc, &MADE, b"", in_second, fails)?;
    let files = acknowledged(done_at_last(alloc, files, deed)?)?;
    if !is_shown(&left(alloc, &files)?, new) {
        return Err(Fail::new("the new image"));
    }
    Ok(())
}

// The same for a call of a deed and each of the repair's so many calls.
fn come_at_last(
    alloc: Global,
    in_second: bool,
    deed: Deed,
    call: u64,
    repair: u64,
    new: Shown,
) -> Result<(), Fail> {
    for mending in 0..repair {
        let second = call.saturating_add(mending).saturating_add(1);
        comes_at_last(alloc, in_second, deed, &[call, second], new)?;
    }
    Ok(())
}

#[test]
fn a_fault_in_append_and_in_repair(rt: HostRuntime) -> Result<(), Fail> {
    let opening = calls(rt.alloc(), false, Deed::Open)?;
    let all = calls(rt.alloc(), false, Deed::Append)?;
    for before in opening..all {
        let call = before.saturating_add(1);
        come_at_last(rt.alloc(), false, Deed::Append, call, 4, Some((1, b"a\n")))?;
    }
    Ok(())
}

#[test]
fn a_fault_in_checkpoint_and_in_repair(rt: HostRuntime) -> Result<(), Fail> {
    let opening = calls(rt.alloc(), true, Deed::Open)?;
    let all = calls(rt.alloc(), true, Deed::Keep(2))?;
    for before in opening..all {
        let call = before.saturating_add(1);
        come_at_last(rt.alloc(), true, Deed::Keep(2), call, 2, Some((2, b"b\n")))?;
    }
    Ok(())
}
