//! Runs over a store among the files of a shelf, and takes and calls of its disks that fail.
use crate::case::{Beside, answer_beside};
use crate::runs::{case_of, expect};
use std::test::Fail;

/// A store of one entry.
const HOME: &[u8] =
    b"HLSTORE\x02\x00\x00\x01\x00\x00\x00\x00\x00\x01\x00\x00\x00\x00\x00\x00\x00\x00\x00\x00\x00\x00\x00\x00\x00\x01C\x48\x00\x00\x00\x00\x00\x00\x00\x00\x00\x00\x002024-01-05 bread\n    expenses:food  10 EUR\n    assets:cash  -10 EUR\n\x00";

#[test]
fn reads_a_store(rt: HostRuntime) -> Result<(), Fail> {
    for (words, load_fails, disk_fails, status, output, error) in [
        (
            ["export", "none"].as_slice(),
            [].as_slice(),
            [].as_slice(),
            8,
            b"".as_slice(),
            b"error: absent: none\n".as_slice(),
        ),
        (
            ["export", "home"].as_slice(),
            [3].as_slice(),
            [].as_slice(),
            0,
            b"2024-01-05 bread\n    expenses:food  10 EUR\n    assets:cash  -10 EUR\n".as_slice(),
            b"".as_slice(),
        ),
        (
            ["export", "home"].as_slice(),
            [1].as_slice(),
            [].as_slice(),
            3,
            b"".as_slice(),
            b"error: read fault\n".as_slice(),
        ),
        (
            ["check", "--store", "home"].as_slice(),
            [2].as_slice(),
            [].as_slice(),
            3,
            b"".as_slice(),
            b"error: read fault\n".as_slice(),
        ),
        (
            ["export", "home"].as_slice(),
            [].as_slice(),
            [1].as_slice(),
            5,
            b"".as_slice(),
            b"error: disk fault\n".as_slice(),
        ),
    ] {
        let beside = Beside {
            name: "home",
            text: HOME,
            load_fails,
            disk_fails,
            refused: "a.c",
        };
        let seen = answer_beside(&rt, rt.alloc(), &case_of(words, b""), &beside)?;
        expect(&rt, &seen, status, output, error, "a store");
    }
    Ok(())
}
