//! Connections of `talk`: what must be sent for the bytes that come, however they come, and where a call fails.
use crate::case::{Case, answer_beside, answer_in_cuts, nothing};
use crate::messages::{ADDED, GET, LISTED, joined};
use crate::runs::{case_of, expect};
use std::test::Fail;

/// Both after one another.
const GET_AND_ADD: &[u8] =
    b"GET /balance HTTP/1.1\r\nHost: a\r\n\r\nPOST /add HTTP/1.1\r\nHost: a\r\nContent-Length: 82\r\n\r\nentry=2024-01-05+gift%0A++++assets%3Acash++30+EUR%0A++++income%3Agifts++-30+EUR%0A";

#[test]
fn answers_the_same_byte_by_byte(rt: HostRuntime) -> Result<(), Fail> {
    let sent = joined(rt.alloc(), LISTED, ADDED)?;
    let case = case_of(&["talk"], GET_AND_ADD);
    let seen = answer_beside(&rt, rt.alloc(), &case, &nothing())?;
    expect(&rt, &seen, 0, sent.as_slice(), b"", "at once");
    let seen = answer_in_cuts(&rt, rt.alloc(), &case, 1)?;
    expect(&rt, &seen, 0, sent.as_slice(), b"", "byte by byte");
    Ok(())
}

#[test]
fn tells_faults_of_a_connection(rt: HostRuntime) -> Result<(), Fail> {
    for (text, read_fails, write_fails, error_fails, status, sent, error) in [
        (
            GET,
            [1].as_slice(),
            [].as_slice(),
            [].as_slice(),
            3,
            b"".as_slice(),
            b"error: read fault\n".as_slice(),
        ),
        (
            GET,
            [2].as_slice(),
            [].as_slice(),
            [].as_slice(),
            3,
            LISTED,
            b"error: read fault\n".as_slice(),
        ),
        (
            GET_AND_ADD,
            [].as_slice(),
            [1].as_slice(),
            [].as_slice(),
            4,
            b"".as_slice(),
            b"error: write fault\n".as_slice(),
        ),
        (
            GET_AND_ADD,
            [].as_slice(),
            [2].as_slice(),
            [].as_slice(),
            4,
            LISTED,
            b"error: write fault\n".as_slice(),
        ),
        (
            b"GE".as_slice(),
            [].as_slice(),
            [].as_slice(),
            [1].as_slice(),
            4,
            b"".as_slice(),
            b"".as_slice(),
        ),
    ] {
        let case = Case {
            words: &["talk"],
            text,
            read_fails,
            write_fails,
            error_fails,
        };
        let seen = answer_beside(&rt, rt.alloc(), &case, &nothing())?;
        expect(&rt, &seen, status, sent, error, "a fault");
    }
    Ok(())
}
