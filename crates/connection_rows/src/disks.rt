//! Additions to a machine of which calls of a disk fail.
use crate::ends::{at_once, is};
use crate::messages::{ADD, ADDED};
use crate::served::ended_of;
use std::alloc::Global;
use std::test::Fail;
use web_desk::ConnEnd;

/// An addition of another entry.
const BREAD: &[u8] =
    b"POST /add HTTP/1.1\r\nContent-Length: 84\r\n\r\nentry=2024-01-05+bread%0A++++expenses%3Afood++10+EUR%0A++++assets%3Acash++-10+EUR%0A";

const DOWNLOAD: &[u8] = b"GET /download HTTP/1.1\r\n\r\n";

/// The text with the last entry alone.
const KEPT: &[u8] =
    b"HTTP/1.1 200 OK\r\nContent-Type: text/plain; charset=utf-8\r\nX-Revision: 1\r\nContent-Length: 66\r\n\r\n2024-01-05 gift\n    assets:cash  30 EUR\n    income:gifts  -30 EUR\n";

/// The reply to an addition at which a disk failed.
const NOT_KEPT: &[u8] =
    b"HTTP/1.1 503 Service Unavailable\r\nContent-Type: text/plain; charset=utf-8\r\nX-Revision: 0\r\nContent-Length: 18\r\n\r\nerror: disk fault\n";

/// As many additions as calls are to fail, another one, and then the text.
fn coming_after(alloc: Global, faults: usize) -> Result<Vec<u8>, Fail> {
    let mut coming = Vec::new(alloc);
    for _ in 0..faults {
        coming.extend_from_slice(BREAD)?;
    }
    coming.extend_from_slice(ADD)?;
    coming.extend_from_slice(DOWNLOAD)?;
    Ok(coming)
}

/// The replies: each addition at which a call failed isn't kept, and the last one is.
fn sent_after(alloc: Global, faults: usize) -> Result<Vec<u8>, Fail> {
    let mut sent = Vec::new(alloc);
    for _ in 0..faults {
        sent.extend_from_slice(NOT_KEPT)?;
    }
    sent.extend_from_slice(ADDED)?;
    sent.extend_from_slice(KEPT)?;
    Ok(sent)
}

/// Where these calls fail, each in an addition of its own, the next addition is kept.
fn goes_on(alloc: Global, disk_fails: &[u64]) -> Result<bool, Fail> {
    let coming = coming_after(alloc, disk_fails.len())?;
    let sent = sent_after(alloc, disk_fails.len())?;
    let ended = ended_of(alloc, disk_fails, &at_once(coming.as_slice()))?;
    Ok(is(&ended, ConnEnd::Closed, sent.as_slice()))
}

/// The first addition writes and syncs the record in the calls 11 and 12 of its disk, and opens its gate in 13 and 14;
/// with 12 and 13 the repair before the second addition fails too.
#[test]
fn goes_on_after_calls_that_failed(rt: HostRuntime) -> Result<(), Fail> {
    for call in 11..15 {
        assert!(rt; goes_on(rt.alloc(), &[call])?, "call {call}");
    }
    assert!(rt; goes_on(rt.alloc(), &[12, 13])?);
    Ok(())
}
