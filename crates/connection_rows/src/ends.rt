//! How connections end: each front of two messages, and each read and write that fails.
use crate::messages::{ADD, GET, LISTED, joined};
use crate::served::{Connection, Ended, ended_of};
use std::alloc::Global;
use std::test::Fail;
use web_desk::{ConnEnd, Way};

/// A connection over which these bytes come at once.
pub fn at_once<'a>(coming: &'a [u8]) -> Connection<'a> {
    Connection {
        coming,
        most: 65536,
        fails: &[],
    }
}

/// Whether a connection ended so, after these bytes were sent.
pub fn is(ended: &Ended, end: ConnEnd, sent: &[u8]) -> bool {
    ended.end == end && ended.sent.as_slice() == sent
}

/// The head of the addition has 51 bytes, and its body 82.
fn cut_addition(had: usize) -> ConnEnd {
    if had < 51 {
        ConnEnd::HeadCut { had: had as u64 }
    } else {
        ConnEnd::CutOff {
            had: had as u64 - 51,
            said: 82,
        }
    }
}

/// Each front of an addition after a request is a head that was cut, or a body; the request was answered.
#[test]
fn an_addition_is_cut_everywhere(rt: HostRuntime) -> Result<(), Fail> {
    for had in 1..ADD.len() {
        let (front, _) = ADD.split_at(had);
        let coming = joined(rt.alloc(), GET, front)?;
        let ended = ended_of(rt.alloc(), &[], &at_once(coming.as_slice()))?;
        assert!(rt; is(&ended, cut_addition(had), LISTED));
    }
    Ok(())
}

/// A request and an addition come byte by byte, in 34 and 133 reads; a write follows each, and a last read finds the
/// end.
fn failing(alloc: Global, call: u64) -> Result<Ended, Fail> {
    let text = joined(alloc, GET, ADD)?;
    let connection = Connection {
        coming: text.as_slice(),
        most: 1,
        fails: &[call],
    };
    Ok(ended_of(alloc, &[], &connection)?)
}

/// Reads are the calls 1 to 34, 36 to 168 and 170, writes 35 and 169.
#[test]
fn each_call_fails(rt: HostRuntime) -> Result<(), Fail> {
    for call in 1..35 {
        let ended = failing(rt.alloc(), call)?;
        assert!(rt; is(&ended, ConnEnd::LinkFault { way: Way::Read }, b""));
    }
    for call in 36..169 {
        let ended = failing(rt.alloc(), call)?;
        assert!(rt; is(&ended, ConnEnd::LinkFault { way: Way::Read }, LISTED));
    }
    for (call, sent) in [(35, b"".as_slice()), (169, LISTED)] {
        let ended = failing(rt.alloc(), call)?;
        assert!(rt; is(&ended, ConnEnd::LinkFault { way: Way::Write }, sent));
    }
    Ok(())
}
