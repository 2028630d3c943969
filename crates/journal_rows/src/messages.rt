//! Messages, and what is answered to them.
use std::alloc::Global;
use std::test::Fail;

/// A request for the balance.
pub const GET: &[u8] = b"GET /balance HTTP/1.1\r\nHost: a\r\n\r\n";

/// The balance of the empty text.
pub const LISTED: &[u8] =
    b"HTTP/1.1 200 OK\r\nContent-Type: text/plain; charset=utf-8\r\nX-Revision: 0\r\nContent-Length: 44\r\n\r\n--------------------\n                   0  \n";

/// What is answered to it.
pub const ADDED: &[u8] =
    b"HTTP/1.1 200 OK\r\nContent-Type: text/plain; charset=utf-8\r\nX-Revision: 1\r\nContent-Length: 11\r\n\r\nrevision 1\n";

/// Two pieces after one another.
pub fn joined(alloc: Global, first: &[u8], second: &[u8]) -> Result<Vec<u8>, Fail> {
    let mut text = Vec::from_slice(alloc, first)?;
    text.extend_from_slice(second)?;
    Ok(text)
}
