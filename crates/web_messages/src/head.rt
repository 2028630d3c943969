//! What a head says of its message.
ghost use Rattle.std.specs.Prelude.{◌≡◌, ◌≤◌, length, IfOk, vec_len};
ghost use Rattle.httparse.specs.Grammar.{RequestHead, NeverHasRequest};
ghost use Rattle.httparse.specs.Spans.{IsRequestWithin, IsRequestAt, RequestOverflows};
ghost use Rattle.web_messages.specs.Heads.{facts_of, JudgedSo};
ghost use Rattle.web_messages.specs.Streams.{most_head, most_fields};

use crate::fields::{length_of_body, says_to_close};
use crate::origin::is_cross_origin;
use crate::paths::Paths;
use crate::route::{Route, find_route, route_from, split_target};
use crate::target::is_inside_target;
use hl_base::{Bytes, Memory};
use httparse::spans::{EMPTY_HEADER_SPAN, HeaderSpan, RequestSpans, parse_request};
use httparse::{Error, Status};
use std::alloc::Global;

/// The most fields that a head may have.
const MOST_FIELDS: usize = 64;

/// What a head says of its message.
#[derive(Debug, Drop)]
pub struct Head {
    /// How many bytes the head has.
    pub length: usize,
    /// Where its method and its path lead; a POST from another site leads to a refusal.
    pub route: Route,
    /// The query of its target.
    pub query: Bytes,
    /// How long the body is, if it says so in a way that can be used.
    pub said: Option<u64>,
    /// Whether the connection closes after the reply.
    pub closing: bool,
}

/// What the bytes at the front of a stream are.
#[derive(Debug, Drop)]
pub enum Judged {
    /// A head within the limit of fields.
    Whole(Head),
    /// A head with too many fields.
    Long,
    /// No head, and never one.
    Bad,
    /// No head yet.
    Open,
}

/// The head that was found at the front of some bytes.
fn head_at(
    alloc: Global,
    paths: &Paths,
    bytes: &[u8],
    spans: &[HeaderSpan],
    found: &RequestSpans,
) -> Result<Head, Memory>
    requires { IsRequestWithin bytes.now spans.now found.now }
    ensures { IfOk result (λ head. (h : RequestHead) → IsRequestAt bytes.now spans.now found.now h
        → head ≡ facts_of h) }
{
    let (fields, _) = spans.split_at(found.headers);
    let (path, query) = split_target(found.path.of(bytes));
    let said = length_of_body(alloc, bytes, fields)?;
    let closing = says_to_close(alloc, bytes, fields)?;
    let cross = is_cross_origin(alloc, bytes, fields)?;
    Ok(Head {
        length: found.len,
        route: route_from(cross, find_route(paths, found.method.of(bytes), path)),
        query: Bytes::copied(alloc, query)?,
        said,
        closing: found.version == 0 || closing,
    })
}

/// Spans for so many fields.
fn empty_spans(alloc: Global, count: usize) -> Result<Vec<HeaderSpan>, Memory>
    ensures { IfOk result (λ spans. vec_len spans ≡ count) }
{
    Ok(vec![in alloc; EMPTY_HEADER_SPAN; count]?)
}

/// Bytes that never become a head are bad, unless they end inside a target.
fn bad_or_open(bytes: &[u8]) -> Judged
    requires { NeverHasRequest bytes.now }
    ensures { JudgedSo bytes.now result }
{
    if is_inside_target(bytes) {
        Judged::Open
    } else {
        Judged::Bad
    }
}

/// Judges bytes in which any head has more than 64 fields.
fn judge_many(alloc: Global, bytes: &[u8]) -> Result<Judged, Memory>
    requires short { length bytes.now ≤ most_head }
    requires over { RequestOverflows most_fields bytes.now }
    ensures { IfOk result (λ judged. JudgedSo bytes.now judged) }
{
    let mut spans = empty_spans(alloc, bytes.len() + 1)?;
    match parse_request(bytes, &mut spans) {
        Ok(Status::Complete(_)) => Ok(Judged::Long),
        Ok(Status::Partial) => Ok(Judged::Open),
        Err(Error::TooManyHeaders) => unreachable!(),
        Err(_) => Ok(bad_or_open(bytes)),
    }
}

/// Judges the bytes at the front of a stream, at most as many as a head may have.
pub fn judge(alloc: Global, paths: &Paths, bytes: &[u8]) -> Result<Judged, Memory>
    requires { length bytes.now ≤ most_head }
    ensures { IfOk result (λ judged. JudgedSo bytes.now judged) }
{
    let mut spans = empty_spans(alloc, MOST_FIELDS)?;
    let room = spans.as_mut_slice();
    match parse_request(bytes, room) {
        Ok(Status::Complete(found)) => Ok(Judged::Whole(head_at(
            alloc, paths, bytes, room, &found,
        )?)),
        Ok(Status::Partial) => Ok(Judged::Open),
        Err(Error::TooManyHeaders) => judge_many(alloc, bytes),
        Err(_) => Ok(bad_or_open(bytes)),
    }
}
