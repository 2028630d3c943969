//! Whether a request is cross-origin: sent by a page of another site.
ghost use Rattle.std.specs.Prelude.{◌≡◌, IfOk, map, length, All};
ghost use Rattle.std.specs.List.{list_any};
ghost use Rattle.httparse.specs.Spans.{header_bytes, IsHeaderWithin};
ghost use Rattle.web_messages.specs.Fields.{is_word, values_of};
ghost use Rattle.web_messages.specs.Origins.{host, origin, sec_fetch_site, cross_site, after_scheme, has_host, has_host_of, is_same_origin, is_cross_origin};

use crate::fields::{is_same_word, values};
use hl_base::Memory;
use httparse::spans::HeaderSpan;
use std::alloc::Global;

/// What follows the scheme and the colon of an origin.
fn after_scheme(value: &[u8]) -> &[u8]
    ensures { result.now ≡ after_scheme value.now }
{
    match value.iter().position(|b| *b == b':') {
        Some(at) => &value[at + 1..],
        None => &[],
    }
}

/// Whether an origin has this host and port.
fn has_host(site: &[u8], value: &[u8]) -> bool
    ensures { result ≡ has_host site.now value.now }
{
    let rest = after_scheme(value);
    if rest.len() < 2 {
        return false;
    }
    let (slashes, named) = rest.split_at(2);
    slashes.eq_ignore_ascii_case(b"//") && named.eq_ignore_ascii_case(site)
}

/// Whether an origin has the host and port of the one field Host.
fn has_host_of(hosts: &[&[u8]], value: &[u8]) -> bool
    ensures { result ≡ has_host_of (map (λ v. v.now) hosts.now) value.now }
{
    match hosts {
        [site] => has_host(site, value),
        _ => false,
    }
}

/// Whether no origin is given, or one, which has the host and port of the one field Host.
fn is_same_origin(hosts: &[&[u8]], origins: &[&[u8]]) -> bool
    ensures { result ≡ is_same_origin (map (λ v. v.now) hosts.now) (map (λ v. v.now) origins.now) }
{
    match origins {
        [] => true,
        [value] => has_host_of(hosts, value),
        _ => false,
    }
}

/// Whether one of some values is `cross-site`.
fn any_cross_site(values: &[&[u8]]) -> bool
    ensures { result ≡ list_any (is_word cross_site) (map (λ v. v.now) values.now) }
{
    for value in values {
        if is_same_word(value, b"cross-site") {
            return true;
        }
    }
    false
}

/// Whether a field Sec-Fetch-Site says `cross-site`.
fn says_cross_site(alloc: Global, head: &[u8], spans: &[HeaderSpan]) -> Result<bool, Memory>
    requires { All (IsHeaderWithin (length head.now)) spans.now }
    ensures { IfOk result (λ cross. cross ≡ list_any (is_word cross_site)
        (values_of sec_fetch_site (map (header_bytes head.now) spans.now))) }
{
    let sites = values(alloc, head, spans, b"sec-fetch-site")?;
    Ok(any_cross_site(sites.as_slice()))
}

/// Whether the fields Origin, if there are any, are one origin with the host and port of the one field Host.
fn has_same_origin(alloc: Global, head: &[u8], spans: &[HeaderSpan]) -> Result<bool, Memory>
    requires { All (IsHeaderWithin (length head.now)) spans.now }
    ensures { IfOk result (λ same. same ≡ is_same_origin
        (values_of host (map (header_bytes head.now) spans.now))
        (values_of origin (map (header_bytes head.now) spans.now))) }
{
    let hosts = values(alloc, head, spans, b"host")?;
    let origins = values(alloc, head, spans, b"origin")?;
    Ok(is_same_origin(hosts.as_slice(), origins.as_slice()))
}

/// Whether a request with these fields is cross-origin.
pub(crate) fn is_cross_origin(
    alloc: Global,
    head: &[u8],
    spans: &[HeaderSpan],
) -> Result<bool, Memory>
    requires { All (IsHeaderWithin (length head.now)) spans.now }
    ensures { IfOk result (λ cross.
        cross ≡ is_cross_origin (map (header_bytes head.now) spans.now)) }
{
    if says_cross_site(alloc, head, spans)? {
        return Ok(true);
    }
    let is_same = has_same_origin(alloc, head, spans)?;
    Ok(!is_same)
}
