//! What is answered at the paths of the page; where there is none is in tests/commands/talk.rows.
use crate::ends::{at_once, is};
use crate::messages::{GET, LISTED, joined};
use crate::served::ended_with;
use hl_base::{Bytes, Memory, Text};
use std::alloc::Global;
use std::test::Fail;
use web_desk::ConnEnd;
use web_messages::page::Page;

const SHOW: &[u8] = b"GET / HTTP/1.1\r\n\r\n";

const SHOWN: &[u8] =
    b"HTTP/1.1 200 OK\r\nContent-Type: text/html; charset=utf-8\r\nContent-Security-Policy: default-src 'none'\r\nContent-Length: 9\r\n\r\n<p>a</p>\n";

const SHOWN_LAST: &[u8] =
    b"HTTP/1.1 200 OK\r\nContent-Type: text/html; charset=utf-8\r\nContent-Security-Policy: default-src 'none'\r\nConnection: close\r\nContent-Length: 9\r\n\r\n<p>a</p>\n";

const NO_PATH: &[u8] =
    b"HTTP/1.1 404 Not Found\r\nContent-Type: text/plain; charset=utf-8\r\nContent-Length: 12\r\n\r\nerror: path\n";

const OTHER_METHOD: &[u8] =
    b"HTTP/1.1 405 Method Not Allowed\r\nContent-Type: text/plain; charset=utf-8\r\nAllow: GET\r\nContent-Length: 14\r\n\r\nerror: method\n";

const BAD_FORM: &[u8] =
    b"HTTP/1.1 400 Bad Request\r\nContent-Type: text/plain; charset=utf-8\r\nContent-Length: 12\r\n\r\nerror: form\n";

/// A check of an addition.
const CHECK: &[u8] =
    b"POST /check HTTP/1.1\r\nContent-Length: 82\r\n\r\nentry=2024-01-05+gift%0A++++assets%3Acash++30+EUR%0A++++income%3Agifts++-30+EUR%0A";

/// The line that the addition would be answered.
const CHECKED: &[u8] =
    b"HTTP/1.1 200 OK\r\nContent-Type: text/plain; charset=utf-8\r\nX-Revision: 0\r\nContent-Length: 11\r\n\r\nrevision 1\n";

/// A check of what is no entry.
const CHECK_NONE: &[u8] = b"POST /check HTTP/1.1\r\nContent-Length: 9\r\n\r\nentry=tea";

/// What is answered to it.
const CHECKED_NONE: &[u8] =
    b"HTTP/1.1 400 Bad Request\r\nContent-Type: text/plain; charset=utf-8\r\nX-Revision: 0\r\nContent-Length: 39\r\n\r\nerror: entry line 1: not a transaction\n";

/// A preview of an import of one entry.
const PREVIEW: &[u8] =
    b"POST /preview HTTP/1.1\r\nContent-Length: 113\r\n\r\nname=b&rules=fields+date%2C+description%2C+amount%0Aaccount1+assets%3Abank%0A&csv=2024-01-05%2Cbread%2C-10+EUR%0A";

/// The entry.
const PREVIEWED: &[u8] =
    b"HTTP/1.1 200 OK\r\nContent-Type: text/plain; charset=utf-8\r\nX-Revision: 0\r\nContent-Length: 77\r\n\r\n2024-01-05 bread\n    assets:bank       -10 EUR\n    expenses:unknown   10 EUR\n";

/// The import.
const IMPORT: &[u8] =
    b"POST /import HTTP/1.1\r\nContent-Length: 113\r\n\r\nname=b&rules=fields+date%2C+description%2C+amount%0Aaccount1+assets%3Abank%0A&csv=2024-01-05%2Cbread%2C-10+EUR%0A";

/// What is answered to it.
const IMPORTED: &[u8] =
    b"HTTP/1.1 200 OK\r\nContent-Type: text/plain; charset=utf-8\r\nX-Revision: 1\r\nContent-Length: 11\r\n\r\nrevision 1\n";

/// What is answered to its preview, and to the import, once it was made.
const NOTHING_NEW: &[u8] =
    b"HTTP/1.1 200 OK\r\nContent-Type: text/plain; charset=utf-8\r\nX-Revision: 1\r\nContent-Length: 22\r\n\r\nunchanged, revision 1\n";

/// A preview of an import whose rules don't read.
const PREVIEW_OF_BAD_RULES: &[u8] =
    b"POST /preview HTTP/1.1\r\nContent-Length: 62\r\n\r\nname=b&rules=colour+red%0A&csv=2024-01-05%2Cbread%2C-10+EUR%0A";

/// What is answered to it.
const BAD_RULES: &[u8] =
    b"HTTP/1.1 422 Unprocessable Entity\r\nContent-Type: text/plain; charset=utf-8\r\nX-Revision: 0\r\nContent-Length: 19\r\n\r\nerror: rule line 1\n";

/// A path that is taken by POST alone.
const POST_ONLY: &[u8] =
    b"HTTP/1.1 405 Method Not Allowed\r\nContent-Type: text/plain; charset=utf-8\r\nAllow: POST\r\nContent-Length: 14\r\n\r\nerror: method\n";

/// A POST from another site.
const ELSEWHERE: &[u8] =
    b"HTTP/1.1 403 Forbidden\r\nContent-Type: text/plain; charset=utf-8\r\nContent-Length: 14\r\n\r\nerror: origin\n";

/// A page.
fn small_page(alloc: Global) -> Result<Page, Memory> {
    let text = Bytes::copied(alloc, b"<p>a</p>\n")?;
    let policy = Text::copied(alloc, "default-src 'none'")?;
    Ok(Page::Shown { text, policy })
}

/// Whether a stream of these bytes is answered so, with this page.
fn answers(alloc: Global, page: &Page, coming: &[u8], sent: &[u8]) -> Result<bool, Fail> {
    let ended = ended_with(alloc, page, &[], &at_once(coming))?;
    Ok(is(&ended, ConnEnd::Closed, sent))
}

#[test]
fn shows_a_page(rt: HostRuntime) -> Result<(), Fail> {
    let page = small_page(rt.alloc())?;
    for (coming, sent) in [
        (SHOW, SHOWN),
        (b"GET / HTTP/1.0\r\n\r\n".as_slice(), SHOWN_LAST),
        (
            b"GET / HTTP/1.1\r\nSec-Fetch-Site: cross-site\r\n\r\n".as_slice(),
            SHOWN,
        ),
        (b"GET /?a=1 HTTP/1.1\r\n\r\n".as_slice(), BAD_FORM),
        (b"POST / HTTP/1.1\r\n\r\n".as_slice(), OTHER_METHOD),
        (b"HEAD / HTTP/1.1\r\n\r\n".as_slice(), OTHER_METHOD),
        (b"PUT / HTTP/1.1\r\n\r\n".as_slice(), OTHER_METHOD),
        (b"GET /total HTTP/1.1\r\n\r\n".as_slice(), NO_PATH),
    ] {
        assert!(rt; answers(rt.alloc(), &page, coming, sent)?);
    }
    Ok(())
}

/// A report after the page says the revision, which stayed.
#[test]
fn goes_on_after_a_page(rt: HostRuntime) -> Result<(), Fail> {
    let page = small_page(rt.alloc())?;
    let coming = joined(rt.alloc(), SHOW, GET)?;
    let sent = joined(rt.alloc(), SHOWN, LISTED)?;
    assert!(rt; answers(rt.alloc(), &page, coming.as_slice(), sent.as_slice())?);
    Ok(())
}

/// A check and a preview store nothing: the journal stays at its revision, and the balance is that of the empty text.
#[test]
fn runs_dry(rt: HostRuntime) -> Result<(), Fail> {
    let page = small_page(rt.alloc())?;
    for (asked, answered) in [
        (CHECK, CHECKED),
        (CHECK_NONE, CHECKED_NONE),
        (PREVIEW, PREVIEWED),
        (PREVIEW_OF_BAD_RULES, BAD_RULES),
    ] {
        let coming = joined(rt.alloc(), asked, GET)?;
        let sent = joined(rt.alloc(), answered, LISTED)?;
        assert!(rt; answers(rt.alloc(), &page, coming.as_slice(), sent.as_slice())?);
    }
    Ok(())
}

/// What was imported is new no more.
#[test]
fn previews_what_is_new(rt: HostRuntime) -> Result<(), Fail> {
    let page = small_page(rt.alloc())?;
    let coming = joined(rt.alloc(), IMPORT, PREVIEW)?;
    let sent = joined(rt.alloc(), IMPORTED, NOTHING_NEW)?;
    assert!(rt; answers(rt.alloc(), &page, coming.as_slice(), sent.as_slice())?);
    Ok(())
}

/// The form, the method and the site are those of an addition and an import.
#[test]
fn refuses_as_edits_are(rt: HostRuntime) -> Result<(), Fail> {
    let page = small_page(rt.alloc())?;
    for (coming, sent) in [
        (b"GET /check HTTP/1.1\r\n\r\n".as_slice(), POST_ONLY),
        (b"GET /preview HTTP/1.1\r\n\r\n".as_slice(), POST_ONLY),
        (b"POST /check HTTP/1.1\r\n\r\n".as_slice(), BAD_FORM),
        (b"POST /preview?a=1 HTTP/1.1\r\n\r\n".as_slice(), BAD_FORM),
        (
            b"POST /check HTTP/1.1\r\nSec-Fetch-Site: cross-site\r\n\r\n".as_slice(),
            ELSEWHERE,
        ),
        (
            b"POST /preview HTTP/1.1\r\nSec-Fetch-Site: cross-site\r\n\r\n".as_slice(),
            ELSEWHERE,
        ),
        (
            b"POST /check HTTP/1.1\r\nHost: a\r\nOrigin: http://b\r\n\r\n".as_slice(),
            ELSEWHERE,
        ),
        (
            b"POST /preview HTTP/1.1\r\nHost: a\r\nOrigin: http://a:80\r\n\r\n".as_slice(),
            ELSEWHERE,
        ),
        (
            b"POST /check HTTP/1.1\r\nHost: a\r\nOrigin: http://a\r\n\r\n".as_slice(),
            BAD_FORM,
        ),
        (
            b"POST /check HTTP/1.1\r\nOrigin: http://a\r\n\r\n".as_slice(),
            ELSEWHERE,
        ),
    ] {
        assert!(rt; answers(rt.alloc(), &page, coming, sent)?);
    }
    Ok(())
}
