//! Rows of `serve`: its words, one link, a bind and a door that fail. Words that are refused are in tests/commands/serve.rows,
//! and sessions with the page in docs/manual/http.md.
use crate::case::{Case, Seen, answer, page_of, words_of};
use crate::complete::status_of;
use desk::Allow;
use hl_base::Memory;
use serve_line::{NoReading, read_serve};
use std::alloc::Global;
use std::sync::Wait;
use std::test::Fail;
use std::thread::Threads;
use web_messages::page::Page;

const BALANCE: &[u8] = b"GET /balance HTTP/1.1\r\nHost: a\r\nConnection: close\r\n\r\n";

const WORDS: &[&str] = &["serve", "home", "--workers", "1", "--connections=1"];

/// What is seen where these calls fail.
fn served<W: Threads + Wait + Sync>(
    rt: &W,
    alloc: Global,
    words: &[&str],
    house_fails: &[u64],
    door_fails: &[u64],
) -> Result<Seen, Memory> {
    let case = Case {
        words,
        bytes: BALANCE,
        house_fails,
        door_fails,
    };
    answer(rt, alloc, &case)
}

#[test]
fn serves_one_link(rt: HostRuntime) -> Result<(), Fail> {
    let seen = served(&rt, rt.alloc(), WORDS, &[], &[])?;
    assert_eq!(rt; seen.status, 0);
    assert_eq!(rt;
        seen.output.as_slice(),
        b"revision 0, requests 1, refused 0\n".as_slice()
    );
    assert_eq!(rt; seen.error.as_slice(), b"".as_slice());
    Ok(())
}

/// Where no call is to fail, the status is the one that the contract promises.
#[test]
fn ends_well_where_nothing_fails(rt: HostRuntime) -> Result<(), Fail> {
    let words = words_of(rt.alloc(), WORDS)?;
    let status = status_of(&rt, rt.alloc(), words.as_slice(), BALANCE)?;
    assert_eq!(rt; status, Some(0));
    Ok(())
}

#[test]
fn tells_a_bind_that_fails(rt: HostRuntime) -> Result<(), Fail> {
    let seen = served(&rt, rt.alloc(), WORDS, &[1], &[])?;
    assert_eq!(rt; seen.status, 9);
    assert_eq!(rt; seen.output.as_slice(), b"".as_slice());
    assert_eq!(rt; seen.error.as_slice(), b"error: door fault\n".as_slice());
    Ok(())
}

#[test]
fn tells_a_door_that_fails(rt: HostRuntime) -> Result<(), Fail> {
    let seen = served(&rt, rt.alloc(), WORDS, &[], &[1])?;
    assert_eq!(rt; seen.status, 9);
    assert_eq!(rt;
        seen.output.as_slice(),
        b"revision 0, requests 0, refused 0\n".as_slice()
    );
    assert_eq!(rt; seen.error.as_slice(), b"error: door fault\n".as_slice());
    Ok(())
}

#[test]
fn reads_words(rt: HostRuntime) -> Result<(), Fail> {
    let words = words_of(
        rt.alloc(),
        &["serve", "--allow", "edit", "home", "--port=80"],
    )?;
    let page = page_of(rt.alloc())?;
    let asked = read_serve(rt.alloc(), &page, words.as_slice())
        .ok()
        .ok_or("a reading")?;
    assert_eq!(rt; asked.store.as_str(), "home");
    assert_eq!(rt; asked.address.host.as_str(), "127.0.0.1");
    assert_eq!(rt; asked.address.port, 80);
    assert_eq!(rt; asked.allow, Allow::Edit);
    assert_eq!(rt; asked.crew.workers, 4);
    assert_eq!(rt; asked.crew.links, 4_294_967_295);
    assert!(rt; matches!(asked.page, Page::Absent));
    let none = words_of(rt.alloc(), &["serve"])?;
    assert_eq!(rt;
        read_serve(rt.alloc(), &page, none.as_slice()).err(),
        Some(NoReading::Usage)
    );
    Ok(())
}
