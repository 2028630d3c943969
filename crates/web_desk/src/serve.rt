//! A connection, from its first byte to its end.
ghost use Rattle.std.specs.Prelude.{◌≡◌, ◌⊎◌, ◌≤◌, ◌<◌, ◌+◌, ◌++◌, ℕ, List, [], length, Some, Ok, Err, true, ◌||◌, ◌==◌, IfSome, IfOk, IfErr, OnOk};
ghost use Rattle.web_desk.specs.Answers.{refusal_message};
ghost use Rattle.web_desk.specs.Calls.{call_at};
ghost use Rattle.web_desk.specs.Counts.{Counted, CountedIn};
ghost use Rattle.desk.specs.Entries.{Entry};
ghost use Rattle.web_messages.specs.Receipt.{IsStream, Keeps, NextSo, ending_of};
ghost use Rattle.web_desk.specs.Makers.{AreAsked};
ghost use Rattle.web_desk.specs.Served.{Served};
ghost use Rattle.web_messages.specs.Streams.{IsOfWhole, most_messages};
ghost use Rattle.web_desk.specs.Ends.{EndsWell, IsBroken, end_of, end_of_broken};
ghost use Rattle.web_desk.specs.Sent.{Sends};
ghost use Rattle.web_desk.specs.Turns.{refusal_at, SentSo, ClosesSo, AnswersSo, IsFailure, Turned};

use crate::answer::{desk_reply, own_bytes, refusal_reply};
use crate::ask::Ask;
use crate::calls::call;
use crate::conn_end::{ConnEnd, Way};
use crate::own_reply::OwnReply;
use desk::Request;
use hl_base::{Bytes, Clock, Link, Steps, send_all};
use hl_time::Day;
use query::Maker;
use std::alloc::Global;
use std::sync::ledger::Ledger;
use web_messages::Broken;
use web_messages::head::Head;
use web_messages::incoming::Incoming;
use web_messages::page::Page;
use web_messages::paths::Paths;
use web_messages::receive::{Next, Stop, next_message};
use web_messages::refusal::Refusal;

/// The most messages of a connection.
const MOST_MESSAGES: u64 = 1_000_000;

/// Sends a reply.
fn send<K: Link>(link: &mut K, reply: &Bytes) -> Result<(), ConnEnd>
    ensures told { Sends (K.sent link.old) (K.sent link.new) (λ text.
        SentSo result reply.now text) }
    ensures coming { K.coming link.new ≡ K.coming link.old }
    ensures broken { IfErr result IsBroken }
    ensures counted { CountedIn result (K.read_faults link.old) (K.read_faults link.new)
        (K.write_faults link.old) (K.write_faults link.new) }
{
    match send_all(link, reply.as_slice()) {
        Ok(()) => Ok(()),
        Err(_) => Err(ConnEnd::LinkFault { way: Way::Write }),
    }
}

/// The refusal that is sent where the reading stopped.
fn refusal_of_stop(stop: Stop) -> Option<Refusal>
    ensures { result ≡ refusal_at stop }
{
    match stop {
        Stop::Unframed | Stop::BadHead => Some(Refusal::Message),
        Stop::LongHead => Some(Refusal::Head),
        Stop::LongBody { .. } => Some(Refusal::Body),
        _ => None,
    }
}

/// The end of a connection whose reading stopped, at the message that begins at this place.
fn end_of_stop(stop: Stop, at: u64) -> ConnEnd
    ensures { result ≡ end_of at (ending_of stop) }
{
    match stop {
        Stop::Over | Stop::Unframed => ConnEnd::Closed,
        Stop::BadHead => ConnEnd::BadHead { at },
        Stop::LongHead => ConnEnd::HeadTooLong,
        Stop::LongBody { said } => ConnEnd::BodyTooLong { said },
        Stop::CutBody { had, said } => ConnEnd::CutOff { had, said },
        Stop::CutHead { had } => ConnEnd::HeadCut { had },
    }
}

/// Sends the reply that belongs to where the reading stopped.
fn send_refusal<K: Link>(alloc: Global, link: &mut K, refusal: Refusal) -> Result<(), ConnEnd>
    ensures told { Sends (K.sent link.old) (K.sent link.new)
        (λ text. SentSo result (refusal_message true refusal) text) }
    ensures coming { K.coming link.new ≡ K.coming link.old }
    ensures broken { IfErr result IsBroken }
    ensures counted { CountedIn result (K.read_faults link.old) (K.read_faults link.new)
        (K.write_faults link.old) (K.write_faults link.new) }
{
    let reply = refusal_reply(alloc, refusal, true)?;
    send(link, &reply)
}

/// Ends a connection where the reading stopped, after the reply that belongs to it.
fn finish<K: Link>(alloc: Global, link: &mut K, stop: Stop, at: u64) -> ConnEnd
    ensures told { Sends (K.sent link.old) (K.sent link.new) (λ text.
        ClosesSo at stop result text) }
    ensures kind { (result ≡ end_of at (ending_of stop)) ⊎ IsBroken result }
    ensures coming { K.coming link.new ≡ K.coming link.old }
    ensures counted { Counted result (K.read_faults link.old) (K.read_faults link.new)
        (K.write_faults link.old) (K.write_faults link.new) }
{
    match refusal_of_stop(stop) {
        None => end_of_stop(stop, at),
        Some(refusal) => match send_refusal(alloc, link, refusal) {
            Ok(()) => end_of_stop(stop, at),
            Err(end) => end,
        },
    }
}

/// Asks, and sends the reply.
fn answer_request<A: Ask, K: Link, C: Clock, M: Maker, L: Ledger>(
    alloc: Global,
    ask: &mut A,
    link: &mut K,
    clock: &mut C,
    maker: &mut M,
    steps: &mut Steps<L>,
    request: &Request,
    closing: bool,
) -> Result<(), ConnEnd>
    ensures answered { (entries : List Entry) × A.leads ask.old entries ask.new
        × AreAsked (C.always clock.old) (M.refusals maker.old) (M.refusals maker.new)
        (M.last_refused maker.old) (M.last_refused maker.new) entries
        × Sends (K.sent link.old) (K.sent link.new)
        (λ text. AnswersSo closing (Ok request.now) result entries text) }
    ensures spent { result ≡ Err ConnEnd.Spent → A.IsSpent ask.new }
    ensures always { C.always clock.new ≡ C.always clock.old }
    ensures coming { K.coming link.new ≡ K.coming link.old }
    ensures kind { IfErr result IsFailure }
    ensures counted { CountedIn result (K.read_faults link.old) (K.read_faults link.new)
        (K.write_faults link.old) (K.write_faults link.new) }
{
    let day = Day(clock.day());
    let Ok((reply, revision)) = ask.ask(alloc, request, day, maker, steps) else {
        return Err(ConnEnd::Spent);
    };
    let text = desk_reply(alloc, &reply, revision, closing)?;
    send(link, &text)
}

/// Answers a message without asking anybody, after which the connection may go on.
fn answer_own<K: Link>(
    alloc: Global,
    link: &mut K,
    own: OwnReply,
    closing: bool,
) -> Result<(), ConnEnd>
    ensures answered { Sends (K.sent link.old) (K.sent link.new)
        (λ text. AnswersSo closing (Err own) result [] text) }
    ensures coming { K.coming link.new ≡ K.coming link.old }
    ensures kind { IfErr result IsBroken }
    ensures counted { CountedIn result (K.read_faults link.old) (K.read_faults link.new)
        (K.write_faults link.old) (K.write_faults link.new) }
{
    let text = own_bytes(alloc, own, closing)?;
    send(link, &text)
}

/// Answers a message.
fn answer<A: Ask, K: Link, C: Clock, M: Maker, L: Ledger>(
    alloc: Global,
    page: &Page,
    ask: &mut A,
    link: &mut K,
    clock: &mut C,
    maker: &mut M,
    steps: &mut Steps<L>,
    head: &Head,
    body: &[u8],
    closing: bool,
) -> Result<(), ConnEnd>
    ensures answered { (entries : List Entry) × A.leads ask.old entries ask.new
        × AreAsked (C.always clock.old) (M.refusals maker.old) (M.refusals maker.new)
        (M.last_refused maker.old) (M.last_refused maker.new) entries
        × Sends (K.sent link.old) (K.sent link.new)
        (λ text. AnswersSo closing (call_at page.now head.now.route head.now.query body.now) result
        entries text) }
    ensures spent { result ≡ Err ConnEnd.Spent → A.IsSpent ask.new }
    ensures always { C.always clock.new ≡ C.always clock.old }
    ensures coming { K.coming link.new ≡ K.coming link.old }
    ensures kind { IfErr result IsFailure }
    ensures counted { CountedIn result (K.read_faults link.old) (K.read_faults link.new)
        (K.write_faults link.old) (K.write_faults link.new) }
{
    match call(alloc, page, head.route, head.query.as_slice(), body)? {
        Ok(request) => answer_request(alloc, ask, link, clock, maker, steps, &request, closing),
        Err(own) => answer_own(alloc, link, own, closing),
    }
}

/// Whether the connection closes after a message before which so many came.
fn closes_after(head: &Head, count: u64) -> bool
    requires { count < most_messages }
    ensures { result ≡ (head.now.closing || count + 1 == most_messages) }
{
    head.closing || count + 1 == MOST_MESSAGES
}

/// The end of a connection of whose stream no more was read.
fn end_of_broken(cause: Broken) -> ConnEnd
    ensures { result ≡ end_of_broken cause }
{
    match cause {
        Broken::Link => ConnEnd::LinkFault { way: Way::Read },
        Broken::Memory => ConnEnd::Memory,
    }
}

/// Reads the next message, or up to where the stream stops.
fn read_next<K: Link>(
    alloc: Global,
    paths: &Paths,
    incoming: &mut Incoming,
    link: &mut K,
) -> Result<Next, ConnEnd>
    ensures next { IfOk result (λ next. NextSo incoming.new.ended incoming.new.bytes next) }
    ensures stream { OnOk result (Keeps (K.coming link.old) incoming.old (K.coming link.new)
        incoming.new) }
    ensures sent { K.sent link.new ≡ K.sent link.old }
    ensures broken { IfErr result IsBroken }
    ensures counted { CountedIn result (K.read_faults link.old) (K.read_faults link.new)
        (K.write_faults link.old) (K.write_faults link.new) }
{
    match next_message(alloc, paths, incoming, link) {
        Ok(next) => Ok(next),
        Err(cause) => Err(end_of_broken(cause)),
    }
}

/// Reads and answers the next message, and says how many bytes it had.
fn serve_one<A: Ask, K: Link, C: Clock, M: Maker, L: Ledger>(
    alloc: Global,
    paths: &Paths,
    page: &Page,
    ask: &mut A,
    link: &mut K,
    clock: &mut C,
    maker: &mut M,
    steps: &mut Steps<L>,
    incoming: &mut Incoming,
    count: u64,
    at: u64,
) -> Result<u64, ConnEnd>
    requires { count < most_messages }
    ensures served { (entries : List Entry) × A.leads ask.old entries ask.new
        × AreAsked (C.always clock.old) (M.refusals maker.old) (M.refusals maker.new)
        (M.last_refused maker.old) (M.last_refused maker.new) entries
        × ((rest : List ℕ) → IsStream (K.coming link.old) incoming.old rest
        → Turned page.now (K.sent link.old) (K.sent link.new) (K.coming link.new) incoming.new at
        count rest result entries)
        × length entries ≤ 1 }
    ensures size { IfOk result (λ size. size ≤ 8404992) }
    ensures few { OnOk result (count + 1 < most_messages) }
    ensures spent { result ≡ Err ConnEnd.Spent → A.IsSpent ask.new }
    ensures always { C.always clock.new ≡ C.always clock.old }
    ensures counted { CountedIn result (K.read_faults link.old) (K.read_faults link.new)
        (K.write_faults link.old) (K.write_faults link.new) }
{
    match read_next(alloc, paths, incoming, link)? {
        Next::Stopped(stop) => Err(finish(alloc, link, stop, at)),
        Next::Message { head, total } => {
            let closing = closes_after(&head, count);
            let (message, _) = incoming.as_slice().split_at(total);
            let (_, body) = message.split_at(head.length);
            answer(
                alloc, page, ask, link, clock, maker, steps, &head, body, closing,
            )?;
            if closing {
                return Err(ConnEnd::Closed);
            }
            incoming.consume(total);
            Ok(total as u64)
        }
    }
}

/// Answers the messages that come over a link, one after another, up to the end of the connection. A message's day is
/// the clock's, and the patterns of its words are built by the maker. Where there is a page, GET / is answered with it, and
/// nobody is asked.
pub fn serve_link<A: Ask, K: Link, C: Clock, M: Maker, L: Ledger>(
    alloc: Global,
    page: &Page,
    ask: &mut A,
    link: &mut K,
    clock: &mut C,
    maker: &mut M,
    steps: &mut Steps<L>,
) -> ConnEnd
    // The entries that were made are those of the messages that asked, in order, each on the clock's day; the maker's
    // count rises with those alone whose pattern was refused; and what was sent, where the link tells it, are the
    // answers in order, and then the reply that belongs to the end. They are no more than the messages of a connection
    // may be, whatever the link tells.
    ensures served { (entries : List Entry) × A.leads ask.old entries ask.new
        × AreAsked (C.always clock.old) (M.refusals maker.old) (M.refusals maker.new)
        (M.last_refused maker.old) (M.last_refused maker.new) entries
        × IfSome (K.coming link.old)
        (λ bytes. Sends (K.sent link.old) (K.sent link.new) (λ text.
        Served page.now bytes result entries text))
        × length entries ≤ most_messages }
    ensures counted { Counted result (K.read_faults link.old) (K.read_faults link.new)
        (K.write_faults link.old) (K.write_faults link.new) }
    ensures spent { result ≡ ConnEnd.Spent → A.IsSpent ask.new }
    ensures always { C.always clock.new ≡ C.always clock.old }

    // A stream of whole messages within the limits is answered to its end, unless the connection breaks off before.
    ensures sound { IfSome (K.coming link.old) (λ bytes. IsOfWhole bytes → EndsWell result) }
{
    let Ok(paths) = Paths::new(alloc) else {
        return ConnEnd::Memory;
    };
    let Ok(mut incoming) = Incoming::new(alloc) else {
        return ConnEnd::Memory;
    };
    let mut at: u64 = 0;
    'messages: for count in 0..MOST_MESSAGES {
        match serve_one(
            alloc,
            &paths,
            page,
            ask,
            link,
            clock,
            maker,
            steps,
            &mut incoming,
            count,
            at,
        ) {
            Ok(size) => at += size,
            Err(end) => return end,
        }
    }
    unreachable!()
}
