//! What a message asks, by where its head leads and what its parameters say, or how it is answered without the journal.
ghost use Rattle.std.specs.Prelude.{◌≡◌, IfOk, []};
ghost use Rattle.web_desk.specs.Calls.{call_at, dry_run_asked, dry_run_of, or_own, page_at, page_route_in, request_at, shown_at, word_of};
ghost use Rattle.web_messages.specs.Forms.{parameters_of};

use crate::edits::{edit_of, import_of};
use crate::own_reply::OwnReply;
use desk::Request;
use hl_base::{Bytes, Memory, Text};
use report_options::Command;
use std::alloc::Global;
use web_messages::form::{all_named, only_number, parameters, take_only, take_values};
use web_messages::page::Page;
use web_messages::refusal::Refusal;
use web_messages::route::{PageRoute, Route};

/// The word of a report.
fn command_word(command: Command) -> &'static str
    ensures { result.now ≡ word_of command }
{
    match command {
        Command::Balance => "balance",
        Command::Print => "print",
        Command::Register => "register",
        Command::IncomeStatement => "incomestatement",
        Command::BalanceSheet => "balancesheet",
        Command::Accounts => "accounts",
        Command::Check => "check",
    }
}

/// The report that a query asks for.
fn report(alloc: Global, command: Command, query: &[u8]) -> Result<Result<Request, Refusal>, Memory>
    ensures { IfOk result (λ asked. asked ≡ request_at (Route.Report command) query.now []) }
{
    let all = parameters(alloc, query)?;
    if !all_named(all.as_slice(), b"q") {
        return Ok(Err(Refusal::Form));
    }
    let words = take_values(alloc, Text::copied(alloc, command_word(command))?, all)?;
    Ok(Ok(Request::Report { words }))
}

/// The text of the journal, where the query has no parameter.
fn download(alloc: Global, query: &[u8]) -> Result<Result<Request, Refusal>, Memory>
    ensures { IfOk result (λ asked. asked ≡ request_at Route.Download query.now []) }
{
    if parameters(alloc, query)?.is_empty() {
        Ok(Ok(Request::Download))
    } else {
        Ok(Err(Refusal::Form))
    }
}

/// The entry that a form adds.
fn addition(alloc: Global, query: &[u8], body: &[u8]) -> Result<Result<Request, Refusal>, Memory>
    ensures { IfOk result (λ asked. asked ≡ request_at Route.Add query.now body.now) }
{
    if !parameters(alloc, query)?.is_empty() {
        return Ok(Err(Refusal::Form));
    }
    match take_only(parameters(alloc, body)?, b"entry") {
        Some(entry) => Ok(Ok(Request::Add {
            entry: Bytes::from_vec(entry.into_string(alloc)?.into_bytes()),
        })),
        None => Ok(Err(Refusal::Form)),
    }
}

/// The edit that a form asks for.
fn edit(alloc: Global, query: &[u8], body: &[u8]) -> Result<Result<Request, Refusal>, Memory>
    ensures { IfOk result (λ asked. asked ≡ request_at Route.Edit query.now body.now) }
{
    if !parameters(alloc, query)?.is_empty() {
        return Ok(Err(Refusal::Form));
    }
    edit_of(alloc, parameters(alloc, body)?.as_slice())
}

/// The text that a body puts in the place of the journal's, from a revision that the query names.
fn upload(alloc: Global, query: &[u8], body: &[u8]) -> Result<Result<Request, Refusal>, Memory>
    ensures { IfOk result (λ asked. asked ≡ request_at Route.Upload query.now body.now) }
{
    match only_number(parameters(alloc, query)?, b"base") {
        Some(base) => Ok(Ok(Request::Replace {
            base,
            text: Bytes::copied(alloc, body)?,
        })),
        None => Ok(Err(Refusal::Form)),
    }
}

/// The import that a form asks for.
fn import(alloc: Global, query: &[u8], body: &[u8]) -> Result<Result<Request, Refusal>, Memory>
    ensures { IfOk result (λ asked. asked ≡ request_at Route.Import query.now body.now) }
{
    if !parameters(alloc, query)?.is_empty() {
        return Ok(Err(Refusal::Form));
    }
    import_of(alloc, parameters(alloc, body)?.as_slice())
}

/// What a message asks of the journal, or why it is refused.
fn request(
    alloc: Global,
    route: Route,
    query: &[u8],
    body: &[u8],
) -> Result<Result<Request, Refusal>, Memory>
    ensures { IfOk result (λ asked. asked ≡ request_at route query.now body.now) }
{
    match route {
        Route::Report(command) => report(alloc, command, query),
        Route::Download => download(alloc, query),
        Route::Add => addition(alloc, query, body),
        Route::Edit => edit(alloc, query, body),
        Route::Upload => upload(alloc, query, body),
        Route::Import => import(alloc, query, body),
        Route::Page(_) => Ok(Err(Refusal::Path)),
        Route::Refused(refusal) => Ok(Err(refusal)),
    }
}

/// A request of the journal, or the reply that refuses it.
fn or_own(asked: Result<Request, Refusal>) -> Result<Request, OwnReply>
    ensures { result ≡ or_own asked }
{
    match asked {
        Ok(request) => Ok(request),
        Err(refusal) => Err(OwnReply::Refused(refusal)),
    }
}

/// Where a path of the page leads, of a message that goes there.
fn page_route_in(route: Route) -> Option<PageRoute>
    ensures { result ≡ page_route_in route }
{
    match route {
        Route::Page(found) => Some(found),
        Route::Report(_)
        | Route::Download
        | Route::Add
        | Route::Edit
        | Route::Upload
        | Route::Import
        | Route::Refused(_) => None,
    }
}

/// The reply with a page, where the query has no parameter.
fn page_reply(alloc: Global, text: &Bytes, policy: &Text, query: &[u8]) -> Result<OwnReply, Memory>
    ensures { IfOk result (λ own. own ≡ shown_at text.now policy.now (parameters_of query.now)) }
{
    if !parameters(alloc, query)?.is_empty() {
        return Ok(OwnReply::Refused(Refusal::Form));
    }
    let text = Bytes::copied(alloc, text.as_slice())?;
    let policy = Text::copied(alloc, policy.as_str())?;
    Ok(OwnReply::Page { text, policy })
}

/// The dry run of an addition or an import.
fn dry_run_of(request: Request) -> Request
    ensures { result ≡ dry_run_of request }
{
    match request {
        Request::Add { entry } => Request::Check { entry },
        Request::Import { name, rules, csv } => Request::Preview { name, rules, csv },
        other => other,
    }
}

/// The dry run of what a message asks of the journal.
fn dry_run(
    alloc: Global,
    route: Route,
    query: &[u8],
    body: &[u8],
) -> Result<Result<Request, OwnReply>, Memory>
    ensures { IfOk result (λ call.
        call ≡ dry_run_asked (request_at route query.now body.now)) }
{
    match request(alloc, route, query, body)? {
        Ok(asked) => Ok(Ok(dry_run_of(asked))),
        Err(refusal) => Ok(Err(OwnReply::Refused(refusal))),
    }
}

/// What a message asks at a path of a page that is there, or its reply.
fn shown_call(
    alloc: Global,
    text: &Bytes,
    policy: &Text,
    found: PageRoute,
    query: &[u8],
    body: &[u8],
) -> Result<Result<Request, OwnReply>, Memory>
    ensures { IfOk result (λ call.
        call ≡ page_at (Page.Shown text.now policy.now) found query.now body.now) }
{
    match found {
        PageRoute::Home => {
            let own = page_reply(alloc, text, policy, query)?;
            Ok(Err(own))
        }
        PageRoute::Check => dry_run(alloc, Route::Add, query, body),
        PageRoute::Preview => dry_run(alloc, Route::Import, query, body),
        PageRoute::Refused(refusal) => Ok(Err(OwnReply::Refused(refusal))),
    }
}

/// What a message asks at a path of the page, or its reply.
fn page_call(
    alloc: Global,
    page: &Page,
    found: PageRoute,
    query: &[u8],
    body: &[u8],
) -> Result<Result<Request, OwnReply>, Memory>
    ensures { IfOk result (λ call. call ≡ page_at page.now found query.now body.now) }
{
    match page {
        Page::Absent => Ok(Err(OwnReply::Refused(Refusal::Path))),
        Page::Shown { text, policy } => shown_call(alloc, text, policy, found, query, body),
    }
}

/// What a message asks of the journal, or its reply where it asks nothing. Only what is asked at the paths of the page
/// depends on it.
pub fn call(
    alloc: Global,
    page: &Page,
    route: Route,
    query: &[u8],
    body: &[u8],
) -> Result<Result<Request, OwnReply>, Memory>
    ensures { IfOk result (λ call. call ≡ call_at page.now route query.now body.now) }
{
    match page_route_in(route) {
        Some(found) => page_call(alloc, page, found, query, body),
        None => {
            let asked = request(alloc, route, query, body)?;
            Ok(or_own(asked))
        }
    }
}
