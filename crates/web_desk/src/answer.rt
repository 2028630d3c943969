//! The bytes of replies.
ghost use Rattle.std.specs.Prelude.{◌≡◌, ◌++◌, IfOk, None, []};
ghost use Rattle.std.specs.String.{string_bytes};
ghost use Rattle.web_desk.specs.Answers.{message, phrase_of, status_line, opening_text, head_text, revision_field, closing_field, policy_field, page_opening, page_head, page_message, own_message, refusal_status, refusal_line, allow_field, refusal_message, report_status, words_status, gen_status, plan_status, rules_status, convert_status, csv_status, status_of, said_revision, reply_message};

use crate::lines::plan_line;
use crate::own_reply::OwnReply;
use csv_entries::ConvertFault;
use csv_rules::RulesFault;
use desk::{CsvFault, Reply};
use generated::GenFault;
use hl_base::{Bytes, Memory};
use http::StatusCode;
use plan_commands::PlanFault;
use report_cells::ReportFault;
use report_commands::WordsFault;
use std::alloc::Global;
use std::string::ToString;
use web_messages::refusal::Refusal;

/// The phrase of a status.
#[tactic(auto, unfolding(crate::specs::Answers::phrase_of))]
fn phrase(status: StatusCode) -> &'static str
    ensures { result.now ≡ phrase_of status }
{
    match status.canonical_reason() {
        Some(text) => text,
        None => "",
    }
}

/// The first line of a reply.
fn start_line(alloc: Global, status: StatusCode) -> Result<String, Memory>
    ensures { IfOk result (λ line. string_bytes line ≡ status_line status) }
{
    let mut line = String::from_str(alloc, "HTTP/1.1 ")?;
    line.push_str(status.as_u16().to_string(alloc)?.as_str())?;
    line.push_str(" ")?;
    line.push_str(phrase(status))?;
    line.push_str("\r\n")?;
    Ok(line)
}

/// The field X-Revision, where there is a revision.
fn revision_line(alloc: Global, revision: Option<u64>) -> Result<String, Memory>
    ensures { IfOk result (λ line. string_bytes line ≡ revision_field revision) }
{
    match revision {
        None => Ok(String::new(alloc)),
        Some(number) => {
            let mut line = String::from_str(alloc, "X-Revision: ")?;
            line.push_str(number.to_string(alloc)?.as_str())?;
            line.push_str("\r\n")?;
            Ok(line)
        }
    }
}

/// The field Connection, where the connection closes.
fn closing_line(closing: bool) -> &'static str
    ensures { result.now ≡ closing_field closing }
{
    if closing { "Connection: close\r\n" } else { "" }
}

/// A reply up to its length.
fn opening(
    alloc: Global,
    status: StatusCode,
    revision: Option<u64>,
    allow: &str,
    closing: bool,
) -> Result<String, Memory>
    ensures { IfOk result (λ text.
        string_bytes text ≡ opening_text status revision allow.now closing) }
{
    let mut text = start_line(alloc, status)?;
    text.push_str("Content-Type: text/plain; charset=utf-8\r\n")?;
    text.push_str(revision_line(alloc, revision)?.as_str())?;
    text.push_str(allow)?;
    text.push_str(closing_line(closing))?;
    Ok(text)
}

/// A reply up to its body.
fn head(
    alloc: Global,
    status: StatusCode,
    revision: Option<u64>,
    allow: &str,
    closing: bool,
    size: usize,
) -> Result<String, Memory>
    ensures { IfOk result (λ text.
        string_bytes text ≡ head_text status revision allow.now closing size) }
{
    let mut text = opening(alloc, status, revision, allow, closing)?;
    text.push_str("Content-Length: ")?;
    text.push_str(size.to_string(alloc)?.as_str())?;
    text.push_str("\r\n\r\n")?;
    Ok(text)
}

/// A whole reply.
fn reply_bytes(
    alloc: Global,
    status: StatusCode,
    revision: Option<u64>,
    allow: &str,
    closing: bool,
    body: &[u8],
) -> Result<Bytes, Memory>
    ensures { IfOk result (λ bytes. bytes ≡ message status revision allow.now closing body.now) }
{
    let mut bytes = head(alloc, status, revision, allow, closing, body.len())?.into_bytes();
    bytes.extend_from_slice(body)?;
    Ok(Bytes::from_vec(bytes))
}

/// The status of a refusal.
fn refusal_code(refusal: Refusal) -> StatusCode
    ensures { result ≡ refusal_status refusal }
{
    match refusal {
        Refusal::Form | Refusal::Message => StatusCode::BAD_REQUEST,
        Refusal::Path => StatusCode::NOT_FOUND,
        Refusal::GetOnly | Refusal::PostOnly => StatusCode::METHOD_NOT_ALLOWED,
        Refusal::Origin => StatusCode::FORBIDDEN,
        Refusal::Head => StatusCode::REQUEST_HEADER_FIELDS_TOO_LARGE,
        Refusal::Body => StatusCode::PAYLOAD_TOO_LARGE,
    }
}

/// The line of a refusal.
fn refusal_text(refusal: Refusal) -> &'static str
    ensures { result.now ≡ refusal_line refusal }
{
    match refusal {
        Refusal::Form => "error: form\n",
        Refusal::Message => "error: message\n",
        Refusal::Path => "error: path\n",
        Refusal::GetOnly | Refusal::PostOnly => "error: method\n",
        Refusal::Origin => "error: origin\n",
        Refusal::Head => "error: head\n",
        Refusal::Body => "error: body\n",
    }
}

/// The field Allow, where the path has another method.
fn allow_line(refusal: Refusal) -> &'static str
    ensures { result.now ≡ allow_field refusal }
{
    match refusal {
        Refusal::GetOnly => "Allow: GET\r\n",
        Refusal::PostOnly => "Allow: POST\r\n",
        _ => "",
    }
}

/// The reply that refuses a message without asking anybody.
pub fn refusal_reply(alloc: Global, refusal: Refusal, closing: bool) -> Result<Bytes, Memory>
    ensures { IfOk result (λ bytes. bytes ≡ refusal_message closing refusal) }
{
    let line = refusal_text(refusal);
    reply_bytes(
        alloc,
        refusal_code(refusal),
        None,
        allow_line(refusal),
        closing,
        line.as_bytes(),
    )
}

/// The field Content-Security-Policy.
fn policy_line(alloc: Global, policy: &str) -> Result<String, Memory>
    ensures { IfOk result (λ line. string_bytes line ≡ policy_field policy.now) }
{
    let mut line = String::from_str(alloc, "Content-Security-Policy: ")?;
    line.push_str(policy)?;
    line.push_str("\r\n")?;
    Ok(line)
}

/// The reply with the page up to its length.
fn page_start(alloc: Global, policy: &str, closing: bool) -> Result<String, Memory>
    ensures { IfOk result (λ text. string_bytes text ≡ page_opening policy.now closing) }
{
    let mut text = start_line(alloc, StatusCode::OK)?;
    text.push_str("Content-Type: text/html; charset=utf-8\r\n")?;
    text.push_str(policy_line(alloc, policy)?.as_str())?;
    text.push_str(closing_line(closing))?;
    Ok(text)
}

/// The reply with the page up to its body.
fn page_front(alloc: Global, policy: &str, closing: bool, size: usize) -> Result<String, Memory>
    ensures { IfOk result (λ text. string_bytes text ≡ page_head policy.now closing size) }
{
    let mut text = page_start(alloc, policy, closing)?;
    text.push_str("Content-Length: ")?;
    text.push_str(size.to_string(alloc)?.as_str())?;
    text.push_str("\r\n\r\n")?;
    Ok(text)
}

/// The reply with the page.
fn page_bytes(alloc: Global, text: &[u8], policy: &str, closing: bool) -> Result<Bytes, Memory>
    ensures { IfOk result (λ bytes. bytes ≡ page_message closing text.now policy.now) }
{
    let mut bytes = page_front(alloc, policy, closing, text.len())?.into_bytes();
    bytes.extend_from_slice(text)?;
    Ok(Bytes::from_vec(bytes))
}

/// The bytes of a reply for which the journal isn't asked.
pub fn own_bytes(alloc: Global, own: OwnReply, closing: bool) -> Result<Bytes, Memory>
    ensures { IfOk result (λ bytes. bytes ≡ own_message closing own) }
{
    match own {
        OwnReply::Refused(refusal) => refusal_reply(alloc, refusal, closing),
        OwnReply::Page { text, policy } => {
            page_bytes(alloc, text.as_slice(), policy.as_str(), closing)
        }
    }
}

/// The status of a report that isn't made.
fn report_code(fault: &ReportFault) -> StatusCode
    ensures { result ≡ report_status fault.now }
{
    match fault {
        ReportFault::Range { .. } | ReportFault::TooWide { .. } => StatusCode::BAD_REQUEST,
        ReportFault::Memory => StatusCode::INTERNAL_SERVER_ERROR,
    }
}

/// The status of words that make no report.
fn words_code(fault: &WordsFault) -> StatusCode
    ensures { result ≡ words_status fault.now }
{
    match fault {
        WordsFault::NoCommand { .. }
        | WordsFault::BadOption { .. }
        | WordsFault::Conflict { .. }
        | WordsFault::BadTerm { .. }
        | WordsFault::PatternRefused { .. } => StatusCode::BAD_REQUEST,
        WordsFault::Report(fault) => report_code(fault),
        WordsFault::Memory => StatusCode::INTERNAL_SERVER_ERROR,
    }
}

/// The status of rules of a text that make no book.
fn gen_code(fault: &GenFault) -> StatusCode
    ensures { result ≡ gen_status fault.now }
{
    match fault {
        GenFault::Journal(_)
        | GenFault::BadTerm { .. }
        | GenFault::PatternRefused { .. }
        | GenFault::TooMany { .. } => StatusCode::BAD_REQUEST,
        GenFault::Memory => StatusCode::INTERNAL_SERVER_ERROR,
    }
}

/// The status of a report that isn't made, for its words or for the rules of its text.
fn plan_code(fault: &PlanFault) -> StatusCode
    ensures { result ≡ plan_status fault.now }
{
    match fault {
        PlanFault::Words(fault) => words_code(fault),
        PlanFault::Generated(fault) => gen_code(fault),
        PlanFault::Memory => StatusCode::INTERNAL_SERVER_ERROR,
    }
}

/// The status of rules that don't read.
fn rules_code(fault: &RulesFault) -> StatusCode
    ensures { result ≡ rules_status fault.now }
{
    match fault {
        RulesFault::BadRule { .. } | RulesFault::PatternRefused { .. } => {
            StatusCode::UNPROCESSABLE_ENTITY
        }
        RulesFault::Memory => StatusCode::INTERNAL_SERVER_ERROR,
    }
}

/// The status of a record that is refused.
fn convert_code(fault: &ConvertFault) -> StatusCode
    ensures { result ≡ convert_status fault.now }
{
    match fault {
        ConvertFault::BadRecord { .. }
        | ConvertFault::NoDate { .. }
        | ConvertFault::NoAmount { .. }
        | ConvertFault::TwoAmounts { .. }
        | ConvertFault::CsvRefused { .. } => StatusCode::UNPROCESSABLE_ENTITY,
        ConvertFault::Memory => StatusCode::INTERNAL_SERVER_ERROR,
    }
}

/// The status of a file that becomes no entries.
fn csv_code(fault: &CsvFault) -> StatusCode
    ensures { result ≡ csv_status fault.now }
{
    match fault {
        CsvFault::Rules(fault) => rules_code(fault),
        CsvFault::Convert(fault) => convert_code(fault),
    }
}

/// The status of a reply.
fn reply_code(reply: &Reply) -> StatusCode
    ensures { result ≡ status_of reply.now }
{
    match reply {
        Reply::Done { .. } | Reply::Same { .. } | Reply::Text { .. } => StatusCode::OK,
        Reply::BadBase { .. } | Reply::NoSuchItem { .. } | Reply::NotTransactions { .. } => {
            StatusCode::BAD_REQUEST
        }
        Reply::Words(fault) => plan_code(fault),
        Reply::Csv(fault) => csv_code(fault),
        Reply::Memory => StatusCode::INTERNAL_SERVER_ERROR,
        Reply::Forbidden { .. } => StatusCode::FORBIDDEN,
        Reply::Stale { .. } => StatusCode::CONFLICT,
        Reply::Load(_) => StatusCode::UNPROCESSABLE_ENTITY,
        Reply::TooLarge { .. } => StatusCode::PAYLOAD_TOO_LARGE,
        Reply::DiskFault { .. } => StatusCode::SERVICE_UNAVAILABLE,
        Reply::Full { .. } => StatusCode::INSUFFICIENT_STORAGE,
    }
}

/// The revision that a reply of this status says.
fn revision_said(status: StatusCode, revision: u64) -> Option<u64>
    ensures { result ≡ said_revision status revision }
{
    if status.as_u16() == 500 {
        None
    } else {
        Some(revision)
    }
}

/// The reply of the desk, with the revision after the request.
pub fn desk_reply(
    alloc: Global,
    reply: &Reply,
    revision: u64,
    closing: bool,
) -> Result<Bytes, Memory>
    ensures { IfOk result (λ bytes. bytes ≡ reply_message closing reply.now revision) }
{
    let status = reply_code(reply);
    let said = revision_said(status, revision);
    match reply {
        Reply::Text { bytes, .. } => {
            reply_bytes(alloc, status, said, "", closing, bytes.as_slice())
        }
        Reply::Words(fault) => {
            let line = plan_line(alloc, fault)?;
            reply_bytes(alloc, status, said, "", closing, line.as_slice())
        }
        _ => {
            let line = reply.line(alloc)?;
            reply_bytes(alloc, status, said, "", closing, line.as_slice())
        }
    }
}
