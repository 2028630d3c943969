//! The records of a file as changes of a text and of import states.
ghost use Rattle.std.specs.Prelude.{◌≡◌, ℕ, ◌<◌, ◌≤◌, ◌+◌, ◌^◌, length, take, drop, true, false, Some, None, IfOk, IfSome, OnOk, MatchBool};
ghost use Rattle.std.specs.Int.{w32, from_le_bytes};
ghost use Rattle.text_store.specs.Contents.{content_in_code, if_content_in_code, end_in_code, IsStateAt, AreStatesAt, IsEnd};
ghost use Rattle.text_store.specs.Files.{AreWritable};
ghost use Rattle.text_store.specs.Image.{spliced, changed, imported, mark_at, checkpointed, folded};
ghost use Rattle.text_store.specs.Currents.{current_in_code};
ghost use Rattle.text_store.specs.Reads.{from_place};

use crate::marks::Marks;
use crate::pieces::Pieces;
use crate::records::{number_at, record_at};
use hl_base::{Latest, Memory, Text};
use std::alloc::Global;

/// A text and the states of its imports.
#[derive(Drop)]
pub struct Content {
    pub text: Vec<u8>,
    pub latest: Marks,
}

// A content whose text is in pieces, while records are applied to it.
#[derive(Drop)]
struct Current {
    text: Pieces,
    latest: Marks,
}

/// What the records of a file from a place on come to: a content, the place of the gate behind them, and how many they are.
#[derive(Drop)]
pub struct Folded {
    pub content: Content,
    pub gate: usize,
    pub count: u64,
}

/// Import states, and the place behind them.
#[derive(Drop)]
pub struct States {
    pub latest: Vec<Latest>,
    pub behind: usize,
}

// The number in four bytes, low byte first.
fn short_number_at(file: &[u8], at: usize) -> u32
    requires { at + 4 ≤ length file.now }
    ensures { result ≡ from_le_bytes w32 (take 4 (drop at file.now)) }
{
    let mut bytes = [0u8; 4];
    bytes.copy_from_slice(&file[at..at + 4]);
    u32::from_le_bytes(bytes)
}

// Replaces the part of a text that a splice's payload names; false, where it lies outside or the payload is short.
fn splice_in(alloc: Global, text: &mut Pieces, payload: &[u8]) -> Result<bool, Memory>
    ensures { IfOk result (λ good.
        MatchBool good (spliced text.old payload.now ≡ Some text.new) (spliced text.old payload.now
        ≡ None)) }
{
    if payload.len() < 16 {
        return Ok(false);
    }
    let at = number_at(payload, 0) as usize;
    let removed = number_at(payload, 8) as usize;
    let (_, inserted) = payload.split_at(16);
    text.replace(alloc, at, removed, inserted)
}

/// An import's state at a place, and the place behind it, if one reads there.
pub fn state_at(alloc: Global, bytes: &[u8], at: usize) -> Result<Option<(Latest, usize)>, Memory>
    requires { at ≤ length bytes.now }
    ensures { IfOk result (λ found. IsStateAt bytes.now at found) }
{
    if bytes.len() - at < 12 {
        return Ok(None);
    }
    let size = short_number_at(bytes, at) as usize;
    if size > bytes.len() - at - 12 {
        return Ok(None);
    }
    let behind = at + 4 + size;
    let Ok(name) = str::from_utf8(&bytes[at + 4..behind]) else {
        return Ok(None);
    };
    let state = Latest {
        name: Text::copied(alloc, name)?,
        day: short_number_at(bytes, behind),
        count: short_number_at(bytes, behind + 4),
    };
    Ok(Some((state, behind + 8)))
}

// Makes the change of a record; false, where it is bad.
fn make_change(
    alloc: Global,
    content: &mut Current,
    kind: u8,
    payload: &[u8],
) -> Result<bool, Memory>
    ensures changed { (at : ℕ) → IfOk result (λ good. MatchBool good
        (changed (current_in_code content.old)
        (record { at = at; kind = kind; payload = payload.now })
        ≡ Some (current_in_code content.new))
        (changed (current_in_code content.old)
        (record { at = at; kind = kind; payload = payload.now }) ≡ None)) }
    ensures writable { IfOk result (λ good. good ≡ true
        → AreWritable content.old.latest.states.items
        → AreWritable content.new.latest.states.items) }
{
    match kind {
        b'T' => {
            content.text = Pieces::of(alloc, Vec::from_slice(alloc, payload)?)?;
            Ok(true)
        }
        b'S' => splice_in(alloc, &mut content.text, payload),
        b'I' => import_in(alloc, content, payload),
        _ => Ok(false),
    }
}

// Puts an import's state and its splice into a content; false, where the payload doesn't read.
fn import_in(alloc: Global, content: &mut Current, payload: &[u8]) -> Result<bool, Memory>
    ensures changed { IfOk result (λ good. MatchBool good
        (imported (current_in_code content.old) (mark_at payload.now)
        ≡ Some (current_in_code content.new))
        (imported (current_in_code content.old) (mark_at payload.now) ≡ None)) }
    ensures writable { IfOk result (λ good. good ≡ true
        → AreWritable content.old.latest.states.items
        → AreWritable content.new.latest.states.items) }
{
    let Some((state, behind)) = state_at(alloc, payload, 0)? else {
        return Ok(false);
    };
    content.latest.put(alloc, state)?;
    if content.latest.states.len() as u64 >= 1 << 32 {
        return Ok(false);
    }
    splice_in(alloc, &mut content.text, &payload[behind..])
}

// So many import states, if they read from a place on.
fn states_at(alloc: Global, bytes: &[u8], at: usize, count: u32) -> Result<Option<States>, Memory>
    requires { at ≤ length bytes.now }
    ensures { IfOk result (λ found. AreStatesAt bytes.now at count found) }
{
    let mut latest = Vec::new(alloc);
    let mut behind = at;
    let mut left = count;
    while left > 0 {
        let Some((state, next)) = state_at(alloc, bytes, behind)? else {
            return Ok(None);
        };
        latest.push(state)?;
        behind = next;
        left -= 1;
    }
    Ok(Some(States { latest, behind }))
}

/// The content of a record of a whole image, if its payload reads.
pub fn whole_content(alloc: Global, payload: &[u8]) -> Result<Option<Content>, Memory>
    ensures reads { IfOk result (λ found. checkpointed payload.now ≡ if_content_in_code found) }
    ensures writable { IfOk result (λ found.
        IfSome found (λ content. AreWritable content.latest.states.items)) }
{
    if payload.len() < 4 {
        return Ok(None);
    }
    let count = short_number_at(payload, 0);
    let Some(states) = states_at(alloc, payload, 4, count)? else {
        return Ok(None);
    };
    let text = Vec::from_slice(alloc, &payload[states.behind..])?;
    let Some(latest) = Marks::of(alloc, states.latest)? else {
        return Ok(None);
    };
    Ok(Some(Content { text, latest }))
}

/// What the open records of a file from a place on come to, or the gate of the first bad one.
pub fn fold_from(
    alloc: Global,
    file: &[u8],
    start: usize,
    content: Content,
) -> Result<Result<Folded, usize>, Memory>
    requires { start < length file.now }
    ensures folds { IfOk result (λ end.
        folded (from_place file.now start) (content_in_code content) ≡ end_in_code end) }
    ensures ends { IfOk result (λ end. IfOk end (λ all. IsEnd file.now start all.gate all.count)) }
    ensures writable { IfOk result (λ end.
        IfOk end (λ all. AreWritable content.latest.states.items
        → AreWritable all.content.latest.states.items)) }
{
    let mut current = Current {
        text: Pieces::of(alloc, content.text)?,
        latest: content.latest,
    };
    let mut at = start;
    let mut count = 0;
    while let Some(record) = record_at(file, at) {
        let payload = &file[record.payload..record.payload + record.len];
        if !make_change(alloc, &mut current, record.kind, payload)? {
            return Ok(Err(record.at));
        }
        at = record.payload + record.len;
        count += 1;
    }
    let content = Content {
        text: current.text.into_vec(alloc)?,
        latest: current.latest,
    };
    Ok(Ok(Folded {
        content,
        gate: at,
        count,
    }))
}
