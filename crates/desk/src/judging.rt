//! Why an edit is refused, and how a reply counts.
ghost use Rattle.std.specs.Prelude.{◌≡◌, ◌+◌, ◌∷◌, [], nat_lt};
ghost use Rattle.live_journal.specs.Loading.{first_of};
ghost use Rattle.desk.specs.States as state;
ghost use Rattle.desk.specs.Steps as spec;

use crate::reply::Reply;
use crate::request::Allow;
use hl_base::{Latest, List};
use live_journal::EditFault;

/// The refusal of a number that is past its end.
fn past_end(n: u64) -> Option<Reply>
    ensures { result ≡ state.past_end n }
{
    if n < 1 << 32 {
        return None;
    }
    Some(Reply::Full {
        size: n,
        limit: (1 << 32) - 1,
    })
}

/// The refusal of an import whose name is too long.
fn long_name(mark: &Option<Latest>) -> Option<Reply>
    ensures { result ≡ state.long_name mark.now }
{
    match mark {
        None => None,
        Some(mark) => past_end(mark.name.as_bytes().len() as u64),
    }
}

/// The refusal of an import that would make too many states.
fn many_states(states: &Option<List<Latest>>) -> Option<Reply>
    ensures { result ≡ state.many_states states.now }
{
    match states {
        None => None,
        Some(states) => past_end(states.len() as u64),
    }
}

/// The refusal of an import of which a number has come to its end.
fn past_ends(mark: &Option<Latest>, states: &Option<List<Latest>>) -> Option<Reply>
    ensures { result ≡ first_of (state.long_name mark.now ∷ state.many_states states.now ∷ []) }
{
    match long_name(mark) {
        Some(reply) => Some(reply),
        None => many_states(states),
    }
}

/// The refusal of an edit at a revision, of which a number has come to its end.
pub(crate) fn at_an_end(
    revision: u64,
    mark: &Option<Latest>,
    states: &Option<List<Latest>>,
) -> Option<Reply>
    ensures { result ≡ first_of (state.last_revision revision
        ∷ state.long_name mark.now ∷ state.many_states states.now ∷ []) }
{
    match last_revision(revision) {
        Some(reply) => Some(reply),
        None => past_ends(mark, states),
    }
}

/// Whether what is allowed includes what is needed.
pub(crate) fn covers(have: Allow, need: Allow) -> bool
    ensures { result ≡ state.covers have need }
{
    match (have, need) {
        (_, Allow::View) | (Allow::Edit, _) | (Allow::Add, Allow::Add) => true,
        (Allow::View, Allow::Add) | (Allow::View | Allow::Add, Allow::Edit) => false,
    }
}

/// The refusal of an edit by the journal, as a reply.
pub(crate) fn refusal(fault: EditFault) -> Reply
    ensures { result ≡ state.as_reply fault }
{
    match fault {
        EditFault::BadBase { base, current } => Reply::BadBase { base, current },
        EditFault::Stale { base, current } => Reply::Stale { base, current },
        EditFault::NoSuchItem { n, count } => Reply::NoSuchItem { n, count },
        EditFault::NotTransactions { line } => Reply::NotTransactions { line },
        EditFault::TooLarge { limit, size } => Reply::TooLarge { limit, size },
        EditFault::Load(fault) => Reply::Load(fault),
        EditFault::Memory => Reply::Memory,
    }
}

/// Whether a new store with one more record passes its limit.
pub(crate) fn is_past(limit: u64, whole: u64, size: u64) -> bool
    ensures { result ≡ nat_lt limit (whole + size) }
{
    size > limit || whole > limit - size
}

/// The revision past which no edit is taken.
const LAST_REVISION: u64 = 1 << 62;

/// The refusal of an edit at a revision that has come to its end.
fn last_revision(revision: u64) -> Option<Reply>
    ensures { result ≡ state.last_revision revision }
{
    if revision < LAST_REVISION {
        return None;
    }
    let limit = LAST_REVISION;
    let size = revision.saturating_add(1);
    Some(Reply::Full { size, limit })
}

/// The requests and the refused ones after one more reply. A count stays at its last value.
pub(crate) fn counted(requests: u64, refused: u64, reply: &Reply) -> (u64, u64)
    ensures { result ≡ spec.counted (requests, refused) reply.now }
{
    if is_granted(reply) {
        (requests.saturating_add(1), refused)
    } else {
        (requests.saturating_add(1), refused.saturating_add(1))
    }
}

/// Whether a reply is no refusal.
fn is_granted(reply: &Reply) -> bool
    ensures { result ≡ spec.is_granted reply.now }
{
    matches!(
        reply,
        Reply::Done { .. } | Reply::Same { .. } | Reply::Text { .. }
    )
}
