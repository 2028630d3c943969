//! The changes of the store that edits are, and the room that they need.
ghost use Rattle.std.specs.Prelude.{◌≡◌, ◌-◌, ◌^◌, ℕ, List, IfOk, min};
ghost use Rattle.text_store.specs.Changes.{payload_of};
ghost use Rattle.desk.specs.States as spec;
ghost use Rattle.live_journal.specs.Edits.{splice_of};

use crate::deed::Deed;
use hl_base::{Bytes, Latest, List, Memory, Splice};
use live_journal::{Edit, Live};
use std::alloc::Global;
use text_store::{Change, Image};

/// A copy of a change of a text.
fn copy_splice(alloc: Global, splice: &Splice) -> Result<Splice, Memory>
    ensures { IfOk result (λ copy. copy ≡ splice.now) }
{
    Ok(Splice {
        at: splice.at,
        removed: splice.removed,
        inserted: Bytes::copied(alloc, splice.inserted.as_slice())?,
    })
}

/// The change of the store that an edit of a text is, whose change of the text is `splice`.
fn plain_change(alloc: Global, edit: &Edit, splice: &Splice) -> Result<Change, Memory>
    ensures { (text : List ℕ) → splice.now ≡ splice_of text edit.now
        → IfOk result (λ change. change ≡ spec.plain_change text edit.now) }
{
    match edit {
        Edit::Add { entry: _ } => Ok(Change::Splice(copy_splice(alloc, splice)?)),
        Edit::Change { .. } => Ok(Change::Splice(copy_splice(alloc, splice)?)),
        Edit::Replace { base: _, text } => Ok(Change::Whole(Bytes::copied(
            alloc,
            text.as_slice(),
        )?)),
    }
}

/// That of an import.
fn import_change(alloc: Global, mark: &Latest, splice: &Splice) -> Result<Change, Memory>
    ensures { IfOk result (λ change. change ≡ Change.Import mark.now splice.now) }
{
    let mark = mark.copied(alloc)?;
    Ok(Change::Import(mark, copy_splice(alloc, splice)?))
}

/// The change of the store that an edit is, whose change of the text is `splice`.
pub(crate) fn change_of(alloc: Global, deed: &Deed, splice: &Splice) -> Result<Change, Memory>
    ensures { (text : List ℕ) → splice.now ≡ splice_of text deed.now.edit
        → IfOk result (λ change. change ≡ spec.change_of text deed.now) }
{
    match &deed.mark {
        None => plain_change(alloc, &deed.edit, splice),
        Some(mark) => import_change(alloc, mark, splice),
    }
}

/// The length of a change as a record of the store, at most 2^64 - 1.
pub(crate) fn record_size(change: &Change) -> u64
    ensures { result ≡ min (spec.record_size change.now) (2 ^ 64 - 1) }
{
    match change {
        Change::Splice(splice) => (splice.inserted.as_slice().len() as u64).saturating_add(26),
        Change::Whole(text) => (text.as_slice().len() as u64).saturating_add(10),
        Change::Import(latest, splice) => (latest.name.as_bytes().len() as u64)
            .saturating_add(splice.inserted.as_slice().len() as u64)
            .saturating_add(38),
    }
}

/// A copy of the states of imports.
pub(crate) fn copy_states(alloc: Global, states: &[Latest]) -> Result<List<Latest>, Memory>
    ensures { IfOk result (λ copy. copy ≡ states.now) }
{
    let mut copy = Vec::with_capacity(alloc, states.len())?;
    for state in states {
        copy.push(state.copied(alloc)?)?;
    }
    Ok(List::from_vec(copy))
}

/// The image that a store keeps of a journal.
pub(crate) fn image_of(alloc: Global, live: &Live, latest: &List<Latest>) -> Result<Image, Memory>
    ensures { IfOk result (λ image. image ≡ record {
      text = live.now.text;
      latest = latest.now;
      revision = live.now.revision;
    }) }
{
    Ok(Image {
        text: Bytes::copied(alloc, live.text())?,
        latest: copy_states(alloc, latest.as_slice())?,
        revision: live.revision(),
    })
}
