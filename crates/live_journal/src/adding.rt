//! An entry that is added: what it makes, with no load where it reaches nothing that is mixed.
ghost use Rattle.std.specs.Prelude.{◌≡◌, ◌≤◌, IfErr, IfOk, None, OnErr, OnOk, Some, length};
ghost use Rattle.hl_base.specs.Counts.{Counts};
ghost use Rattle.hl_base.specs.Items.{items_of};
ghost use Rattle.hl_base.specs.Limits.{item_limit, text_limit};
ghost use Rattle.loaded_texts.specs.Keeping.{IsLoaded};
ghost use Rattle.live_journal.specs.Checking.{CountsBytes, CountsRefused};
ghost use Rattle.live_journal.specs.Loading.{fault_of};
ghost use Rattle.live_journal.specs.Refusals.{TellsRefusal, not_transactions};
ghost use Rattle.live_journal.specs.Trying as spec;

use crate::editing::{Editing, behind_of, is_past, judge_size, loaded_after, sum_of};
use crate::fault::EditFault;
use additions::{Added, Plain};
use hl_base::{ITEM_LIMIT, Steps};
use loaded_texts::{Loaded, Made, plain_addition, walked_addition};
use std::alloc::Global;
use std::sync::ledger::Ledger;
use text_ends::Grown;

/// Refuses bytes behind a text with which it has more items than a text may have.
fn judge_count(alloc: Global, editing: &Editing, loaded: &Loaded) -> Result<(), EditFault>
    requires loaded { IsLoaded editing.now.year editing.now.text.now loaded.now }
    requires add { spec.IsBehind editing.now loaded.now }
    requires short { length editing.now.new.now ≤ text_limit }
    ensures good { OnOk result (length (items_of editing.now.new.now) ≤ item_limit) }
    ensures fault { IfErr result (λ e.
        TellsRefusal e (fault_of editing.now.year editing.now.new.now)) }
{
    let more = loaded.text.end.count_behind(alloc, editing.bytes)?;
    let size = sum_of(loaded.items.len(), more)?;
    if is_past(size, ITEM_LIMIT) {
        let limit = ITEM_LIMIT;
        return Err(EditFault::TooLarge { limit, size });
    }
    Ok(())
}

/// What an entry that is added comes to behind a text, or the fault of the whole. Only what is put in is read, once.
fn come<L: Ledger>(
    alloc: Global,
    editing: &Editing,
    loaded: &Loaded,
    steps: &mut Steps<L>,
) -> Result<Added, EditFault>
    requires editing { spec.IsEditing editing.now }
    requires loaded { IsLoaded editing.now.year editing.now.text.now loaded.now }
    requires add { spec.IsAdd editing.now.edit.now }
    requires entries { not_transactions (items_of editing.now.text.now) editing.now.edit.now ≡ None }
    ensures coming { IfOk result (λ a. spec.IsComing editing.now loaded.now a.grown a.plain) }
    ensures fault { IfErr result (λ e.
        TellsRefusal e (fault_of editing.now.year editing.now.new.now)) }
    ensures refused { OnErr result (CountsRefused (spec.journal_at editing.now) editing.now.edit.now
        steps.old steps.new) }
    ensures counts { CountsBytes (length editing.now.bytes.now) steps.old steps.new }
{
    judge_size(editing.new)?;
    judge_count(alloc, editing, loaded)?;
    let coming = loaded
        .end
        .comes_to(alloc, &loaded.text.end, editing.bytes, steps)?;
    Ok(coming.unwrap())
}

/// What an entry comes to whose transactions leave all others as they are: they are put behind the book.
fn put_plain(
    alloc: Global,
    editing: &Editing,
    loaded: &Loaded,
    grown: Grown,
    plain: Plain,
) -> Result<Made, EditFault>
    requires editing { spec.IsEditing editing.now }
    requires loaded { IsLoaded editing.now.year editing.now.text.now loaded.now }
    requires coming { spec.IsComing editing.now loaded.now grown (Some plain) }
    ensures { (now : Counts) → spec.ComesSince editing.now result now now }
{
    let behind = behind_of(editing);
    let addition = plain_addition(alloc, loaded, &behind, grown, plain)?;
    Ok(Made::Added(addition))
}

/// What an entry comes to that reaches other transactions: what a walk makes of these, or else all that is made of the new text.
fn walk<L: Ledger>(
    alloc: Global,
    editing: &Editing,
    loaded: &mut Loaded,
    grown: Grown,
    steps: &mut Steps<L>,
) -> Result<Made, EditFault>
    requires editing { spec.IsEditing editing.now }
    requires loaded { IsLoaded editing.now.year editing.now.text.now loaded.old }
    requires coming { spec.IsComing editing.now loaded.old grown None }
    ensures comes { spec.ComesSince editing.now result steps.old steps.new }
    ensures stays { loaded.new ≡ loaded.old }
{
    let behind = behind_of(editing);
    match walked_addition(alloc, loaded, &behind, grown, steps) {
        Ok(addition) => Ok(Made::Added(addition)),
        Err(fault) => loaded_after(alloc, editing, fault, steps),
    }
}

/// The one or the other.
fn put_or_walk<L: Ledger>(
    alloc: Global,
    editing: &Editing,
    loaded: &mut Loaded,
    added: Added,
    steps: &mut Steps<L>,
) -> Result<Made, EditFault>
    requires editing { spec.IsEditing editing.now }
    requires loaded { IsLoaded editing.now.year editing.now.text.now loaded.old }
    requires coming { spec.IsComing editing.now loaded.old added.grown added.plain }
    ensures comes { spec.ComesSince editing.now result steps.old steps.new }
    ensures stays { loaded.new ≡ loaded.old }
{
    let Added { grown, plain } = added;
    match plain {
        Some(plain) => put_plain(alloc, editing, loaded, grown, plain),
        None => walk(alloc, editing, loaded, grown, steps),
    }
}

/// What an entry that is added comes to. All that is loaded is as it was afterwards.
pub(crate) fn add<L: Ledger>(
    alloc: Global,
    editing: &Editing,
    loaded: &mut Loaded,
    steps: &mut Steps<L>,
) -> Result<Made, EditFault>
    requires editing { spec.IsEditing editing.now }
    requires loaded { IsLoaded editing.now.year editing.now.text.now loaded.old }
    requires add { spec.IsAdd editing.now.edit.now }
    requires entries { not_transactions (items_of editing.now.text.now) editing.now.edit.now ≡ None }
    ensures comes { spec.Comes editing.now result steps.old steps.new }
    ensures stays { loaded.new ≡ loaded.old }
{
    let added = come(alloc, editing, loaded, steps)?;
    put_or_walk(alloc, editing, loaded, added, steps)
}
