//! An entry that is put in the place of an item: what it makes, with no load where it reaches nothing that is mixed.
ghost use Rattle.std.specs.Prelude.{◌≡◌, ◌+◌, ◌<◌, ◌≤◌, IfErr, IfOk, None, Ok, OnErr, OnOk, Option, false, length, true};
ghost use Rattle.hl_base.specs.Items.{items_of};
ghost use Rattle.hl_base.specs.Limits.{item_limit, text_limit};
ghost use Rattle.changed_texts.specs.OneEntry as entries;
ghost use Rattle.journal_reader.specs.Items.{items_in};
ghost use Rattle.loaded_texts.specs.Changing.{IsMetIn};
ghost use Rattle.loaded_texts.specs.Keeping.{IsLoaded};
ghost use Rattle.live_journal.specs.Checking.{CountsBytes};
ghost use Rattle.live_journal.specs.Loading.{fault_of};
ghost use Rattle.live_journal.specs.Placing as spec;
ghost use Rattle.live_journal.specs.Refusals.{TellsRefusal, no_such_item, not_transactions};
ghost use Rattle.live_journal.specs.Trying as tries;

use crate::editing::{Editing, is_past, judge_size, loaded_after, loaded_anew, sum_of, unwalked};
use crate::fault::EditFault;
use changed_texts::{Met, Site, has_one_entry, more_items, read_met};
use entry_reader::ReadFault;
use hl_base::{ITEM_LIMIT, Steps};
use loaded_texts::{Inside, Loaded, Made, walked_change};
use std::alloc::Global;
use std::sync::ledger::Ledger;

/// The bytes of an edit in the place of an item under a number, counted from 0.
fn inside_of<'a>(editing: &Editing<'a>, number: usize) -> Inside<'a>
    ensures year { result.year ≡ editing.now.year }
    ensures text { result.text.now ≡ editing.now.text.now }
    ensures number { result.number ≡ number }
    ensures bytes { result.bytes.now ≡ editing.now.bytes.now }
    ensures new { result.new.now ≡ editing.now.new.now }
{
    Inside {
        year: editing.year,
        text: editing.text,
        number,
        bytes: editing.bytes,
        new: editing.new,
    }
}

/// Reads what an edit puts in the place of an entry. Only that is read.
fn read_inside<L: Ledger>(
    alloc: Global,
    editing: &Editing,
    loaded: &Loaded,
    number: usize,
    steps: &mut Steps<L>,
) -> Result<Met, ReadFault>
    requires loaded { IsLoaded editing.now.year editing.now.text.now loaded.now }
    requires there { spec.IsThere editing.now number }
    requires short { length editing.now.new.now ≤ text_limit }
    requires one { entries.HasOneEntry editing.now.bytes.now }
    ensures met { IfOk result (spec.IsMetAt editing.now number loaded.now.items) }
    ensures fault { IfErr result (spec.IsUnread editing.now) }
    ensures counts { CountsBytes (length editing.now.bytes.now) steps.old steps.new }
{
    let site = Site {
        year: editing.year,
        text: editing.text,
        items: loaded.items.as_slice(),
        number,
    };
    read_met(alloc, &site, editing.bytes, steps)
}

/// Refuses an entry with the gaps around it by which the text gets more items than it may have.
fn judge_more(editing: &Editing, loaded: &Loaded, number: usize, met: &Met) -> Result<(), EditFault>
    requires loaded { IsLoaded editing.now.year editing.now.text.now loaded.now }
    requires met { spec.IsMetAt editing.now number loaded.now.items met.now }
    requires short { length editing.now.new.now ≤ text_limit }
    ensures good { OnOk result (length (items_of editing.now.new.now) ≤ item_limit) }
    ensures fault { IfErr result (λ e.
        TellsRefusal e (fault_of editing.now.year editing.now.new.now)) }
{
    let more = more_items(loaded.items.as_slice(), number, met);
    let size = sum_of(loaded.items.len(), more)?;
    if is_past(size, ITEM_LIMIT) {
        let limit = ITEM_LIMIT;
        return Err(EditFault::TooLarge { limit, size });
    }
    Ok(())
}

/// What an edit comes to whose bytes don't read: the fault of the new text, which is loaded for it, or want of memory.
fn unread<L: Ledger>(
    alloc: Global,
    editing: &Editing,
    fault: &ReadFault,
    steps: &mut Steps<L>,
) -> Result<Made, EditFault>
    requires editing { tries.IsEditing editing.now }
    requires unclosed { tries.IsOpen editing.now }
    requires fault { spec.IsUnread editing.now fault.now }
    ensures { tries.ComesSince editing.now result steps.old steps.new }
{
    match fault {
        ReadFault::Read(_) => loaded_anew(alloc, editing, steps),
        ReadFault::Memory => Err(EditFault::Memory),
    }
}

/// What an edit comes to whose bytes were read in the place of an entry: what a walk makes, or else all that is made of the new
/// text.
fn walk_inside<L: Ledger>(
    alloc: Global,
    editing: &Editing,
    loaded: &mut Loaded,
    number: usize,
    met: Met,
    steps: &mut Steps<L>,
) -> Result<Made, EditFault>
    requires editing { tries.IsEditing editing.now }
    requires unclosed { tries.IsOpen editing.now }
    requires change { spec.IsChangeOf editing.now number }
    requires loaded { IsLoaded editing.now.year editing.now.text.now loaded.old }
    requires met { spec.IsMetInside editing.now number loaded.old.items met }
    ensures comes { tries.ComesSince editing.now result steps.old steps.new }
    ensures stays { loaded.new ≡ loaded.old }
{
    let inside = inside_of(editing, number);
    match walked_change(alloc, loaded, &inside, met, steps) {
        Ok(changed) => Ok(Made::Changed(changed)),
        Err(fault) => loaded_after(alloc, editing, fault, steps),
    }
}

/// The same, unless the text gets more items than it may have.
fn walk_met<L: Ledger>(
    alloc: Global,
    editing: &Editing,
    loaded: &mut Loaded,
    number: usize,
    met: Met,
    steps: &mut Steps<L>,
) -> Result<Made, EditFault>
    requires editing { tries.IsEditing editing.now }
    requires unclosed { tries.IsOpen editing.now }
    requires change { spec.IsChangeOf editing.now number }
    requires loaded { IsLoaded editing.now.year editing.now.text.now loaded.old }
    requires met { spec.IsMetAt editing.now number loaded.old.items met }
    requires short { length editing.now.new.now ≤ text_limit }
    ensures comes { tries.ComesSince editing.now result steps.old steps.new }
    ensures stays { loaded.new ≡ loaded.old }
{
    judge_more(editing, loaded, number, &met)?;
    walk_inside(alloc, editing, loaded, number, met, steps)
}

/// What an edit comes to that puts an entry, with gaps around it or none, in the place of another one.
fn change_entry<L: Ledger>(
    alloc: Global,
    editing: &Editing,
    loaded: &mut Loaded,
    number: usize,
    steps: &mut Steps<L>,
) -> Result<Made, EditFault>
    requires editing { tries.IsEditing editing.now }
    requires unclosed { tries.IsOpen editing.now }
    requires change { spec.IsChangeOf editing.now number }
    requires loaded { IsLoaded editing.now.year editing.now.text.now loaded.old }
    requires there { spec.IsThere editing.now number }
    requires one { entries.HasOneEntry editing.now.bytes.now }
    requires short { length editing.now.new.now ≤ text_limit }
    ensures comes { tries.Comes editing.now result steps.old steps.new }
    ensures stays { loaded.new ≡ loaded.old }
{
    match read_inside(alloc, editing, loaded, number, steps) {
        Ok(met) => walk_met(alloc, editing, loaded, number, met, steps),
        Err(fault) => unread(alloc, editing, &fault, steps),
    }
}

/// What an edit comes to that puts bytes in the place of the entry under a number, counted from 1. All that is loaded is as it was
/// afterwards. Where the bytes aren't exactly one entry with gaps around it or none, the new text is loaded.
pub(crate) fn change<L: Ledger>(
    alloc: Global,
    editing: &Editing,
    loaded: &mut Loaded,
    item: u64,
    steps: &mut Steps<L>,
) -> Result<Made, EditFault>
    requires editing { tries.IsEditing editing.now }
    requires loaded { IsLoaded editing.now.year editing.now.text.now loaded.old }
    requires change { spec.IsChange editing.now.edit.now item }
    requires there { no_such_item (items_of editing.now.text.now) editing.now.edit.now ≡ None }
    requires entries { not_transactions (items_of editing.now.text.now) editing.now.edit.now ≡ None }
    ensures comes { tries.Comes editing.now result steps.old steps.new }
    ensures stays { loaded.new ≡ loaded.old }
{
    let one = has_one_entry(alloc, editing.bytes)?;
    if !one {
        return unwalked(alloc, editing, steps);
    }
    judge_size(editing.new)?;
    let number = (item - 1) as usize;
    change_entry(alloc, editing, loaded, number, steps)
}
