//! An edit that is tried, and a load of the text that it makes.
ghost use Rattle.std.specs.Prelude.{◌≡◌, ◌+◌, ◌≤◌, IfErr, IfOk, Option, OnOk, ℕ, length, nat_lt};
ghost use Rattle.hl_base.specs.Limits.{text_limit};
ghost use Rattle.book_laws.specs.Reaching.{HasNoPlainReach};
ghost use Rattle.live_journal.specs.Loading.{fault_of};
ghost use Rattle.live_journal.specs.Refusals.{TellsRefusal};
ghost use Rattle.live_journal.specs.Trying as spec;
ghost use Rattle.live_journal.specs.Walking.{edit_made};
ghost use Rattle.walked_edits.specs.Causes.{IsCause};

use crate::edit::Edit;
use crate::fault::EditFault;
use crate::loading::load_text;
use book::Boxed;
use hl_base::{Memory, Steps, TEXT_LIMIT};
use loaded_texts::{Behind, Made};
use std::alloc::Global;
use std::sync::ledger::Ledger;
use walked_edits::WalkFault;

/// An edit of a text that is tried: the year that the text begins in, if it has one, the text, the edit, the bytes that it puts
/// in, and the text that it makes.
#[derive(Clone, Copy)]
pub(crate) struct Editing<'a> {
    pub year: Option<u16>,
    pub text: &'a [u8],
    pub edit: &'a Edit,
    pub bytes: &'a [u8],
    pub new: &'a [u8],
}

/// The bytes as they are put behind the text.
pub(crate) fn behind_of<'a>(editing: &Editing<'a>) -> Behind<'a>
    ensures year { result.year ≡ editing.now.year }
    ensures text { result.text.now ≡ editing.now.text.now }
    ensures bytes { result.bytes.now ≡ editing.now.bytes.now }
{
    Behind {
        year: editing.year,
        text: editing.text,
        bytes: editing.bytes,
    }
}

/// Whether a size is past a limit.
pub(crate) fn is_past(size: u64, limit: u64) -> bool
    ensures { result ≡ nat_lt limit size }
{
    size > limit
}

/// Refuses an edit whose new text has more bytes than a text may have.
pub(crate) fn judge_size(new: &[u8]) -> Result<(), EditFault>
    ensures good { OnOk result (length new.now ≤ text_limit) }
    ensures fault { IfErr result (λ e. (year : Option ℕ) → TellsRefusal e (fault_of year new.now)) }
{
    let size = new.len() as u64;
    if is_past(size, TEXT_LIMIT) {
        let limit = TEXT_LIMIT;
        return Err(EditFault::TooLarge { limit, size });
    }
    Ok(())
}

/// The sum of two counts; want of memory where it is past all numbers.
pub(crate) fn sum_of(count: usize, more: usize) -> Result<u64, Memory>
    ensures { IfOk result (λ sum. sum ≡ count + more) }
{
    match count.checked_add(more) {
        Some(sum) => Ok(sum as u64),
        None => Err(Memory),
    }
}

/// All that is made of the new text, loaded anew.
pub(crate) fn loaded_anew<L: Ledger>(
    alloc: Global,
    editing: &Editing,
    steps: &mut Steps<L>,
) -> Result<Made, EditFault>
    ensures { spec.IsAnew editing.now result steps.old steps.new }
{
    let loaded = load_text(alloc, editing.new, editing.year, steps)?;
    let boxed = Boxed::new(alloc, loaded)?;
    Ok(Made::Loaded(boxed))
}

/// What an edit comes to that isn't walked: all that is made of the new text.
pub(crate) fn unwalked<L: Ledger>(
    alloc: Global,
    editing: &Editing,
    steps: &mut Steps<L>,
) -> Result<Made, EditFault>
    requires editing { spec.IsEditing editing.now }
    requires other { spec.IsOther editing.now.edit.now }
    ensures { spec.Comes editing.now result steps.old steps.new }
{
    loaded_anew(alloc, editing, steps)
}

/// What an edit comes to that a walk doesn't tell: all that is made of the new text, loaded anew, or want of memory.
pub(crate) fn loaded_after<L: Ledger>(
    alloc: Global,
    editing: &Editing,
    fault: WalkFault,
    steps: &mut Steps<L>,
) -> Result<Made, EditFault>
    requires editing { spec.IsEditing editing.now }
    requires unclosed { spec.IsOpen editing.now }
    requires cause { IsCause fault (HasNoPlainReach
        (edit_made (spec.journal_at editing.now) editing.now.edit.now)) }
    ensures { spec.ComesPast editing.now result steps.old steps.new }
{
    match fault {
        WalkFault::Load => loaded_anew(alloc, editing, steps),
        WalkFault::Memory => Err(EditFault::Memory),
    }
}
