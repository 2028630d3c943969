//! How a machine judges edits of its journal.
ghost use Rattle.std.specs.Prelude.{◌≡◌, IfOk};
ghost use Rattle.live_journal.specs.declared.edit.Edit.TheVariants as live_edits;
ghost use Rattle.desk.specs.States as state;

use crate::deed::Deed;
use crate::desk::Desk;
use crate::judging::{covers, refusal};
use crate::planning::boxed_plan;
use crate::reply::Reply;
use crate::request::Allow;
use hl_base::{Bytes, Disk, Memory, Steps};
use live_journal::Edit;
use std::alloc::Global;
use std::sync::ledger::Ledger;

impl<D: Disk> Desk<D> {
    ghost use Rattle.std.specs.Prelude.{◌≡◌, Some, IfOk};
    ghost use Rattle.live_journal.specs.declared.edit.Edit.{Edit as LiveEdit};
    ghost use Rattle.desk.specs.Desks.{Serves, counts_of, state_of};
    ghost use Rattle.desk.specs.Reading.{CountsSteps};

    /// Answers an edit that needs so much; want of memory, where there was none for the edit.
    pub(crate) fn edit<L: Ledger>(
        &mut self,
        alloc: Global,
        need: Allow,
        edit: Result<Edit, Memory>,
        steps: &mut Steps<L>,
    ) -> Reply
        ensures served { (e : LiveEdit) → IfOk edit (λ given. given ≡ e)
            → Serves (state.edit_answer (state_of self.old) need (state.plain e))
            (Some (state.plain e)) self.old result self.new }
        ensures counts { counts_of self.new ≡ counts_of self.old }
        ensures steps { (e : LiveEdit) → IfOk edit (λ given. given ≡ e)
            → CountsSteps self.old.live (Some (state.plain e)) result steps.old steps.new }
    {
        match edit {
            Ok(edit) => {
                let deed = Deed { edit, mark: None };
                self.judge(alloc, need, &deed, steps)
            }
            Err(Memory) => Reply::Memory,
        }
    }

    /// Judges an edit that needs so much.
    pub(crate) fn judge<L: Ledger>(
        &mut self,
        alloc: Global,
        need: Allow,
        deed: &Deed,
        steps: &mut Steps<L>,
    ) -> Reply
        ensures served { Serves (state.edit_answer (state_of self.old) need deed.now)
            (Some deed.now) self.old result self.new }
        ensures counts { counts_of self.new ≡ counts_of self.old }
        ensures steps { CountsSteps self.old.live (Some deed.now) result steps.old steps.new }
    {
        if !covers(self.allow, need) {
            let have = self.allow;
            return Reply::Forbidden { need, have };
        }
        match boxed_plan(alloc, &mut self.live, &deed.edit, steps) {
            Ok(plan) => self.put_plan(alloc, deed, plan),
            Err(fault) => refusal(fault),
        }
    }
}

/// The addition of an entry.
pub(crate) fn add(alloc: Global, entry: &Bytes) -> Result<Edit, Memory>
    ensures { IfOk result (λ edit. edit ≡ live_edits.Add entry.now) }
{
    let entry = Bytes::copied(alloc, entry.as_slice())?;
    Ok(Edit::Add { entry })
}

/// The change of an item.
pub(crate) fn change(alloc: Global, base: u64, item: u64, entry: &Bytes) -> Result<Edit, Memory>
    ensures { IfOk result (λ edit. edit ≡ live_edits.Change base item entry.now) }
{
    let entry = Bytes::copied(alloc, entry.as_slice())?;
    Ok(Edit::Change { base, item, entry })
}

/// Another text in the place of the whole text.
pub(crate) fn replace(alloc: Global, base: u64, text: &Bytes) -> Result<Edit, Memory>
    ensures { IfOk result (λ edit. edit ≡ live_edits.Replace base text.now) }
{
    let text = Bytes::copied(alloc, text.as_slice())?;
    Ok(Edit::Replace { base, text })
}
