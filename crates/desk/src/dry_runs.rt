//! Dry runs: what an edit would be replied, where nothing is stored.
ghost use Rattle.std.specs.Prelude.{◌≡◌, ◌⊎◌, ◌+◌, ◌-◌, ◌^◌, IfOk, min};
ghost use Rattle.desk.specs.DryRuns.{IsToldOf, added_in};
ghost use Rattle.desk.specs.Previews as spec;

use crate::deed::Deed;
use crate::desk::Desk;
use crate::judging::{covers, refusal};
use crate::planning::boxed_plan;
use crate::putting::{Ready, dropped, make_ready};
use crate::reply::Reply;
use crate::request::{Allow, Request};
use book::Boxed;
use hl_base::{Bytes, Disk, Memory, Splice, Steps, Text};
use live_journal::{Edit, Live, Plan};
use query::Maker;
use std::alloc::Global;
use std::string::ToString;
use std::sync::ledger::Ledger;

impl<D: Disk> Desk<D> {
    ghost use Rattle.std.specs.Prelude.{◌≡◌, ◌⊎◌, ℕ, true, None, Some, IfErr, IfOk};
    ghost use Rattle.live_journal.specs.declared.edit.Edit.{Edit as LiveEdit};
    ghost use Rattle.live_journal.specs.Loading.{first_of};
    ghost use Rattle.live_journal.specs.Refusals.{planned};
    ghost use Rattle.desk.specs.Desks.{Serves, counts_of, state_of};
    ghost use Rattle.desk.specs.DryRuns.{IsDryReply, IsDryRun, IsUnchanged, inserted_by};
    ghost use Rattle.desk.specs.Imports.{entries_of as entries_told};
    ghost use Rattle.desk.specs.Reading.{CountsDryRun, CountsSteps, edit_reply, is_planned};
    ghost use Rattle.desk.specs.States as state;
    ghost use Rattle.desk.specs.Steps.{TellsReply};

    /// Answers the check of an edit; want of memory, where there was none for the edit.
    pub(crate) fn check<L: Ledger>(
        &mut self,
        alloc: Global,
        edit: Result<Edit, Memory>,
        steps: &mut Steps<L>,
    ) -> Reply
        ensures served { (e : LiveEdit) → IfOk edit (λ given. given ≡ e)
            → Serves (state.check_answer (state_of self.old) (state.plain e)) None
            self.old result self.new }
        ensures counts { counts_of self.new ≡ counts_of self.old }
        ensures steps { (e : LiveEdit) → IfOk edit (λ given. given ≡ e)
            → CountsSteps self.old.live (Some (state.plain e)) (edit_reply result)
            steps.old steps.new }
    {
        match edit {
            Ok(edit) => {
                let deed = Deed { edit, mark: None };
                let made = self.dry_run(alloc, &deed, steps);
                checked(alloc, &self.live, made)
            }
            Err(Memory) => Reply::Memory,
        }
    }

    /// Answers the preview of an import of a file by rules under a name.
    pub(crate) fn preview<M: Maker, L: Ledger>(
        &mut self,
        alloc: Global,
        name: &Text,
        rules: &[u8],
        csv: &[u8],
        maker: &mut M,
        steps: &mut Steps<L>,
    ) -> Reply
        ensures maker { (day : ℕ) → TellsReply (Request.Preview name.now rules.now csv.now) day
            (M.refusals maker.old) (M.refusals maker.new)
            (M.last_refused maker.old) (M.last_refused maker.new) result }
        ensures served { Serves (state.preview_answer (state_of self.old)
            name.now rules.now csv.now) None self.old result self.new }
        ensures counts { counts_of self.new ≡ counts_of self.old }
        ensures steps { CountsSteps self.old.live
            (state.deed_of_file (state_of self.old) name.now (entries_told rules.now csv.now))
            (edit_reply result) steps.old steps.new }
    {
        match self.deed_in_file(alloc, name, rules, csv, maker) {
            Ok(deed) => self.preview_deed(alloc, deed, steps),
            Err(reply) => reply,
        }
    }

    /// Answers the preview of what an import would put in, unless none of its entries is new.
    fn preview_deed<L: Ledger>(
        &mut self,
        alloc: Global,
        deed: Option<Deed>,
        steps: &mut Steps<L>,
    ) -> Reply
        ensures replied { let s = state_of self.old in
            IsDryReply s (inserted_by s deed) (state.deed_answer s deed) result }
        ensures stays { IsUnchanged self.old self.new }
        ensures steps { CountsSteps self.old.live deed (edit_reply result) steps.old steps.new }
    {
        match deed {
            Some(deed) => {
                let made = self.dry_run(alloc, &deed, steps);
                previewed(alloc, &self.live, made)
            }
            None => {
                let revision = self.live.revision();
                Reply::Same { revision }
            }
        }
    }

    /// The plan of an addition that would be stored, or the refusal that the addition would be replied.
    fn dry_run<L: Ledger>(
        &mut self,
        alloc: Global,
        deed: &Deed,
        steps: &mut Steps<L>,
    ) -> Result<Boxed<Plan>, Reply>
        ensures runs { let s = state_of self.old in
            IsDryRun s (state.edit_answer s Allow.Add deed.now)
            (planned self.old.live deed.now.edit) result }
        ensures stays { IsUnchanged self.old self.new }
        ensures steps { CountsDryRun self.old.live deed.now result steps.old steps.new }
    {
        if !covers(self.allow, Allow::Add) {
            let have = self.allow;
            return Err(Reply::Forbidden {
                need: Allow::Add,
                have,
            });
        }
        match boxed_plan(alloc, &mut self.live, &deed.edit, steps) {
            Ok(plan) => self.if_stored(alloc, deed, plan),
            Err(fault) => Err(refusal(fault)),
        }
    }

    /// The plan of an edit, where it would be stored; or the refusal that the edit would be replied.
    fn if_stored(&self, alloc: Global, deed: &Deed, plan: Boxed<Plan>) -> Result<Boxed<Plan>, Reply>
        requires { plan ≡ planned self.now.live deed.now.edit }
        ensures runs { let s = state_of self.now in
            IsDryRun s (state.or_done s deed.now (first_of (state.cases_left s deed.now)))
            (planned self.now.live deed.now.edit) result }
        ensures accepted { IfErr result (λ r. is_planned r ≡ true) }
    {
        match self.unstored(alloc, deed, &plan) {
            Some(reply) => Err(dropped(plan, reply)),
            None => Ok(plan),
        }
    }

    /// Why an edit that was planned wouldn't be stored: it leaves the text as it is, the store has no room for it, a number has
    /// come to its end, or memory ran out.
    fn unstored(&self, alloc: Global, deed: &Deed, plan: &Boxed<Plan>) -> Option<Reply>
        requires { plan.now ≡ planned self.now.live deed.now.edit }
        ensures { (result ≡ Some Reply.Memory)
            ⊎ (result ≡ first_of (state.cases_left (state_of self.now) deed.now)) }
    {
        let same = plan.get().same();
        if same {
            let revision = self.live.revision();
            return Some(Reply::Same { revision });
        }
        let ready = make_ready(alloc, deed, plan.get().splice(), &self.latest);
        self.without_room(deed, ready)
    }

    /// Why an edit that changes the text wouldn't be stored: the store has no room for what it is kept as, a number has come to
    /// its end, or memory ran out.
    fn without_room(&self, deed: &Deed, made: Result<Ready, Memory>) -> Option<Reply>
        requires change { IfOk made (λ ready. ready.change
            ≡ state.change_of self.now.live.text deed.now) }
        requires states { IfOk made (λ ready. ready.states
            ≡ state.states_with deed.now.mark self.now.latest) }
        ensures { let s = state_of self.now in (result ≡ Some Reply.Memory)
            ⊎ (result ≡ first_of (state.full_cases s deed.now.mark
            (state.states_with deed.now.mark s.latest)
            (state.record_size (state.change_of s.text deed.now)))) }
    {
        let _limit = self.store.limit();
        match made {
            Ok(ready) => self.unready(deed, &ready),
            Err(Memory) => Some(Reply::Memory),
        }
    }
}

/// The reply to a check: the line of the revision that the plan would make, or the refusal.
fn checked(alloc: Global, live: &Live, made: Result<Boxed<Plan>, Reply>) -> Reply
    ensures { IsToldOf live.now.revision
        (λ plan. spec.revision_line (min (live.now.revision + 1) (2 ^ 64 - 1))) made result }
{
    match made {
        Ok(plan) => line_reply(alloc, live, plan),
        Err(reply) => reply,
    }
}

/// The reply with the line of the revision that a plan would make.
fn line_reply(alloc: Global, live: &Live, _plan: Boxed<Plan>) -> Reply
    ensures { (result ≡ Reply.Memory) ⊎ (result ≡ Reply.Text live.now.revision
        (spec.revision_line (min (live.now.revision + 1) (2 ^ 64 - 1)))) }
{
    let revision = live.revision();
    match revision_line(alloc, revision.saturating_add(1)) {
        Ok(bytes) => Reply::Text { revision, bytes },
        Err(Memory) => Reply::Memory,
    }
}

/// The line of an edit that makes a revision.
fn revision_line(alloc: Global, revision: u64) -> Result<Bytes, Memory>
    ensures { IfOk result (λ line. line ≡ spec.revision_line revision) }
{
    let mut line = String::from_str(alloc, "revision ")?;
    line.push_str(revision.to_string(alloc)?.as_str())?;
    line.push_str("\n")?;
    Ok(Bytes::from_vec(line.into_bytes()))
}

/// The reply to a preview: what the plan would add, or the refusal.
fn previewed(alloc: Global, live: &Live, made: Result<Boxed<Plan>, Reply>) -> Reply
    ensures { IsToldOf live.now.revision added_in made result }
{
    match made {
        Ok(plan) => added_reply(alloc, live, plan),
        Err(reply) => reply,
    }
}

/// The reply with what a plan would add.
fn added_reply(alloc: Global, live: &Live, plan: Boxed<Plan>) -> Reply
    ensures { (result ≡ Reply.Memory)
        ⊎ (result ≡ Reply.Text live.now.revision (added_in plan)) }
{
    let revision = live.revision();
    match added_bytes(alloc, plan.get().splice()) {
        Ok(bytes) => Reply::Text { revision, bytes },
        Err(Memory) => Reply::Memory,
    }
}

/// A copy of what a change inserts, without the line ends before it.
fn added_bytes(alloc: Global, splice: &Splice) -> Result<Bytes, Memory>
    ensures { IfOk result (λ bytes. bytes ≡ spec.past_line_ends splice.now.inserted) }
{
    Bytes::copied(alloc, past_line_ends(splice.inserted.as_slice()))
}

/// Bytes without the line ends at their front.
pub fn past_line_ends(bytes: &[u8]) -> &[u8]
    ensures { result.now ≡ spec.past_line_ends bytes.now }
{
    let mut left = bytes;
    while let Some((byte, rest)) = left.split_first() {
        if *byte != b'\n' {
            return left;
        }
        left = rest;
    }
    left
}
