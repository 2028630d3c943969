//! Edits as they are planned, on the heap: a plan is large, and goes through many hands.
ghost use Rattle.std.specs.Prelude.{◌≡◌, ◌+◌, ◌-◌, ◌^◌, ◌<◌, ◌≤◌, IfErr, IfOk, OnOk, false, if◌then◌else◌, length};
ghost use Rattle.hl_base.specs.Gives.{Gives};
ghost use Rattle.live_journal.specs.Checking.{CountsEdit};
ghost use Rattle.live_journal.specs.Refusals.{cause_in, prepared, put_into};
ghost use Rattle.desk.specs.Reading.{CountsFault};

use book::Boxed;
use hl_base::Steps;
use live_journal::{Edit, EditFault, Live, Plan};
use std::alloc::Global;
use std::sync::ledger::Ledger;

/// The plan of an edit, or why the journal refuses it, or want of memory.
pub(crate) fn boxed_plan<L: Ledger>(
    alloc: Global,
    live: &mut Live,
    edit: &Edit,
    steps: &mut Steps<L>,
) -> Result<Boxed<Plan>, EditFault>
    ensures value { Gives (λ plan. plan) cause_in result (prepared live.old edit.now) }
    ensures inside { IfOk result (λ plan. plan.splice.at + plan.splice.removed
        ≤ length live.old.text) }
    ensures from { IfOk result (λ plan. plan.from ≡ live.old) }
    ensures stays { live.new ≡ live.old }
    ensures counts { OnOk result (CountsEdit live.old edit.now steps.old steps.new) }
    ensures refused { IfErr result (λ fault. CountsFault live.old edit.now fault
        steps.old steps.new) }
{
    let plan = live.prepare(edit, steps)?;
    let boxed = Boxed::new(alloc, plan)?;
    Ok(boxed)
}

/// Puts in an edit that was planned.
pub(crate) fn put_boxed(live: &mut Live, plan: Boxed<Plan>)
    requires from { plan.from ≡ live.old }
    requires counts { plan.same ≡ false → live.old.revision < 2 ^ 64 - 1 }
    ensures { live.new ≡ put_into plan (if plan.same then live.old.revision else live.old.revision
        + 1) }
{
    live.put(plan.into_inner());
}
