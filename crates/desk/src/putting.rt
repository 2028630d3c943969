//! How an edit that was planned is kept by the store, and put into the journal.
ghost use Rattle.std.specs.Prelude.{◌≡◌, ℕ, IfOk, List};
ghost use Rattle.live_journal.specs.Edits.{splice_of};
ghost use Rattle.desk.specs.States as state;

use crate::deed::Deed;
use crate::desk::Desk;
use crate::keep::{Unkept, keep};
use crate::planning::put_boxed;
use crate::reply::Reply;
use crate::sizes::{change_of, record_size};
use crate::states::states_with;
use book::Boxed;
use hl_base::{Disk, Latest, List, Memory, Splice};
use live_journal::Plan;
use std::alloc::Global;
use text_store::Change;

/// What an edit is kept as: the change of the store, and the states of imports after it, if it is one.
#[derive(Drop)]
pub(crate) struct Ready {
    pub change: Change,
    pub states: Option<List<Latest>>,
}

impl<D: Disk> Desk<D> {
    ghost use Rattle.std.specs.Prelude.{◌≡◌, ◌+◌, ◌-◌, ◌^◌, ◌≤◌, Some, None, true, false, IfOk, IfSome, length, min};
    ghost use Rattle.std.specs.Option.{unwrap_or};
    ghost use Rattle.live_journal.specs.Loading.{first_of};
    ghost use Rattle.live_journal.specs.Refusals.{planned};
    ghost use Rattle.desk.specs.Desks.{Serves, counts_of, state_of};
    ghost use Rattle.desk.specs.Keeping.{are_writable};
    ghost use Rattle.desk.specs.Reading.{is_planned};

    /// Puts in an edit that was planned, unless it changes nothing or the store has no room for it.
    pub(crate) fn put_plan(&mut self, alloc: Global, deed: &Deed, plan: Boxed<Plan>) -> Reply
        requires plan { plan ≡ planned self.old.live deed.now.edit }
        requires inside { plan.splice.at + plan.splice.removed ≤ length self.old.live.text }
        ensures served { let s = state_of self.old in
            Serves (state.or_done s deed.now (first_of (state.cases_left s deed.now)))
            (Some deed.now) self.old result self.new }
        ensures counts { counts_of self.new ≡ counts_of self.old }
        ensures accepted { is_planned result ≡ true }
    {
        let same = plan.get().same();
        if same {
            let revision = self.live.revision();
            return dropped(plan, Reply::Same { revision });
        }
        let ready = make_ready(alloc, deed, plan.get().splice(), &self.latest);
        self.put_made(alloc, deed, ready, plan)
    }

    /// Puts in an edit that was planned and changes the text, if there was memory for what it is kept as, and the store has
    /// room for that.
    fn put_made(
        &mut self,
        alloc: Global,
        deed: &Deed,
        made: Result<Ready, Memory>,
        plan: Boxed<Plan>,
    ) -> Reply
        requires plan { plan ≡ planned self.old.live deed.now.edit }
        requires differs { plan.same ≡ false }
        requires inside { plan.splice.at + plan.splice.removed ≤ length self.old.live.text }
        requires change { IfOk made (λ ready. ready.change
            ≡ state.change_of self.old.live.text deed.now) }
        requires states { IfOk made (λ ready. ready.states
            ≡ state.states_with deed.now.mark self.old.latest) }
        ensures served { let s = state_of self.old in
            Serves (state.or_done s deed.now (first_of (state.cases_left s deed.now)))
            (Some deed.now) self.old result self.new }
        ensures counts { counts_of self.new ≡ counts_of self.old }
        ensures accepted { is_planned result ≡ true }
    {
        match made {
            Ok(ready) => self.put_ready(alloc, deed, ready, plan),
            Err(Memory) => dropped(plan, Reply::Memory),
        }
    }

    /// Puts in an edit that was planned and changes the text, unless the store has no room for what it is kept as.
    fn put_ready(&mut self, alloc: Global, deed: &Deed, ready: Ready, plan: Boxed<Plan>) -> Reply
        requires plan { plan ≡ planned self.old.live deed.now.edit }
        requires differs { plan.same ≡ false }
        requires inside { plan.splice.at + plan.splice.removed ≤ length self.old.live.text }
        requires change { ready.change ≡ state.change_of self.old.live.text deed.now }
        requires states { ready.states ≡ state.states_with deed.now.mark self.old.latest }
        ensures served { let s = state_of self.old in
            Serves (state.or_done s deed.now (first_of (state.cases_left s deed.now)))
            (Some deed.now) self.old result self.new }
        ensures counts { counts_of self.new ≡ counts_of self.old }
        ensures accepted { is_planned result ≡ true }
    {
        let _limit = self.store.limit();
        match self.unready(deed, &ready) {
            Some(reply) => dropped(plan, reply),
            None => self.keep_ready(alloc, deed, ready, plan),
        }
    }

    /// Keeps an edit that was planned and has the room, and puts it in.
    fn keep_ready(&mut self, alloc: Global, deed: &Deed, ready: Ready, plan: Boxed<Plan>) -> Reply
        requires plan { plan ≡ planned self.old.live deed.now.edit }
        requires differs { plan.same ≡ false }
        requires inside { plan.splice.at + plan.splice.removed ≤ length self.old.live.text }
        requires change { ready.change ≡ state.change_of self.old.live.text deed.now }
        requires states { ready.states ≡ state.states_with deed.now.mark self.old.latest }
        requires room { first_of (state.full_cases (state_of self.old) deed.now.mark ready.states
            (min (state.record_size ready.change) (2 ^ 64 - 1))) ≡ None }
        ensures served { Serves (state.or_done (state_of self.old) deed.now None)
            (Some deed.now) self.old result self.new }
        ensures counts { counts_of self.new ≡ counts_of self.old }
        ensures accepted { is_planned result ≡ true }
    {
        let Ready { change, states } = ready;
        self.keep_plan(alloc, deed, &change, states, plan)
    }

    /// Keeps an edit that was planned and has the room, and puts it in.
    fn keep_plan(
        &mut self,
        alloc: Global,
        deed: &Deed,
        change: &Change,
        states: Option<List<Latest>>,
        plan: Boxed<Plan>,
    ) -> Reply
        requires plan { plan ≡ planned self.old.live deed.now.edit }
        requires differs { plan.same ≡ false }
        requires inside { plan.splice.at + plan.splice.removed ≤ length self.old.live.text }
        requires change { change.now ≡ state.change_of self.old.live.text deed.now }
        requires states { states ≡ state.states_with deed.now.mark self.old.latest }
        requires room { first_of (state.full_cases (state_of self.old) deed.now.mark states
            (min (state.record_size change.now) (2 ^ 64 - 1))) ≡ None }
        ensures served { Serves (state.or_done (state_of self.old) deed.now None)
            (Some deed.now) self.old result self.new }
        ensures counts { counts_of self.new ≡ counts_of self.old }
        ensures accepted { is_planned result ≡ true }
    {
        let _ = deed;
        let _limit = self.store.limit();
        let size = record_size(change);
        let before = self.store.faults();
        match keep(
            &mut self.store,
            alloc,
            &self.live,
            &self.latest,
            change,
            size,
        ) {
            Ok(()) => {
                put_boxed(&mut self.live, plan);
                self.put_states(states);
                let revision = self.live.revision();
                Reply::Done { revision }
            }
            Err(Unkept::Memory) => Reply::Memory,
            Err(Unkept::DiskFault) => {
                let after = self.store.faults();
                Reply::DiskFault { before, after }
            }
        }
    }

    /// Takes the states of imports as they are after one, if it was one.
    fn put_states(&mut self, states: Option<List<Latest>>)
        requires { IfSome states (λ made. are_writable made ≡ true) }
        ensures latest { self.new.latest ≡ unwrap_or states self.old.latest }
        ensures store { self.new.store ≡ self.old.store }
        ensures live { self.new.live ≡ self.old.live }
        ensures allowed { self.new.allow ≡ self.old.allow }
        ensures counts { counts_of self.new ≡ counts_of self.old }
    {
        if let Some(made) = states {
            self.latest = made;
        }
    }
}

/// A reply by which a plan is let go.
pub(crate) fn dropped(_plan: Boxed<Plan>, reply: Reply) -> Reply
    ensures { result ≡ reply }
{
    reply
}

/// What an edit is kept as whose change of the text is `splice`.
pub(crate) fn make_ready(
    alloc: Global,
    deed: &Deed,
    splice: &Splice,
    latest: &List<Latest>,
) -> Result<Ready, Memory>
    ensures change { (text : List ℕ) → splice.now ≡ splice_of text deed.now.edit
        → IfOk result (λ ready. ready.change ≡ state.change_of text deed.now) }
    ensures states { IfOk result (λ ready. ready.states
        ≡ state.states_with deed.now.mark latest.now) }
{
    let change = change_of(alloc, deed, splice)?;
    let states = states_with(alloc, latest, &deed.mark)?;
    Ok(Ready { change, states })
}
