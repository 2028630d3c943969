//! A machine that one connection has for itself.
ghost use Rattle.std.specs.Prelude.{◌≡◌};

use crate::ask::{Ask, Spent};
use desk::{Desk, Reply, Request};
use hl_base::{Disk, Steps};
use hl_time::Day;
use query::Maker;
use std::alloc::Global;
use std::sync::ledger::Ledger;

/// A machine that one connection has for itself. The entries of its calls are a run of the machine, and it is never
/// spent.
#[derive(Drop)]
pub struct Alone<'a, D: Disk> {
    pub desk: &'a mut Desk<D>,
}

impl<'a, D: Disk> Ask for Alone<'a, D> {
    ghost use Rattle.std.specs.Prelude.{refl};
    ghost use Rattle.desk.specs.Desks.{Leads};
    ghost use Rattle.desk.proofs.Runs.{joined as leads_on};

    ghost leads = { λ a entries b. Leads a.desk.now entries b.desk.now };

    ghost IsSpent = { λ a. ⊥ };

    ghost none = { λ a. refl };

    ghost joined = { λ a b c xs ys p q. leads_on a.desk.now b.desk.now c.desk.now xs ys p q };

    fn ask<M: Maker, L: Ledger>(
        &mut self,
        alloc: Global,
        request: &Request,
        day: Day,
        maker: &mut M,
        steps: &mut Steps<L>,
    ) -> Result<(Reply, u64), Spent> {
        let reply = self.desk.request(alloc, request, day, maker, steps);
        let (revision, _, _) = self.desk.counts();
        Ok((reply, revision))
    }
}
