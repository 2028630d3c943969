//! A machine that several connections share under a lock, each asking it when its turn comes.
ghost use Rattle.std.specs.Prelude.{◌≡◌, ◌∷◌, [], IfOk, OnErr};
ghost use Rattle.hl_time.specs.Calendar.{IsDay};
ghost use Rattle.shared_desk.specs.Full.{IsFull};
ghost use Rattle.turn_lock.specs.Growth.{Grown};
ghost use Rattle.turn_lock.specs.Passes.{IsFree};
ghost use Rattle.web_desk.specs.Makers.{TellsAnswer};

use crate::shared::{Answered, Shared};
use desk::{Reply, Request};
use hl_base::{Disk, Steps};
use hl_time::Day;
use query::Maker;
use std::alloc::Global;
use std::sync::Wait;
use std::sync::ledger::Ledger;
use turn_lock::{Pass, Turn};
use web_desk::{Ask, Spent};

/// A machine under a lock, asked with one pass. An entry of each request is added to the one history and to what was
/// made with the pass. It is spent where the history has no room for another entry.
#[derive(Drop)]
pub struct Locked<'a, D: Disk, W: Wait> {
    rt: &'a W,
    turn: &'a Turn<Shared<D>>,
    pass: &'a mut Pass<Shared<D>>,
    ghost free: { IsFree turn.now pass.now },
}

impl<'a, D: Disk, W: Wait> Locked<'a, D, W> {
    /// A machine under a lock, asked with a pass that holds no value.
    pub fn new(
        rt: &'a W,
        turn: &'a Turn<Shared<D>>,
        pass: &'a mut Pass<Shared<D>>,
    ) -> Locked<'a, D, W>
        requires { IsFree turn.now pass.old }
        ensures same { result.pass.ghost_name ≡ pass.entry.ghost_name }
        ensures pass { result.pass.now ≡ pass.old }
    {
        Locked { rt, turn, pass }
    }
}

/// Waits for the turn, asks the machine, and gives the turn back with the entry.
fn ask_in_turn<D: Disk, W: Wait, M: Maker, L: Ledger>(
    rt: &W,
    turn: &Turn<Shared<D>>,
    pass: &mut Pass<Shared<D>>,
    alloc: Global,
    request: &Request,
    day: Day,
    maker: &mut M,
    steps: &mut Steps<L>,
) -> Result<(Reply, u64), Spent>
    requires free { IsFree turn.now pass.old }
    requires day { IsDay day.0 }
    ensures answered { IfOk result (λ answer. Grown pass.old pass.new
        (record { request = request.now; day = day; reply = answer.0; revision = answer.1 } ∷ [])) }
    ensures maker { TellsAnswer request.now day.0 (M.refusals maker.old) (M.refusals maker.new)
        (M.last_refused maker.old) (M.last_refused maker.new) result }
    ensures spent { OnErr result (Grown pass.old pass.new [] × IsFull pass.new) }
    ensures free { IsFree turn.now pass.new }
{
    match turn.take(rt, pass) {
        Ok(mut held) => {
            let Answered {
                reply,
                revision,
                note,
            } = held.value().answer(alloc, request, day, maker, steps);
            turn.give(pass, held, note);
            Ok((reply, revision))
        }
        Err(_) => Err(Spent),
    }
}

impl<'a, D: Disk, W: Wait> Ask for Locked<'a, D, W> {
    ghost use Rattle.std.proofs.Common.{refl, ◌∙◌};
    ghost use Rattle.shared_desk.specs.Full.{IsFull};
    ghost use Rattle.turn_lock.specs.Growth.{Grown};
    ghost use Rattle.turn_lock.proofs.Growth.{calls_in_a_row, no_calls};

    /// The same pass grew by these entries.
    ghost leads = { λ a entries b. (b.pass.ghost_name ≡ a.pass.ghost_name)
        × Grown a.pass.now b.pass.now entries };

    ghost IsSpent = { λ a. IsFull a.pass.now };

    ghost none = { λ a. (refl, no_calls a.pass.now) };

    ghost joined = { λ a b c xs ys p q. (q.0 ∙ p.0, calls_in_a_row a.pass.now b.pass.now c.pass.now xs ys p.1 q.1) };

    fn ask<M: Maker, L: Ledger>(
        &mut self,
        alloc: Global,
        request: &Request,
        day: Day,
        maker: &mut M,
        steps: &mut Steps<L>,
    ) -> Result<(Reply, u64), Spent> {
        ask_in_turn(
            self.rt, self.turn, self.pass, alloc, request, day, maker, steps,
        )
    }
}
