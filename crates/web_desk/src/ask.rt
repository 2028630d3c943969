//! Who answers the requests of a connection.
ghost use Rattle.std.specs.Prelude.{◌≡◌, ◌∷◌, ◌++◌, ℕ, List, [], IfOk, OnErr};
ghost use Rattle.desk.specs.Entries.{Entry};
ghost use Rattle.hl_time.specs.Calendar.{IsDay};
ghost use Rattle.web_desk.specs.Makers.{TellsAnswer};

use desk::{Reply, Request};
use hl_base::Steps;
use hl_time::Day;
use query::Maker;
use std::alloc::Global;
use std::sync::ledger::Ledger;

/// The one who is asked can answer no more.
#[derive(Clone, Copy, Debug, PartialEq, Eq)]
pub struct Spent;

/// Answers requests one after another: a machine, or a turn at one that is shared.
pub trait Ask {
    /// The calls between two values made these entries, in order.
    ghost leads: { Self → List Entry → Self → Type 0 };

    /// What a value shows that answered that it is spent.
    ghost IsSpent: { Self → Type 0 };

    /// Answers a request of a day, whose patterns the maker builds, with a reply and the revision after it.
    fn ask<M: Maker, L: Ledger>(
        &mut self,
        alloc: Global,
        request: &Request,
        day: Day,
        maker: &mut M,
        steps: &mut Steps<L>,
    ) -> Result<(Reply, u64), Spent>
        requires { IsDay day.0 }
        ensures answered { IfOk result (λ answer. leads self.old
            (record { request = request.now; day = day; reply = answer.0; revision = answer.1 }
            ∷ []) self.new) }
        ensures maker { TellsAnswer request.now day.0 (M.refusals maker.old) (M.refusals maker.new)
            (M.last_refused maker.old) (M.last_refused maker.new) result }
        ensures spent { OnErr result (leads self.old [] self.new) }
        ensures shown { OnErr result (IsSpent self.new) };

    /// No call makes no entry.
    ghost none: { (a : Self) → leads a [] a };

    /// Two runs of calls in a row make the entries of both.
    ghost joined: { (a b c : Self) (xs ys : List Entry) → leads a xs b → leads b ys c
        → leads a (xs ++ ys) c };
}
