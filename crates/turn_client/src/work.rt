//! Any work on any value under a lock.
ghost use Rattle.std.specs.Prelude.{◌≡◌, ◌+◌, ◌∷◌, [], ◌++◌, ◌^◌, length, IfOk, IfErr};
ghost use mathlib.Core.List.{IsPrefix};
ghost use Rattle.turn_lock.specs.Passes.{IsFree};
ghost use Rattle.turn_client.specs.Entries.{Enters, KeepsRest};

use std::sync::Wait;
use turn_lock::{Kept, Pass, Spent, Turn};

/// A value that does what it is asked.
pub trait Work: Kept {
    /// What it is asked.
    type Ask;

    /// What it answers.
    type Answer: Drop;

    /// An entry says that this was asked and answered.
    ghost says: { Self.Entry → Self.Ask → Self.Answer → Type 0 };

    /// Does what it is asked, and says so.
    fn work(&mut self, ask: &Self::Ask) -> (Self::Answer, Self::Entry)
        ensures leads { Self.leads (Self.state self.old) result.1 (Self.state self.new) }
        ensures says { says result.1 ask.now result.0 };
}

/// Takes the value, does the work, and gives the value back.
pub fn under<T: Work, R: Wait>(
    rt: &R,
    turn: &Turn<T>,
    pass: &mut Pass<T>,
    ask: &T::Ask,
) -> Result<T::Answer, Spent>
    requires { IsFree turn.now pass.old }
    ensures pass { KeepsRest pass.old pass.new }
    ensures entered { IfOk result (λ answer.
        Enters T.leads (T.state turn.now.opening) pass.old pass.new (λ e.
        T.says e ask.now answer)) }
    ensures spent { IfErr result (λ _. IsPrefix pass.old.seen pass.new.seen
        × (pass.new.mine ≡ pass.old.mine) × (turn.now.done + length pass.new.seen + 1 ≡ 2 ^ 63)) }
{
    let mut held = turn.take(rt, pass)?;
    let (answer, entry) = held.value().work(ask);
    turn.give(pass, held, entry);
    Ok(answer)
}
