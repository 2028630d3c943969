//! Threads that add to one total. Their entries stand in one history, as those of one thread would.
ghost use Rattle.std.specs.Prelude.{◌≡◌, ◌≢◌, ◌++◌, [], ℕ, map, IfOk, IsTrue, ◌<◌};
ghost use Rattle.turn_lock.specs.Passes.{IsFree};
ghost use Rattle.turn_lock.specs.History.{made_by};
ghost use Rattle.turn_client.specs.Entries.{KeepsRest};
ghost use Rattle.turn_client.specs.Sums.{IsOneThread, amount_of, by};

use crate::count::Count;
use crate::work::under;
use std::alloc::Global;
use std::sync::Wait;
use std::thread::{Threads, join};
use turn_lock::{Pass, Turn};

/// The total at the end, and the pass that has seen the whole history.
#[derive(Drop)]
pub struct Sum {
    pub total: u64,
    pub pass: Pass<Count>,
}

/// Why there is no sum.
#[derive(Clone, Copy, Debug, PartialEq, Eq)]
pub enum Trouble {
    /// There was no memory for the lock.
    Memory,
    /// The history had no room for all that was to be added.
    Spent,
}

// A thread's pass, and whether all its amounts were added.
type Part = (Pass<Count>, bool);

// Adds the amounts, one after another.
fn add_all<R: Wait>(rt: &R, turn: &Turn<Count>, mut pass: Pass<Count>, amounts: &[u64]) -> Part
    requires { IsFree turn.now pass }
    ensures pass { KeepsRest pass result.0 }
    ensures whole { IsTrue result.1
        → map amount_of result.0.mine ≡ map amount_of pass.mine ++ amounts.now }
{
    for amount in amounts {
        if under(rt, turn, &mut pass, amount).is_err() {
            return (pass, false);
        }
    }
    (pass, true)
}

// Two threads add.
fn add_pair<R: Threads + Wait + Sync>(
    rt: &R,
    turn: &Turn<Count>,
    one: Pass<Count>,
    two: Pass<Count>,
    first: &[u64],
    second: &[u64],
) -> (Part, Part)
    requires one { IsFree turn.now one }
    requires two { IsFree turn.now two }
    ensures one { KeepsRest one result.0.0
        × (IsTrue result.0.1
        → map amount_of result.0.0.mine ≡ map amount_of one.mine ++ first.now) }
    ensures two { KeepsRest two result.1.0
        × (IsTrue result.1.1
        → map amount_of result.1.0.mine ≡ map amount_of two.mine ++ second.now) }
{
    join(
        rt,
        || -> Part
            requires { IsFree turn.now one }
            ensures { KeepsRest one result.0
                × (IsTrue result.1
                → map amount_of result.0.mine ≡ map amount_of one.mine ++ first.entry.now) }
        { add_all(rt, turn, one, first) },
        || -> Part
            requires { IsFree turn.now two }
            ensures { KeepsRest two result.0
                × (IsTrue result.1
                → map amount_of result.0.mine ≡ map amount_of two.mine ++ second.entry.now) }
        { add_all(rt, turn, two, second) },
    )
}

// Four threads add.
fn add_pairs<R: Threads + Wait + Sync>(
    rt: &R,
    turn: &Turn<Count>,
    one: (Pass<Count>, Pass<Count>),
    two: (Pass<Count>, Pass<Count>),
    left: (&[u64], &[u64]),
    right: (&[u64], &[u64]),
) -> ((Part, Part), (Part, Part))
    requires one { IsFree turn.now one.0 × IsFree turn.now one.1 }
    requires two { IsFree turn.now two.0 × IsFree turn.now two.1 }
    ensures first { KeepsRest one.0 result.0.0.0
        × (IsTrue result.0.0.1
        → map amount_of result.0.0.0.mine ≡ map amount_of one.0.mine ++ left.entry.0.now) }
    ensures second { KeepsRest one.1 result.0.1.0
        × (IsTrue result.0.1.1
        → map amount_of result.0.1.0.mine ≡ map amount_of one.1.mine ++ left.entry.1.now) }
    ensures third { KeepsRest two.0 result.1.0.0
        × (IsTrue result.1.0.1
        → map amount_of result.1.0.0.mine ≡ map amount_of two.0.mine ++ right.entry.0.now) }
    ensures fourth { KeepsRest two.1 result.1.1.0
        × (IsTrue result.1.1.1
        → map amount_of result.1.1.0.mine ≡ map amount_of two.1.mine ++ right.entry.1.now) }
{
    let (a, b) = one;
    let (c, d) = two;
    let (first, second) = left;
    let (third, fourth) = right;
    join(
        rt,
        || -> (Part, Part)
            requires { IsFree turn.now a × IsFree turn.now b }
            ensures first { KeepsRest a result.0.0
                × (IsTrue result.0.1
                → map amount_of result.0.0.mine ≡ map amount_of a.mine ++ first.entry.now) }
            ensures second { KeepsRest b result.1.0
                × (IsTrue result.1.1
                → map amount_of result.1.0.mine ≡ map amount_of b.mine ++ second.entry.now) }
        { add_pair(rt, turn, a, b, first, second) },
        || -> (Part, Part)
            requires { IsFree turn.now c × IsFree turn.now d }
            ensures third { KeepsRest c result.0.0
                × (IsTrue result.0.1
                → map amount_of result.0.0.mine ≡ map amount_of c.mine ++ third.entry.now) }
            ensures fourth { KeepsRest d result.1.0
                × (IsTrue result.1.1
                → map amount_of result.1.0.mine ≡ map amount_of d.mine ++ fourth.entry.now) }
        { add_pair(rt, turn, c, d, third, fourth) },
    )
}

/// Two threads add to a total. The totals in their history are those of one thread that adds the history's amounts
/// in its order, and the amounts of each thread stand in it once and in their order.
pub fn add_by_two<R: Threads + Wait + Sync>(
    rt: &R,
    alloc: Global,
    total: u64,
    first: &[u64],
    second: &[u64],
) -> Result<Sum, Trouble>
    ensures one { IfOk result (λ s. IsOneThread total s.pass.seen s.total) }
    ensures first { IfOk result (λ s. by 1 s.pass.seen ≡ first.now) }
    ensures second { IfOk result (λ s. by 2 s.pass.seen ≡ second.now) }
    ensures others { IfOk result (λ s. (n : ℕ) → n ≢ 1 → n ≢ 2 → made_by n s.pass.seen ≡ []) }
{
    let Ok((turn, mut pass)) = Turn::new(alloc, Count { total }, 0) else {
        return Err(Trouble::Memory);
    };
    let Ok(one) = turn.split(&mut pass) else {
        unreachable!()
    };
    let Ok(two) = turn.split(&mut pass) else {
        unreachable!()
    };
    let (a, b) = add_pair(rt, &turn, one, two, first, second);
    turn.join(&mut pass, a.0);
    turn.join(&mut pass, b.0);
    let (count, pass) = turn.close(pass);
    if a.1 && b.1 {
        Ok(Sum {
            total: count.total,
            pass,
        })
    } else {
        Err(Trouble::Spent)
    }
}

/// Four threads add to a total, as two do in `add_by_two`.
pub fn add_by_four<R: Threads + Wait + Sync>(
    rt: &R,
    alloc: Global,
    total: u64,
    left: (&[u64], &[u64]),
    right: (&[u64], &[u64]),
) -> Result<Sum, Trouble>
    ensures one { IfOk result (λ s. IsOneThread total s.pass.seen s.total) }
    ensures first { IfOk result (λ s. by 1 s.pass.seen ≡ left.entry.0.now) }
    ensures second { IfOk result (λ s. by 2 s.pass.seen ≡ left.entry.1.now) }
    ensures third { IfOk result (λ s. by 3 s.pass.seen ≡ right.entry.0.now) }
    ensures fourth { IfOk result (λ s. by 4 s.pass.seen ≡ right.entry.1.now) }
{
    let Ok((turn, mut pass)) = Turn::new(alloc, Count { total }, 0) else {
        return Err(Trouble::Memory);
    };
    let Ok(one) = turn.split(&mut pass) else {
        unreachable!()
    };
    let Ok(two) = turn.split(&mut pass) else {
        unreachable!()
    };
    let Ok(three) = turn.split(&mut pass) else {
        unreachable!()
    };
    let Ok(four) = turn.split(&mut pass) else {
        unreachable!()
    };
    let ((a, b), (c, d)) = add_pairs(rt, &turn, (one, two), (three, four), left, right);
    turn.join(&mut pass, a.0);
    turn.join(&mut pass, b.0);
    turn.join(&mut pass, c.0);
    turn.join(&mut pass, d.0);
    let (count, pass) = turn.close(pass);
    if a.1 && b.1 && c.1 && d.1 {
        Ok(Sum {
            total: count.total,
            pass,
        })
    } else {
        Err(Trouble::Spent)
    }
}
