//! The first fault of transactions that don't balance.
ghost use Rattle.std.specs.Prelude.{◌≡◌, ◌∷◌, ◌++◌, [], IfOk, OnOk, Some, map};
ghost use Rattle.balancing.specs.Load.{fault_at};
ghost use Rattle.additions.specs.Words as words;

use crate::settling::Judged;
use book::{Boxed, Cause, Fault, Txn};
use hl_base::{List, Memory};
use std::alloc::Global;

/// A fault, and the day of the first group of its transaction.
#[derive(Debug, Drop)]
pub struct First {
    pub day: u32,
    pub fault: Fault,
}

/// What is wrong with a transaction, if anything is.
fn first_at(day: u32, line: u64, cause: Option<Boxed<Cause>>) -> Option<First>
    ensures { result ≡ words.first_at day (fault_at line cause) }
{
    match cause {
        Some(cause) => Some(First {
            day,
            fault: Fault {
                line,
                cause: cause.into_inner(),
            },
        }),
        None => None,
    }
}

/// The one of two on the earlier day, the first of the same day.
fn sooner(a: First, b: First) -> First
    ensures { result ≡ words.sooner a b }
{
    if b.day < a.day { b } else { a }
}

/// The first of two that may be there.
fn or_sooner(a: Option<First>, b: Option<First>) -> Option<First>
    ensures { result ≡ words.or_sooner a b }
{
    match a {
        Some(first) => with_sooner(first, b),
        None => b,
    }
}

/// The first of one that is there and another that may be.
fn with_sooner(a: First, b: Option<First>) -> Option<First>
    ensures { result ≡ words.or_sooner (Some a) b }
{
    match b {
        Some(b) => Some(sooner(a, b)),
        None => Some(a),
    }
}

/// Some transactions with what balancing finds, and the first fault among them, if one has a fault.
#[derive(Debug, Drop)]
pub(crate) struct Parted {
    pub txns: List<Txn>,
    pub first: Option<First>,
}

/// Puts a transaction behind others, and tells the first of their faults and its own.
fn push_judged(
    judged: Judged,
    txns: &mut Vec<Txn>,
    before: Option<First>,
) -> Result<Option<First>, Memory>
    ensures first { IfOk result (λ first. first ≡ words.judged_more before judged) }
    ensures txns { OnOk result (txns.new.items ≡ txns.old.items ++ judged.txn ∷ []) }
{
    let Judged { txn, cause, first } = judged;
    let own = first_at(first, txn.line, cause);
    txns.push(txn)?;
    Ok(or_sooner(before, own))
}

/// Some transactions apart from what is wrong with them, and the first of their faults by the day of the first group.
pub(crate) fn take_apart(alloc: Global, all: Vec<Judged>) -> Result<Parted, Memory>
    ensures txns { IfOk result (λ parted. parted.txns ≡ map (λ j. j.txn) all.items) }
    ensures first { IfOk result (λ parted. parted.first ≡ words.first_judged all.items) }
{
    let mut txns = Vec::with_capacity(alloc, all.len())?;
    let mut first = None;
    for judged in all {
        first = push_judged(judged, &mut txns, first)?;
    }
    Ok(Parted {
        txns: List::from_vec(txns),
        first,
    })
}
