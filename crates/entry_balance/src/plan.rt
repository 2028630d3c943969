//! What balancing finds for a transaction, before it is put into its postings.
ghost use Rattle.std.specs.Prelude.{◌≡◌, ◌++◌, [], true, false, map, filter, not, IfOk, IfErr, if◌then◌else◌};
ghost use Rattle.std.specs.List.{list_all};
ghost use Rattle.book.specs.declared.fault.Cause.TheVariants as cause;
ghost use Rattle.book.specs.declared.transaction.Side.TheVariants.{Real, Balanced};
ghost use Rattle.entry_balance.specs.Tally.{named, turnover_fits, IsRange};
ghost use Rattle.entry_balance.specs.Entry.{costs_fit, misses, exchanges, left_over, needed, or_nothing, found_values, recorded_between, recorded_cost, unbalanced_by, unbalanced_sums, side_values, same_side, is_nothing, is_nothing_at, precision_of};

use crate::rules::{Found, Recorded, are_opposite, are_plain, left_over, misses, recorded_between};
use crate::sums::{same_side, side_sums};
use crate::tally::{Sum, TallyFault};
use book::{Boxed, Cause, Posting, Side};
use hl_base::{Memory, Text};
use hl_num::Dec;
use std::alloc::Global;

/// What balancing finds: the missing amounts of both sides, the cost that is recorded, and what is wrong.
#[derive(Debug, Drop)]
pub(crate) struct Plan {
    pub real: Vec<Found>,
    pub balanced: Vec<Found>,
    pub recorded: Option<Recorded>,
    pub cause: Option<Boxed<Cause>>,
}

/// The sums of a side that are left, and its missing amounts.
#[derive(Drop)]
struct SidePlan<'a> {
    left: Vec<Sum<'a>>,
    found: Vec<Found>,
    misses: bool,
}

/// What balancing finds for some postings.
pub(crate) fn make_plan(alloc: Global, postings: &[Posting]) -> Result<Plan, TallyFault>
    requires { costs_fit postings.now ≡ true }
    ensures real { IfOk result (λ plan. misses Real postings.now ≡ true
        → plan.real.items ≡ found_values Real postings.now) }
    ensures balanced { IfOk result (λ plan. misses Balanced postings.now ≡ true
        → plan.balanced.items ≡ found_values Balanced postings.now) }
    ensures recorded { IfOk result (λ plan. plan.recorded ≡ recorded_cost postings.now) }
    ensures cause { IfOk result (λ plan.
        plan.cause ≡ unbalanced_by (unbalanced_sums postings.now)) }
    ensures range_real { IfErr result (λ e. IsRange e
        → turnover_fits (side_values Real postings.now) ≡ true
        → turnover_fits (side_values Balanced postings.now) ≡ false) }
{
    let real = match side_plan(alloc, postings, Side::Real) {
        Ok(real) => real,
        Err(fault) => return Err(fault),
    };
    let balanced = match side_plan(alloc, postings, Side::Balanced) {
        Ok(balanced) => balanced,
        Err(fault) => return Err(fault),
    };
    let exchanges = exchanges(postings, &real.left);
    let recorded = match recorded_if(alloc, exchanges, postings, &real.left) {
        Ok(recorded) => recorded,
        Err(Memory) => return Err(TallyFault::Memory),
    };
    let cause = match cause_of(
        alloc,
        real.misses || exchanges,
        &real.left,
        balanced.misses,
        &balanced.left,
    ) {
        Ok(cause) => cause,
        Err(Memory) => return Err(TallyFault::Memory),
    };
    Ok(Plan {
        real: real.found,
        balanced: balanced.found,
        recorded,
        cause,
    })
}

/// Whether nothing else is written and two symbols stand against each other, by what is left of the real sums where none
/// is missing.
fn exchanges(postings: &[Posting], left: &[Sum]) -> bool
    requires { misses Real postings.now ≡ false → named left.now ≡ left_over Real postings.now }
    ensures { result ≡ exchanges postings.now }
{
    are_plain(postings) && are_opposite(left)
}

/// Whether no posting is of a side.
fn lacks_side(postings: &[Posting], side: Side) -> bool
    ensures { result ≡ list_all (λ p. not (same_side side p.side)) postings.now }
{
    postings
        .iter()
        .all(|posting| !same_side(side, posting.side))
}

/// What is left of the sums of a side where no amount is missing, and what is missing there.
#[tactic(auto, using(crate::proofs::Sides::no_sums, crate::proofs::Sides::none_missing))]
fn side_plan<'a>(
    alloc: Global,
    postings: &'a [Posting],
    side: Side,
) -> Result<SidePlan<'a>, TallyFault>
    requires { costs_fit postings.now ≡ true }
    ensures left { IfOk result (λ plan. misses side postings.now ≡ false
        → named plan.left.items ≡ left_over side postings.now) }
    ensures found { IfOk result (λ plan. misses side postings.now ≡ true
        → plan.found.items ≡ found_values side postings.now) }
    ensures misses { IfOk result (λ plan. plan.misses ≡ misses side postings.now) }
    ensures range { IfErr result (λ e. IsRange e
        → turnover_fits (side_values side postings.now) ≡ false) }
{
    if lacks_side(postings, side) {
        return Ok(SidePlan {
            left: Vec::new(alloc),
            found: Vec::new(alloc),
            misses: false,
        });
    }
    let sums = match side_sums(alloc, postings, side) {
        Ok(sums) => sums,
        Err(fault) => return Err(fault),
    };
    let misses = misses(postings, side);
    let left = match left_unless(alloc, misses, postings, &sums) {
        Ok(left) => left,
        Err(Memory) => return Err(TallyFault::Memory),
    };
    let found = match found_if(alloc, misses, &sums) {
        Ok(found) => found,
        Err(Memory) => return Err(TallyFault::Memory),
    };
    Ok(SidePlan {
        left,
        found,
        misses,
    })
}

/// The sums that don't count as zero, if no amount is missing.
fn left_unless<'a>(
    alloc: Global,
    misses: bool,
    postings: &[Posting],
    sums: &[Sum<'a>],
) -> Result<Vec<Sum<'a>>, Memory>
    ensures { IfOk result (λ left. misses ≡ false → named left.items
        ≡ filter (λ sum.
        not (is_nothing_at (precision_of sum.0 postings.now) sum.1)) (named sums.now)) }
{
    if misses {
        Ok(Vec::new(alloc))
    } else {
        left_over(alloc, postings, sums)
    }
}

/// What is found for a missing amount, if there is one.
fn found_if(alloc: Global, misses: bool, sums: &[Sum]) -> Result<Vec<Found>, Memory>
    ensures { IfOk result (λ found. misses ≡ true
        → found.items ≡ or_nothing (needed (named sums.now))) }
{
    if misses {
        found(alloc, sums)
    } else {
        Ok(Vec::new(alloc))
    }
}

/// What makes up for the sums of a side, or nothing of no symbol.
fn found(alloc: Global, sums: &[Sum]) -> Result<Vec<Found>, Memory>
    ensures { IfOk result (λ found. found.items ≡ or_nothing (needed (named sums.now))) }
{
    let mut found = needed(alloc, sums)?;
    if found.is_empty() {
        found.push((Text::new(alloc), Dec::zero()))?;
    }
    Ok(found)
}

/// The sums of a side that aren't zero, with the other sign.
fn needed(alloc: Global, sums: &[Sum]) -> Result<Vec<Found>, Memory>
    ensures { IfOk result (λ found. found.items ≡ needed (named sums.now)) }
{
    let mut found = Vec::new(alloc);
    for sum in sums {
        if !sum.1.is_zero() {
            let symbol = Text::copied(alloc, sum.0)?;
            found.push((symbol, sum.1.negated()))?;
        }
    }
    Ok(found)
}

/// The cost that is recorded where symbols are exchanged.
fn recorded_if(
    alloc: Global,
    exchanges: bool,
    postings: &[Posting],
    left: &[Sum],
) -> Result<Option<Recorded>, Memory>
    ensures { IfOk result (λ cost.
        cost ≡ (if exchanges then recorded_between (named left.now) postings.now else None)) }
{
    if exchanges {
        recorded_between(alloc, postings, left)
    } else {
        Ok(None)
    }
}

/// What is wrong: the first sum that is left on a side that isn't settled, the real side first.
fn cause_of(
    alloc: Global,
    real_settled: bool,
    real: &[Sum],
    balanced_settled: bool,
    balanced: &[Sum],
) -> Result<Option<Boxed<Cause>>, Memory>
    ensures { IfOk result (λ told.
        told ≡ unbalanced_by ((if real_settled then [] else named real.now)
        ++ (if balanced_settled then [] else named balanced.now))) }
{
    if !real_settled && !real.is_empty() {
        return unbalanced(alloc, real[0].0, real[0].1);
    }
    if !balanced_settled && !balanced.is_empty() {
        return unbalanced(alloc, balanced[0].0, balanced[0].1);
    }
    Ok(None)
}

/// The cause that a sum isn't zero.
fn unbalanced(alloc: Global, symbol: &str, sum: Dec) -> Result<Option<Boxed<Cause>>, Memory>
    ensures { IfOk result (λ told. told ≡ Some (cause.Unbalanced symbol.now sum)) }
{
    let symbol = Text::copied(alloc, symbol)?;
    let sum = Boxed::new(alloc, sum)?;
    Ok(Some(Boxed::new(alloc, Cause::Unbalanced { symbol, sum })?))
}
