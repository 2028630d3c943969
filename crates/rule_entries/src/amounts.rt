//! What postings of rules say of amounts.
ghost use Rattle.std.specs.Prelude.{◌≡◌, Some, false, IfOk};
ghost use Rattle.entry_balance.specs.Values as values;
ghost use Rattle.rule_entries.specs.Amounts as spec;

use book::{
    Amount, Boxed, Cost, Factor, Posting, RulePosting, copied_amounts, copied_cost, copied_costs,
};
use entry_balance::absolute;
use hl_base::{Memory, Text};
use hl_num::Dec;
use std::alloc::Global;

/// An amount and its cost, where there are any, and whether balancing found the cost.
#[derive(Debug, Drop)]
pub struct Worth {
    pub amount: Option<Amount>,
    pub cost: Option<Boxed<Cost>>,
    pub costed: bool,
}

/// A number so many times, if that is in range.
fn times(by: Dec, number: Dec) -> Option<Dec>
    ensures { result ≡ spec.times by number }
{
    let short = number.trimmed();
    match short.mul(by) {
        Ok(product) => {
            let _places = product.decimals();
            Some(product)
        }
        Err(_) => None,
    }
}

/// An amount with another value.
fn with_value(alloc: Global, amount: &Amount, value: Dec) -> Result<Amount, Memory>
    ensures { IfOk result (λ copy. copy ≡ spec.with_value amount.now value) }
{
    let symbol = Text::copied(alloc, amount.symbol.as_str())?;
    Ok(Amount {
        symbol,
        value,
        shape: amount.shape,
    })
}

/// What stands for a product that is out of range.
fn beyond(alloc: Global, by: Dec, amount: &Amount) -> Result<Worth, Memory>
    ensures { IfOk result (λ worth. worth ≡ spec.beyond by amount.now) }
{
    let units = with_value(alloc, amount, amount.value.trimmed())?;
    let each = with_value(alloc, amount, by)?;
    let cost = Boxed::new(alloc, Cost::Unit(each))?;
    Ok(Worth {
        amount: Some(units),
        cost: Some(cost),
        costed: false,
    })
}

/// An amount that becomes so many times, with a cost.
fn worth_times(
    alloc: Global,
    by: Dec,
    amount: &Amount,
    cost: Option<Boxed<Cost>>,
    costed: bool,
) -> Result<Worth, Memory>
    ensures { IfOk result (λ worth. worth
        ≡ spec.worth_times by amount.now (spec.times by amount.now.value) cost costed) }
{
    match times(by, amount.value) {
        Some(value) => Ok(Worth {
            amount: Some(with_value(alloc, amount, value)?),
            cost,
            costed,
        }),
        None => beyond(alloc, by, amount),
    }
}

/// An amount so many times, whose total cost becomes as many times what it was.
fn worth_with_total(
    alloc: Global,
    by: Dec,
    amount: &Amount,
    total: &Amount,
    costed: bool,
) -> Result<Worth, Memory>
    ensures { IfOk result (λ worth. worth
        ≡ spec.worth_with_total by amount.now total.now
        (spec.times (values.absolute by) total.now.value) costed) }
{
    match times(absolute(by), total.value) {
        Some(value) => {
            let cost = Cost::Total(with_value(alloc, total, value)?);
            let cost = Boxed::new(alloc, cost)?;
            worth_times(alloc, by, amount, Some(cost), costed)
        }
        None => beyond(alloc, absolute(by), total),
    }
}

/// An amount so many times, at its cost.
fn multiplied(
    alloc: Global,
    by: Dec,
    amount: &Amount,
    cost: &Option<Boxed<Cost>>,
    costed: bool,
) -> Result<Worth, Memory>
    ensures { IfOk result (λ worth. worth ≡ spec.multiplied by amount.now cost.now costed) }
{
    match cost {
        None => worth_times(alloc, by, amount, None, costed),
        Some(cost) => multiplied_at(alloc, by, amount, cost.get(), costed),
    }
}

/// An amount so many times, at a cost.
fn multiplied_at(
    alloc: Global,
    by: Dec,
    amount: &Amount,
    cost: &Cost,
    costed: bool,
) -> Result<Worth, Memory>
    ensures { IfOk result (λ worth. worth ≡ spec.multiplied by amount.now (Some cost.now) costed) }
{
    match cost {
        Cost::Unit(_) => {
            let cost = copied_cost(alloc, cost)?;
            worth_times(alloc, by, amount, Some(cost), costed)
        }
        Cost::Total(total) => worth_with_total(alloc, by, amount, total, costed),
    }
}

/// A matched amount so many times: with another symbol at the cost that the rule writes, else at its own.
fn factored(
    alloc: Global,
    factor: &Factor,
    amount: &Amount,
    written: &Option<Boxed<Cost>>,
    matched: &Posting,
) -> Result<Worth, Memory>
    ensures { IfOk result (λ worth. worth
        ≡ spec.factored factor.now.by factor.now.symbol amount.now written.now matched.now) }
{
    match &factor.symbol {
        None => multiplied(alloc, factor.by, amount, &matched.cost, matched.costed),
        Some(symbol) => {
            let symbol = Text::copied(alloc, symbol.as_str())?;
            let renamed = Amount {
                symbol,
                value: amount.value,
                shape: amount.shape,
            };
            let cost = copied_costs(alloc, written)?;
            worth_times(alloc, factor.by, &renamed, cost, false)
        }
    }
}

/// A matched amount so many times, if there is one.
fn factored_if(
    alloc: Global,
    factor: &Factor,
    written: &Option<Boxed<Cost>>,
    matched: &Posting,
) -> Result<Worth, Memory>
    ensures { IfOk result (λ worth. worth
        ≡ spec.factored_if factor.now matched.now.amount written.now matched.now) }
{
    match &matched.amount {
        Some(amount) => factored(alloc, factor, amount, written, matched),
        None => Ok(Worth {
            amount: None,
            cost: None,
            costed: false,
        }),
    }
}

/// What a posting writes.
fn written(alloc: Global, posting: &Posting) -> Result<Worth, Memory>
    ensures { IfOk result (λ worth. worth ≡ spec.worth posting.now.amount posting.now.cost false) }
{
    let amount = copied_amounts(alloc, &posting.amount)?;
    let cost = copied_costs(alloc, &posting.cost)?;
    Ok(Worth {
        amount,
        cost,
        costed: false,
    })
}

/// What a rule's posting comes to beside a matched one: the amount that it writes, or with a factor so many times the
/// matched amount, with another symbol where it names one. The cost of a unit stays, and that of all is multiplied; beside
/// another symbol the rule's own cost stands. A product that is out of range stands as a cost that is.
pub fn worth_of(alloc: Global, rule: &RulePosting, matched: &Posting) -> Result<Worth, Memory>
    ensures { IfOk result (λ worth. worth ≡ spec.worth_of rule.now matched.now) }
{
    match &rule.factor {
        Some(factor) => factored_if(alloc, factor, &rule.posting.cost, matched),
        None => written(alloc, &rule.posting),
    }
}
