//! How the amounts of items go into the tables of styles. After an error some of them may have gone there, all under
//! the number of the item.
ghost use Rattle.std.specs.Prelude.{◌≡◌, OnOk, map};
ghost use Rattle.std.specs.List.{flat_map};
ghost use Rattle.std.specs.Option.{option_to_list};
ghost use Rattle.book.specs.Standing.{noted, noted_all, IsSameBut};
ghost use Rattle.book.specs.Style.{written_as, cost_styles, wanted_styles, amount_style, further_styles, rule_styles};

use crate::amount::{Amount, Assertion, Cost};
use crate::boxed::Boxed;
use crate::rules::RulePosting;
use crate::style::Style;
use crate::table::Table;
use crate::transaction::Posting;
use hl_base::{Memory, Text};
use std::alloc::Global;

/// Notes how an amount is written, as the style of a symbol.
pub(crate) fn note_amount(
    table: &mut Table,
    alloc: Global,
    number: u64,
    symbol: &Text,
    amount: &Amount,
) -> Result<(), Memory>
    ensures ok { OnOk result (table.new
        ≡ noted number table.old (symbol.now, (written_as amount.now).1)) }
    ensures others { IsSameBut number table.old table.new }
{
    let style = Style {
        shape: amount.shape,
        places: amount.value.decimals(),
    };
    table.note(alloc, number, symbol, style)
}

/// Notes a posting's amount, where it is there.
fn note_present(
    table: &mut Table,
    alloc: Global,
    number: u64,
    amount: &Option<Amount>,
) -> Result<(), Memory>
    ensures ok { OnOk result (table.new
        ≡ noted_all number table.old (map written_as (option_to_list amount.now))) }
    ensures others { IsSameBut number table.old table.new }
{
    match amount {
        Some(amount) => note_amount(table, alloc, number, &amount.symbol, amount),
        None => Ok(()),
    }
}

/// Notes a cost's amount, where it is there.
fn note_cost(
    table: &mut Table,
    alloc: Global,
    number: u64,
    cost: &Option<Boxed<Cost>>,
) -> Result<(), Memory>
    ensures ok { OnOk result (table.new ≡ noted_all number table.old (cost_styles cost.now)) }
    ensures others { IsSameBut number table.old table.new }
{
    match cost {
        Some(cost) => {
            let amount = cost.get().amount();
            note_amount(table, alloc, number, &amount.symbol, amount)
        }
        None => Ok(()),
    }
}

/// Notes an assertion's amount, where it is there.
fn note_wanted(
    table: &mut Table,
    alloc: Global,
    number: u64,
    wanted: &Option<Boxed<Assertion>>,
) -> Result<(), Memory>
    ensures ok { OnOk result (table.new ≡ noted_all number table.old (wanted_styles wanted.now)) }
    ensures others { IsSameBut number table.old table.new }
{
    match wanted {
        Some(wanted) => {
            let amount = &wanted.get().amount;
            note_amount(table, alloc, number, &amount.symbol, amount)
        }
        None => Ok(()),
    }
}

/// Notes the amounts of a posting's cost and assertion.
fn note_further(
    table: &mut Table,
    alloc: Global,
    number: u64,
    posting: &Posting,
) -> Result<(), Memory>
    ensures ok { OnOk result (table.new ≡ noted_all number table.old (further_styles posting.now)) }
    ensures others { IsSameBut number table.old table.new }
{
    note_cost(table, alloc, number, &posting.cost)?;
    note_wanted(table, alloc, number, &posting.wanted)
}

/// Notes all amounts of a rule's posting.
fn note_rule(table: &mut Table, alloc: Global, number: u64, posting: &Posting) -> Result<(), Memory>
    ensures ok { OnOk result (table.new ≡ noted_all number table.old (rule_styles posting.now)) }
    ensures others { IsSameBut number table.old table.new }
{
    note_present(table, alloc, number, &posting.amount)?;
    note_further(table, alloc, number, posting)
}

/// Notes the amounts of a transaction's postings.
pub(crate) fn note_amounts(
    table: &mut Table,
    alloc: Global,
    number: u64,
    postings: &[Posting],
) -> Result<(), Memory>
    ensures ok { OnOk result (table.new
        ≡ noted_all number table.old (flat_map amount_style postings.now)) }
    ensures others { IsSameBut number table.old table.new }
{
    for posting in postings {
        note_present(table, alloc, number, &posting.amount)?;
    }
    Ok(())
}

/// Notes the amounts of their costs and assertions.
pub(crate) fn note_all_further(
    table: &mut Table,
    alloc: Global,
    number: u64,
    postings: &[Posting],
) -> Result<(), Memory>
    ensures ok { OnOk result (table.new
        ≡ noted_all number table.old (flat_map further_styles postings.now)) }
    ensures others { IsSameBut number table.old table.new }
{
    for posting in postings {
        note_further(table, alloc, number, posting)?;
    }
    Ok(())
}

/// Notes all amounts of an automated rule's postings.
pub(crate) fn note_auto(
    table: &mut Table,
    alloc: Global,
    number: u64,
    postings: &[RulePosting],
) -> Result<(), Memory>
    ensures ok { OnOk result (table.new ≡ noted_all number table.old (flat_map (λ p.
        rule_styles p.posting) postings.now)) }
    ensures others { IsSameBut number table.old table.new }
{
    for posting in postings {
        note_rule(table, alloc, number, &posting.posting)?;
    }
    Ok(())
}

/// Notes all amounts of a periodic rule's postings.
pub(crate) fn note_periodic(
    table: &mut Table,
    alloc: Global,
    number: u64,
    postings: &[Posting],
) -> Result<(), Memory>
    ensures ok { OnOk result (table.new
        ≡ noted_all number table.old (flat_map rule_styles postings.now)) }
    ensures others { IsSameBut number table.old table.new }
{
    for posting in postings {
        note_rule(table, alloc, number, posting)?;
    }
    Ok(())
}
