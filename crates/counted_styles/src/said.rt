//! What items say of the styles of symbols.
ghost use Rattle.std.specs.Prelude.{◌≡◌, ◌++◌, ◌∷◌, [], IfOk, OnOk, map};
ghost use Rattle.std.specs.List.{flat_map};
ghost use Rattle.std.specs.Option.{option_to_list};
ghost use Rattle.book.specs.Style.{amount_style, commodity_said, commodity_styles, cost_styles, default_said, default_styles, first_class, further_styles, rule_styles, second_class, wanted_styles, written_as};

use book::{Amount, Assertion, Boxed, Cost, Directive, Item, Posting, RulePosting, Style};
use hl_base::{Memory, Text};
use std::alloc::Global;

/// Styles of symbols.
type Said = Vec<(Text, Style)>;

/// Says how an amount is written, as the style of a symbol.
fn say(alloc: Global, said: &mut Said, symbol: &Text, amount: &Amount) -> Result<(), Memory>
    ensures { OnOk result
        (said.new.items ≡ said.old.items ++ (symbol.now, (written_as amount.now).1) ∷ []) }
{
    let style = Style {
        shape: amount.shape,
        places: amount.value.decimals(),
    };
    let symbol = Text::copied(alloc, symbol.as_str())?;
    said.push((symbol, style))?;
    Ok(())
}

/// Says a posting's amount, where it is there.
fn say_present(alloc: Global, said: &mut Said, amount: &Option<Amount>) -> Result<(), Memory>
    ensures { OnOk result
        (said.new.items ≡ said.old.items ++ map written_as (option_to_list amount.now)) }
{
    match amount {
        Some(amount) => say(alloc, said, &amount.symbol, amount),
        None => Ok(()),
    }
}

/// Says a cost's amount, where it is there.
fn say_cost(alloc: Global, said: &mut Said, cost: &Option<Boxed<Cost>>) -> Result<(), Memory>
    ensures { OnOk result (said.new.items ≡ said.old.items ++ cost_styles cost.now) }
{
    match cost {
        Some(cost) => {
            let amount = cost.get().amount();
            say(alloc, said, &amount.symbol, amount)
        }
        None => Ok(()),
    }
}

/// Says an assertion's amount, where it is there.
fn say_wanted(
    alloc: Global,
    said: &mut Said,
    wanted: &Option<Boxed<Assertion>>,
) -> Result<(), Memory>
    ensures { OnOk result (said.new.items ≡ said.old.items ++ wanted_styles wanted.now) }
{
    match wanted {
        Some(wanted) => {
            let amount = &wanted.get().amount;
            say(alloc, said, &amount.symbol, amount)
        }
        None => Ok(()),
    }
}

/// Says the amounts of a posting's cost and assertion.
fn say_further(alloc: Global, said: &mut Said, posting: &Posting) -> Result<(), Memory>
    ensures { OnOk result (said.new.items ≡ said.old.items ++ further_styles posting.now) }
{
    say_cost(alloc, said, &posting.cost)?;
    say_wanted(alloc, said, &posting.wanted)
}

/// Says all amounts of a rule's posting.
fn say_rule(alloc: Global, said: &mut Said, posting: &Posting) -> Result<(), Memory>
    ensures { OnOk result (said.new.items ≡ said.old.items ++ rule_styles posting.now) }
{
    say_present(alloc, said, &posting.amount)?;
    say_further(alloc, said, posting)
}

/// The amounts of a transaction's postings.
fn of_amounts(alloc: Global, postings: &[Posting]) -> Result<Said, Memory>
    ensures { IfOk result (λ said. said.items ≡ flat_map amount_style postings.now) }
{
    let mut said = Vec::new(alloc);
    for posting in postings {
        say_present(alloc, &mut said, &posting.amount)?;
    }
    Ok(said)
}

/// The amounts of their costs and assertions.
fn of_further(alloc: Global, postings: &[Posting]) -> Result<Said, Memory>
    ensures { IfOk result (λ said. said.items ≡ flat_map further_styles postings.now) }
{
    let mut said = Vec::new(alloc);
    for posting in postings {
        say_further(alloc, &mut said, posting)?;
    }
    Ok(said)
}

/// All amounts of an automated rule's postings.
fn of_auto(alloc: Global, postings: &[RulePosting]) -> Result<Said, Memory>
    ensures { IfOk result
        (λ said. said.items ≡ flat_map (λ p. rule_styles p.posting) postings.now) }
{
    let mut said = Vec::new(alloc);
    for posting in postings {
        say_rule(alloc, &mut said, &posting.posting)?;
    }
    Ok(said)
}

/// All amounts of a periodic rule's postings.
fn of_periodic(alloc: Global, postings: &[Posting]) -> Result<Said, Memory>
    ensures { IfOk result (λ said. said.items ≡ flat_map rule_styles postings.now) }
{
    let mut said = Vec::new(alloc);
    for posting in postings {
        say_rule(alloc, &mut said, posting)?;
    }
    Ok(said)
}

/// One amount, as the style of a symbol.
fn of_one(alloc: Global, symbol: &Text, amount: &Amount) -> Result<Said, Memory>
    ensures { IfOk result (λ said. said.items ≡ (symbol.now, (written_as amount.now).1) ∷ []) }
{
    let mut said = Vec::new(alloc);
    say(alloc, &mut said, symbol, amount)?;
    Ok(said)
}

/// What a `commodity` directive says.
fn of_commodity(alloc: Global, directive: &Directive) -> Result<Said, Memory>
    ensures { IfOk result (λ said. said.items ≡ commodity_said directive.now) }
{
    match directive {
        Directive::Commodity(symbol, Some(amount)) => of_one(alloc, symbol, amount),
        _ => Ok(Vec::new(alloc)),
    }
}

/// What a `D` directive says.
fn of_default(alloc: Global, directive: &Directive) -> Result<Said, Memory>
    ensures { IfOk result (λ said. said.items ≡ default_said directive.now) }
{
    match directive {
        Directive::Default(amount) => of_one(alloc, &amount.symbol, amount),
        _ => Ok(Vec::new(alloc)),
    }
}

/// What an item says by a `commodity` directive.
pub(crate) fn commodities(alloc: Global, item: &Item) -> Result<Said, Memory>
    ensures { IfOk result (λ said. said.items ≡ commodity_styles item.now) }
{
    match item {
        Item::Directive(directive) => of_commodity(alloc, directive),
        _ => Ok(Vec::new(alloc)),
    }
}

/// What an item says by a `D` directive.
pub(crate) fn defaults(alloc: Global, item: &Item) -> Result<Said, Memory>
    ensures { IfOk result (λ said. said.items ≡ default_styles item.now) }
{
    match item {
        Item::Directive(directive) => of_default(alloc, directive),
        _ => Ok(Vec::new(alloc)),
    }
}

/// What an item says by the amounts of a transaction's postings.
pub(crate) fn first(alloc: Global, item: &Item) -> Result<Said, Memory>
    ensures { IfOk result (λ said. said.items ≡ first_class item.now) }
{
    match item {
        Item::Txn(txn) => of_amounts(alloc, txn.postings.as_slice()),
        _ => Ok(Vec::new(alloc)),
    }
}

/// What an item says by the amounts of costs, assertions, prices and rules.
pub(crate) fn second(alloc: Global, item: &Item) -> Result<Said, Memory>
    ensures { IfOk result (λ said. said.items ≡ second_class item.now) }
{
    match item {
        Item::Txn(txn) => of_further(alloc, txn.postings.as_slice()),
        Item::Auto(rule) => of_auto(alloc, rule.postings.as_slice()),
        Item::Periodic(rule) => of_periodic(alloc, rule.postings.as_slice()),
        Item::Price(price) => of_one(alloc, &price.amount.symbol, &price.amount),
        _ => Ok(Vec::new(alloc)),
    }
}
