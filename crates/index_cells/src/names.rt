//! The accounts and the symbols of takings, each once and in order, and what they add to others.
ghost use Rattle.std.specs.Prelude.{◌≡◌, ◌++◌, None, map, unwrap_or, OnOk, IfOk};
ghost use Rattle.std.specs.List.{AllByRecursion, list_all};
ghost use Rattle.report_cells.specs.Follows.{Follow};
ghost use Rattle.report_cells.specs.Report.{accounts_in};
ghost use Rattle.report_cells.specs.declared.fault.ReportFault.TheVariants as report_fault;
ghost use Rattle.index_cells.specs.Keys.{AreInOrder, AreOfBoth, is_in};
ghost use Rattle.index_cells.specs.Named.{by_symbol, by_symbols, named, only};

use book::compare_accounts;
use hl_base::{List, Memory, Text};
use hl_time::{DAY_END, Day, Span};
use report_cells::{CellRow, Reach, ReportFault, Taking, make_cells};
use std::alloc::Global;
use std::cmp::Ordering;

/// The accounts of takings, in the order of accounts.
pub(crate) fn accounts_of(alloc: Global, takings: &[Taking]) -> Result<List<Text>, Memory>
    ensures { IfOk result (λ names. names ≡ accounts_in (map named takings.now)) }
{
    let mut others = Vec::new(alloc);
    for taking in takings {
        others.push(Taking {
            account: taking.account,
            day: taking.day,
            amount: None,
        })?;
    }
    names_of(alloc, &others)
}

/// The symbols of takings, in the order of accounts.
pub(crate) fn symbols_of(alloc: Global, takings: &[Taking]) -> Result<List<Text>, Memory>
    ensures { IfOk result (λ names. names ≡ accounts_in (by_symbols takings.now)) }
{
    let mut others = Vec::new(alloc);
    for taking in takings {
        push_symbol(&mut others, taking)?;
    }
    names_of(alloc, &others)
}

/// Adds a taking that is named by the symbol of another, if that has an amount.
fn push_symbol<'a>(others: &mut Vec<Taking<'a>>, taking: &Taking<'a>) -> Result<(), Memory>
    ensures { OnOk result (others.new.items
        ≡ others.old.items ++ by_symbol taking.now.day taking.now.amount) }
{
    match &taking.amount {
        Some(share) => {
            others.push(Taking {
                account: share.symbol.as_str(),
                day: taking.day,
                amount: None,
            })?;
            Ok(())
        }
        None => Ok(()),
    }
}

/// The accounts of takings without amounts.
fn names_of(alloc: Global, takings: &[Taking]) -> Result<List<Text>, Memory>
    requires { AllByRecursion (λ t. t.amount ≡ None) takings.now }
    ensures { IfOk result (λ names. names ≡ accounts_in takings.now) }
{
    let columns = all_days(alloc)?;
    match make_cells(alloc, takings, columns, Reach::Within) {
        Ok(cells) => copied(alloc, cells.rows.as_slice()),
        Err(fault) => Err(want_of(fault)),
    }
}

/// The want of memory.
fn want_of(fault: ReportFault) -> Memory
    requires { fault ≡ report_fault.Memory }
{
    match fault {
        ReportFault::Memory => Memory,
        _ => unreachable!(),
    }
}

/// One column, of all days.
fn all_days(alloc: Global) -> Result<List<Span>, Memory>
    ensures { IfOk result Follow }
{
    let mut columns = Vec::new(alloc);
    columns.push(Span {
        from: 0,
        end: DAY_END,
    })?;
    Ok(List::from_vec(columns))
}

/// The names of rows.
fn copied(alloc: Global, rows: &[CellRow]) -> Result<List<Text>, Memory>
    ensures { IfOk result (λ names. names ≡ map (λ row. row.account) rows.now) }
{
    let mut names = Vec::new(alloc);
    for row in rows {
        names.push(Text::copied(alloc, row.account.as_str())?)?;
    }
    Ok(List::from_vec(names))
}

/// The accounts of takings beside some names, where one of them is new.
pub(crate) fn new_accounts(
    alloc: Global,
    names: &[Text],
    takings: &[Taking],
) -> Result<Option<List<Text>>, Memory>
    requires { AreInOrder names.now }
    ensures { IfOk result (λ new.
        AreOfBoth names.now (accounts_in (map named takings.now)) (unwrap_or new names.now)) }
{
    let more = accounts_of(alloc, takings)?;
    with_names(alloc, names, more.as_slice())
}

/// The symbols of takings beside some names, where one of them is new.
pub(crate) fn new_symbols(
    alloc: Global,
    names: &[Text],
    takings: &[Taking],
) -> Result<Option<List<Text>>, Memory>
    requires { AreInOrder names.now }
    ensures { IfOk result (λ new.
        AreOfBoth names.now (accounts_in (by_symbols takings.now)) (unwrap_or new names.now)) }
{
    let more = symbols_of(alloc, takings)?;
    with_names(alloc, names, more.as_slice())
}

/// Names with others, where one of these is new.
fn with_names(alloc: Global, names: &[Text], more: &[Text]) -> Result<Option<List<Text>>, Memory>
    requires { AreInOrder names.now }
    ensures { IfOk result (λ new. AreOfBoth names.now more.now (unwrap_or new names.now)) }
{
    let known = are_named(names, more);
    if known {
        return Ok(None);
    }
    let all = merged(alloc, names, more)?;
    Ok(Some(all))
}

/// Whether all of some names are among others, which stand in order.
pub(crate) fn are_named(names: &[Text], more: &[Text]) -> bool
    requires { AreInOrder names.now }
    ensures { result ≡ list_all (λ name. is_in name names.now) more.now }
{
    for name in more {
        let known = is_named(names, name);
        if !known {
            return false;
        }
    }
    true
}

/// Whether a name is among others, which stand in order.
fn is_named(names: &[Text], name: &Text) -> bool
    requires { AreInOrder names.now }
    ensures { result ≡ is_in name.now names.now }
{
    let mut low = 0;
    let mut high = names.len();
    while low < high {
        let middle = low + (high - low) / 2;
        match compare_accounts(&names[middle], name) {
            Ordering::Less => low = middle + 1,
            Ordering::Equal => return true,
            Ordering::Greater => high = middle,
        }
    }
    false
}

/// The names of two lists, each once and in the order of accounts.
fn merged(alloc: Global, names: &[Text], more: &[Text]) -> Result<List<Text>, Memory>
    ensures { IfOk result (AreOfBoth names.now more.now) }
{
    let mut others = Vec::new(alloc);
    push_names(&mut others, names)?;
    push_names(&mut others, more)?;
    names_of(alloc, &others)
}

/// Adds a taking that only names for each name.
fn push_names<'a>(others: &mut Vec<Taking<'a>>, names: &'a [Text]) -> Result<(), Memory>
    ensures { OnOk result (others.new.items ≡ others.old.items ++ map only names.now) }
{
    for name in names {
        others.push(Taking {
            account: name.as_str(),
            day: Day(0),
            amount: None,
        })?;
    }
    Ok(())
}
