//! Options that exclude each other.
ghost use Rattle.std.specs.Prelude.{◌≡◌, OnOk, IfOk, IfErr, IfSome, Some, None, find};
ghost use Rattle.std.specs.Option.{option_copied};
ghost use Rattle.report_options.specs.Conflicts as spec;
ghost use Rattle.report_options.specs.Items.{fault_cause};

use crate::fault::OptionFault;
use crate::items::Item;
use crate::names::{Name, intervals, is_among, is_same_name};
use hl_base::{Memory, Text};
use std::alloc::Global;

/// Whether both are among some names, and differ.
fn are_two(a: Name, b: Name, names: &[Name]) -> bool
    ensures { result ≡ spec.are_two a b names.now }
{
    is_among(a, names) && is_among(b, names) && !is_same_name(a, b)
}

/// Whether both are of one set of which one may stand alone.
fn are_rivals(a: Name, b: Name) -> bool
    ensures { result ≡ spec.are_rivals a b }
{
    are_two(a, b, intervals())
        || are_two(a, b, &[Name::Historical, Name::Cumulative, Name::Change])
        || are_two(a, b, &[Name::Flat, Name::Tree])
        || are_two(a, b, &[Name::Market, Name::Exchange, Name::Value])
        || are_two(a, b, &[Name::File, Name::Store])
}

/// Whether an option excludes another one.
fn is_excluded(a: Name, b: Name) -> bool
    ensures { result ≡ spec.is_excluded a b }
{
    match a {
        Name::RowTotal | Name::Average => {
            is_among(b, &[Name::Historical, Name::Cumulative, Name::Sheet])
        }
        Name::SortAmount => is_among(b, &[Name::Tree]),
        Name::Budget => is_among(b, &[Name::Historical, Name::Cumulative, Name::Tree]),
        _ => false,
    }
}

/// Whether two options exclude each other.
fn is_clash(a: Name, b: Name) -> bool
    ensures { result ≡ spec.is_clash a b }
{
    are_rivals(a, b) || is_excluded(a, b) || is_excluded(b, a)
}

/// The first of the earlier items that excludes a later one.
fn rival<'a>(earlier: &'a [Item], later: Name) -> Option<&'a Item>
    ensures { option_copied result ≡ find (λ item. spec.is_clash item.name later) earlier.now }
{
    for item in earlier {
        if is_clash(item.name, later) {
            return Some(item);
        }
    }
    None
}

/// The fault of two words.
fn conflict(alloc: Global, earlier: &Item, later: &Item) -> Result<OptionFault, Memory>
    ensures { IfOk result (λ fault. fault ≡ spec.conflict_of earlier.now later.now) }
{
    let a = Text::copied(alloc, earlier.word.as_str())?;
    let b = Text::copied(alloc, later.word.as_str())?;
    Ok(OptionFault::Conflict { a, b })
}

/// Refuses items of which two exclude each other.
#[tactic(auto, using(crate::proofs::Clashing::clash_none, crate::proofs::Clashing::clash_found, crate::proofs::Clashing::clash_end))]
pub(crate) fn refuse_conflicts(alloc: Global, items: &[Item]) -> Result<(), OptionFault>
    ensures none { OnOk result (spec.conflict_in items.now ≡ None) }
    ensures found { IfErr result (λ e. IfSome (fault_cause e)
        (λ fault. spec.conflict_in items.now ≡ Some fault)) }
{
    for (place, later) in items.iter().enumerate() {
        let (earlier, _) = items.split_at(place);
        if let Some(first) = rival(earlier, later.name) {
            return Err(conflict(alloc, first, later)?);
        }
    }
    Ok(())
}
