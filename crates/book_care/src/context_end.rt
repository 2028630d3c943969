//! The context at the end of a text.
ghost use Rattle.std.specs.Prelude.{◌≡◌, IfOk, is_some};
ghost use Rattle.std.specs.List.{list_any};
ghost use Rattle.book_care.specs.Reads as spec;

use book::{Directive, Item, Items, Placed};
use entry_reader::{Context, context_behind};
use hl_base::Memory;
use std::alloc::Global;

/// The context at the end of a text, without a year that is handed in.
pub(crate) fn context_at_end(alloc: Global, items: &Items) -> Result<Context, Memory>
    ensures { IfOk result (λ context. context ≡ spec.context_at_end items.now) }
{
    context_behind(alloc, None, items.as_slice())
}

/// Whether a directive says a default commodity.
fn says_default(directive: &Directive) -> bool
    ensures { result ≡ spec.says_default directive.now }
{
    match directive {
        Directive::Default(_amount) => true,
        _ => false,
    }
}

/// Whether an item does.
fn is_default(item: &Item) -> bool
    ensures { result ≡ spec.is_default item.now }
{
    match item {
        Item::Directive(directive) => says_default(directive),
        _ => false,
    }
}

/// Whether a text ends with a default commodity.
#[tactic(auto, using(crate::proofs::Usual::some_usual))]
pub(crate) fn has_default(items: &Items) -> bool
    ensures { result ≡ is_some (spec.context_at_end items.now).usual }
{
    any_default(items.as_slice())
}

/// Whether one of some items says a default commodity.
fn any_default(items: &[Placed]) -> bool
    ensures { result ≡ list_any (λ placed. spec.is_default placed.item) items.now }
{
    items.iter().any(|placed| is_default(&placed.item))
}
