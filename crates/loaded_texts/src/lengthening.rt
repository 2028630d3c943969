//! The last item of a text, as its piece grows.
ghost use Rattle.std.specs.Prelude.{◌≡◌, ◌+◌, ◌^◌, ◌<◌, ◌≤◌, ◌++◌, IfSome, drop, length, map, take};
ghost use Rattle.std.specs.List.{AllByRecursion};
ghost use Rattle.text_ends.specs.Ends.{front_of, last_of};
ghost use Rattle.text_ends.specs.Going.{grown_item};
ghost use Rattle.loaded_texts.specs.Growing.{lengthened};

use book::{Items, Placed};
use hl_base::List;
use std::alloc::Global;
use std::mem::replace;

/// An item's piece gets so many more bytes.
fn lengthen_one(placed: &mut Placed, more: u64)
    requires { placed.old.piece.len + more < 2 ^ 64 }
    ensures { placed.new ≡ lengthened more placed.old }
{
    placed.piece.len += more;
}

/// The pieces of some items get so many more bytes each.
fn lengthen_all(items: &mut [Placed], more: u64)
    requires { AllByRecursion (λ p. p.piece.len + more < 2 ^ 64) items.old }
    ensures { items.new ≡ map (lengthened more) items.old }
{
    for placed in items.iter_mut() {
        lengthen_one(placed, more);
    }
}

/// The same of those from a number on.
fn lengthen_from(items: &mut [Placed], from: usize, more: u64)
    requires from { from ≤ length items.old }
    requires room { AllByRecursion (λ p. p.piece.len + more < 2 ^ 64) (drop from items.old) }
    ensures { items.new ≡ take from items.old ++ map (lengthened more) (drop from items.old) }
{
    let (_, behind) = items.split_at_mut(from);
    lengthen_all(behind, more);
}

/// The piece of the last item of a text, if there is one, gets so many more bytes.
pub(crate) fn lengthen(alloc: Global, items: &mut Items, more: u64)
    requires { IfSome (last_of items.old) (λ p. p.piece.len + more < 2 ^ 64) }
    ensures { items.new ≡ front_of items.old ++ grown_item more (last_of items.old) }
{
    let list = replace(items, List::new(alloc));
    let mut all = list.into_vec();
    let from = all.len().saturating_sub(1);
    lengthen_from(&mut all, from, more);
    *items = List::from_vec(all);
}
