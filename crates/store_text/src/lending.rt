//! A store's two disks, taken from a shelf and given back.
ghost use Rattle.std.specs.Prelude.{◌≡◌, ◌≢◌, IfOk};
ghost use Rattle.store_text.specs.Lending.{CameBack, SecondIsTaken, TakesDisks};
ghost use Rattle.store_text.specs.Shelved as spec;

use crate::refusal::{StoreRefusal, untaken};
use hl_base::{Memory, Shelf, Text};
use std::alloc::Global;

/// The name of a store's second file.
pub fn second_name(alloc: Global, name: &Text) -> Result<Text, Memory>
    ensures { IfOk result (λ second. second ≡ spec.second_name name.now) }
{
    let mut second = String::from_str(alloc, name.as_str())?;
    second.push_str(".2")?;
    Ok(Text::from_string(second))
}

/// Takes a second disk beside a first one, which is made where its name is absent. Where it isn't taken, the first goes back.
fn take_second<S: Shelf>(
    alloc: Global,
    shelf: &mut S,
    name: &Text,
    beside: &Text,
    first: S::Disk,
) -> Result<(S::Disk, S::Disk), StoreRefusal>
    requires { S.HasPlace shelf.old name.now }
    ensures { SecondIsTaken S.Shelf S.Disk.Disk name.now beside.now first shelf.old shelf.new
        result }
{
    match shelf.take(alloc, beside, true) {
        Ok(second) => Ok((first, second)),
        Err(fault) => {
            shelf.give_back(name, first);
            Err(untaken(fault))
        }
    }
}

/// Takes both disks of a store: the first of this name, which is made where it is absent if that is asked for, and the second
/// of the other name, which is made where it is absent. Where the second isn't taken, the first goes back.
pub fn take_disks<S: Shelf>(
    alloc: Global,
    shelf: &mut S,
    name: &Text,
    beside: &Text,
    make: bool,
) -> Result<(S::Disk, S::Disk), StoreRefusal>
    ensures { TakesDisks S.Shelf S.Disk.Disk make name.now beside.now shelf.old shelf.new result }
{
    match shelf.take(alloc, name, make) {
        Ok(first) => take_second(alloc, shelf, name, beside, first),
        Err(fault) => Err(untaken(fault)),
    }
}

/// Gives both disks of a store back, under their names.
pub fn give_back_disks<S: Shelf>(
    shelf: &mut S,
    name: &Text,
    beside: &Text,
    first: S::Disk,
    second: S::Disk,
)
    requires places { S.HasPlace shelf.old name.now × S.HasPlace shelf.old beside.now }
    requires apart { name.now ≢ beside.now }
    ensures { CameBack S.Shelf S.Disk.Disk name.now beside.now shelf.old shelf.new (first, second) }
{
    shelf.give_back(name, first);
    shelf.give_back(beside, second);
}
