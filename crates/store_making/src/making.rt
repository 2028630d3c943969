//! A store of a text in two disks, and among the files of a shelf.
ghost use Rattle.std.specs.Prelude.{◌≡◌};
ghost use Rattle.store_making.specs.Making.{MakesDisks, MakesFiles};
ghost use Rattle.store_text.specs.Shelved.{second_name as second_name_of};

use hl_base::{Disk, Shelf, Text};
use std::alloc::Global;
use store_text::{StoreRefusal, give_back_disks, take_disks, unopened};
use text_store::Store;

/// Makes a store of a text in two disks, which both come back, with a limit of each file's length in bytes.
fn make_disks<D: Disk>(
    alloc: Global,
    first: D,
    second: D,
    text: &[u8],
    limit: u64,
) -> (D, D, Result<(), StoreRefusal>)
    ensures { MakesDisks D.Disk (first, second) (result.0, result.1) text.now limit result.2 }
{
    match Store::create(alloc, first, second, text, limit) {
        Ok(store) => {
            let (first, second) = store.close();
            (first, second, Ok(()))
        }
        Err((first, second, fault)) => (first, second, Err(unopened(fault))),
    }
}

/// Makes the store of this name, whose second file has the other name, of a text. Both disks are taken from the shelf, made where
/// they are absent, and come back.
pub(crate) fn make_files<S: Shelf>(
    alloc: Global,
    shelf: &mut S,
    name: &Text,
    beside: &Text,
    text: &[u8],
    limit: u64,
) -> Result<(), StoreRefusal>
    requires { beside.now ≡ second_name_of name.now }
    ensures { MakesFiles S.Shelf S.Disk.Disk name.now text.now limit shelf.old shelf.new result }
{
    match take_disks(alloc, shelf, name, beside, true) {
        Ok((first, second)) => {
            let (first, second, made) = make_disks(alloc, first, second, text, limit);
            give_back_disks(shelf, name, beside, first, second);
            made
        }
        Err(refusal) => Err(refusal),
    }
}
