//! A store's text, without a load.
ghost use Rattle.std.specs.Prelude.{◌≡◌};
ghost use Rattle.store_text.specs.Reading.{ReadsDisks, ReadsStore};
ghost use Rattle.store_text.specs.Shelved.{second_name as second_name_of};

use crate::lending::{give_back_disks, second_name, take_disks};
use crate::refusal::{StoreRefusal, unopened};
use hl_base::{Bytes, Disk, Shelf, Text};
use std::alloc::Global;
use text_store::Store;

/// The text of the image of two disks, the first and the second, which both come back. What stands behind the last acknowledged
/// change is cut off, and an older store is written into the second disk; the image stays.
pub fn read_disks<D: Disk>(
    alloc: Global,
    first: D,
    second: D,
) -> (D, D, Result<Bytes, StoreRefusal>)
    ensures { ReadsDisks D.Disk (first, second) (result.0, result.1) result.2 }
{
    match Store::open(alloc, first, second) {
        Ok((store, image)) => {
            let (first, second) = store.close();
            (first, second, Ok(image.text))
        }
        Err((first, second, fault)) => (first, second, Err(unopened(fault))),
    }
}

/// The text of the store of this name, whose second file has the other name.
fn read_beside<S: Shelf>(
    alloc: Global,
    name: &Text,
    beside: &Text,
    shelf: &mut S,
) -> Result<Bytes, StoreRefusal>
    requires { beside.now ≡ second_name_of name.now }
    ensures { ReadsStore S.Shelf S.Disk.Disk name.now shelf.old shelf.new result }
{
    match take_disks(alloc, shelf, name, beside, false) {
        Ok((first, second)) => {
            let (first, second, found) = read_disks(alloc, first, second);
            give_back_disks(shelf, name, beside, first, second);
            found
        }
        Err(refusal) => Err(refusal),
    }
}

/// The text of the store of this name, in bytes, without a load. Both its disks are taken from the shelf and come back; the
/// second file is made where it is absent. It is refused where the first file is absent, where the files are no store or one of a
/// later edition, where a disk couldn't be taken, where a call of a disk failed, and where memory ran out. The store's image, or
/// the want of one, stays, and so does each other file.
pub fn read_store<S: Shelf>(
    alloc: Global,
    name: &Text,
    shelf: &mut S,
) -> Result<Bytes, StoreRefusal>
    ensures { ReadsStore S.Shelf S.Disk.Disk name.now shelf.old shelf.new result }
{
    let beside = second_name(alloc, name)?;
    read_beside(alloc, name, &beside, shelf)
}
