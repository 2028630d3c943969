//! The frames of a store's records, without a load.
ghost use Rattle.std.specs.Prelude.{◌≡◌, false};
ghost use Rattle.text_store.specs.Stores.{repair_due};
ghost use Rattle.store_feeding.specs.Feeding.{FeedsDisks, FeedsOpen, FeedsStore, of_fed as answer_of};
ghost use Rattle.store_text.specs.Shelved.{second_name as second_name_of};

use hl_base::{Bytes, Disk, Shelf, Text};
use std::alloc::Global;
use store_text::{StoreRefusal, give_back_disks, second_name, take_disks, unopened};
use text_store::{Store, StoreFault};

/// What a store fed, as the answer of a command.
fn of_fed(fed: Result<Bytes, StoreFault>) -> Result<Bytes, StoreRefusal>
    ensures { result ≡ answer_of fed }
{
    match fed {
        Ok(frames) => Ok(frames),
        Err(fault) => Err(unopened(fault)),
    }
}

/// The frames of a store that was opened, and its two disks.
fn feed_open<D: Disk>(alloc: Global, store: Store<D>) -> (D, D, Result<Bytes, StoreRefusal>)
    requires { repair_due store ≡ false }
    ensures { FeedsOpen store (result.0, result.1) result.2 }
{
    let mut store = store;
    let fed = store.feed(alloc);
    let (first, second) = store.close();
    (first, second, of_fed(fed))
}

/// The frames of the records of the half in use of two disks, the first and the second, which both come back. What stands behind
/// the last acknowledged change is cut off, and an older store is written into the second disk; the image stays.
pub fn feed_disks<D: Disk>(
    alloc: Global,
    first: D,
    second: D,
) -> (D, D, Result<Bytes, StoreRefusal>)
    ensures { FeedsDisks D.Disk (first, second) (result.0, result.1) result.2 }
{
    match Store::open(alloc, first, second) {
        Ok((store, _image)) => feed_open(alloc, store),
        Err((first, second, fault)) => (first, second, Err(unopened(fault))),
    }
}

/// The frames of the store of this name, whose second file has the other name.
fn feed_beside<S: Shelf>(
    alloc: Global,
    name: &Text,
    beside: &Text,
    shelf: &mut S,
) -> Result<Bytes, StoreRefusal>
    requires { beside.now ≡ second_name_of name.now }
    ensures { FeedsStore S.Shelf S.Disk.Disk name.now shelf.old shelf.new result }
{
    match take_disks(alloc, shelf, name, beside, false) {
        Ok((first, second)) => {
            let (first, second, found) = feed_disks(alloc, first, second);
            give_back_disks(shelf, name, beside, first, second);
            found
        }
        Err(refusal) => Err(refusal),
    }
}

/// The frames of the records of the store of this name, in order, without a load: of each the revision in 8 bytes, low byte first,
/// a kind byte, the payload's length in 8 bytes, and the payload. The first is the `C` of the half in use, with the revision of
/// its image; each other one has the revision after its change. Both disks are taken from the shelf and come back; the second
/// file is made where it is absent. It is refused where the first file is absent, where the files are no store or one of a later
/// edition, where a disk couldn't be taken, where a call of a disk failed, and where memory ran out. The store's image, or the
/// want of one, stays, and so does each other file.
pub fn feed_store<S: Shelf>(
    alloc: Global,
    name: &Text,
    shelf: &mut S,
) -> Result<Bytes, StoreRefusal>
    ensures { FeedsStore S.Shelf S.Disk.Disk name.now shelf.old shelf.new result }
{
    let beside = second_name(alloc, name)?;
    feed_beside(alloc, name, &beside, shelf)
}
