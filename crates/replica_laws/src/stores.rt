//! How the calls of a store go on with its records.
ghost use Rattle.std.specs.Prelude.{◌≡◌, ◌^◌, ◌≤◌, false, List, IfOk, OnErr, OnOk};
ghost use Rattle.text_store.specs.declared.fault.StoreFault.TheVariants.{DiskFault};
ghost use Rattle.text_store.specs.Changes.{HasShortName};
ghost use Rattle.text_store.specs.Files.{IsWritable};
ghost use Rattle.text_store.specs.Refusals.{Told};
ghost use Rattle.text_store.specs.Stores.{Leaves, Tell, Throughout, disks, repair_due};
ghost use Rattle.follow_commands.specs.Genuine.{bytes_of_all};
ghost use Rattle.follower.specs.declared.frame.Frame.{Frame};
ghost use Rattle.replica_laws.specs.Lives.{AreFramesOf, Becomes, Records, accepted, written_anew};
ghost use Rattle.replica_laws.specs.Stored.{HasPart, HasRecords, HaveEither, HaveRecords, IsRecordable, IsWhole};

use hl_base::{Bytes, Disk, Failed};
use std::alloc::Global;
use text_store::{Change, Image, Store, StoreFault};

/// Appends a change as `Store::append` does: it is the event of an accepted edit in the life of the store's records. Where a disk fails
/// in it, or a crash comes, the edit was put there, or the records are as before.
pub fn append_change<D: Disk>(
    alloc: Global,
    store: &mut Store<D>,
    change: &Change,
) -> Result<(), StoreFault>
    requires ready { repair_due store.old ≡ false }
    requires name { HasShortName change.now }
    ensures accepted { OnOk result ((before after : Records) → HasRecords store.old before
        → IsRecordable change.now → Becomes before (accepted change.now) after
        → HasRecords store.new after) }
    ensures torn { result ≡ Err DiskFault → (before after : Records) → HasRecords store.old before
        → IsRecordable change.now → Becomes before (accepted change.now) after
        → HasPart store.new before after }
    ensures any_moment { (before after : Records) → HasRecords store.old before
        → IsRecordable change.now → Becomes before (accepted change.now) after
        → Tell D.Disk (disks store.old)
        → Throughout D.Disk (disks store.old) (disks store.new) (HaveEither before after) }
{
    store.append(alloc, change)
}

/// Writes the image of a store anew as `Store::checkpoint` does: it is the event of a checkpoint in the life of the store's records.
/// Where a disk fails in it, or a crash comes, the image was written anew, or the records are as before.
pub fn write_anew<D: Disk>(
    alloc: Global,
    store: &mut Store<D>,
    image: &Image,
) -> Result<(), StoreFault>
    requires ready { repair_due store.old ≡ false }
    requires writable { IsWritable image.now }
    requires revision { image.now.revision ≤ 2 ^ 62 }
    ensures anew { OnOk result ((before after : Records) → HasRecords store.old before
        → image.now ≡ before.shown → IsWhole image.now → Becomes before written_anew after
        → HasRecords store.new after) }
    ensures torn { result ≡ Err DiskFault → (before after : Records) → HasRecords store.old before
        → image.now ≡ before.shown → IsWhole image.now → Becomes before written_anew after
        → HasPart store.new before after }
    ensures any_moment { (before after : Records) → HasRecords store.old before
        → image.now ≡ before.shown → IsWhole image.now → Becomes before written_anew after
        → Tell D.Disk (disks store.old)
        → Throughout D.Disk (disks store.old) (disks store.new) (HaveEither before after) }
{
    let _limit = store.limit();
    store.checkpoint(alloc, image)
}

/// Mends a store as `Store::repair` does: the records are those from before the call in which a disk failed. Until then a crash leaves
/// these, or those that the call would have made.
pub fn repair_records<D: Disk>(store: &mut Store<D>) -> Result<(), Failed>
    ensures mended { OnOk result ((before after : Records) → HasPart store.old before after
        → HasRecords store.new before) }
    ensures torn { OnErr result ((before after : Records) → HasPart store.old before after
        → HasPart store.new before after) }
    ensures any_moment { (before after : Records) → HasPart store.old before after
        → Tell D.Disk (disks store.old)
        → Throughout D.Disk (disks store.old) (disks store.new) (HaveEither before after) }
{
    store.repair()
}

/// Feeds as `Store::feed` does: the frames of the store's records, which stay.
pub fn feed_records<D: Disk>(alloc: Global, store: &mut Store<D>) -> Result<Bytes, StoreFault>
    requires { repair_due store.old ≡ false }
    ensures fed { IfOk result (λ bytes. (records : Records) → HasRecords store.old records
        → (frames : List Frame) × AreFramesOf records frames × (bytes ≡ bytes_of_all frames)) }
    ensures stays { (records : Records) → HasRecords store.old records
        → HasRecords store.new records }
    ensures any_moment { (records : Records) → HasRecords store.old records
        → Tell D.Disk (disks store.old)
        → Throughout D.Disk (disks store.old) (disks store.new) (HaveRecords records) }
{
    store.feed(alloc)
}

/// Opens two files as `Store::open` does: the store has the records of the files.
pub fn open_records<D: Disk>(
    alloc: Global,
    first: D,
    second: D,
) -> Result<(Store<D>, Image), (D, D, StoreFault)>
    ensures { IfOk result (λ opened.
        Told D.Disk (first, second) (λ f s. (records : Records) → HaveRecords records f s
        → HasRecords opened.0 records)) }
{
    Store::open(alloc, first, second)
}

/// Files that a crash leaves of a store between two calls have its records.
pub fn crashes_at_rest<D: Disk>(store: &Store<D>)
    ensures { (records : Records) → HasRecords store.now records → Tell D.Disk (disks store.now)
        → Leaves D.Disk (disks store.now) (HaveRecords records) }
{}
