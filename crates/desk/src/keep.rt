//! How a change is kept: a due repair first, then a store that is written anew where that is due, then the record.
ghost use Rattle.std.specs.Prelude.{◌≡◌, ◌⊎◌, ℕ, ◌+◌, ◌^◌, ◌<◌, ◌≤◌, true, false, Option, Some, None, IfErr, OnOk, OnErr, length};
ghost use Rattle.text_store.specs.Changes.{HasShortName};
ghost use Rattle.text_store.specs.Edits as edits;
ghost use Rattle.text_store.specs.Stores.{disks, size_of, limit_of, repair_due, Tell, fault_count, Throughout, Shows, ShowsEither, Holds, MayShow};
ghost use Rattle.text_store.specs.declared.image.Image.{Image};
ghost use Rattle.desk.specs.Keeping as spec;
ghost use Rattle.desk.specs.Stands.{ShowsOne, Stands};
ghost use Rattle.desk.specs.States.{record_size};

use crate::sizes::image_of;
use hl_base::{Disk, Latest, List};
use live_journal::Live;
use std::alloc::Global;
use text_store::{Change, Store, StoreFault, size_of_parts};

/// Why a change wasn't kept: a disk failed, or memory ran out.
#[derive(Clone, Copy, Debug, PartialEq, Eq)]
pub(crate) enum Unkept {
    DiskFault,
    Memory,
}

/// Why a store wrote nothing, where it had the room.
fn reason_of(fault: StoreFault) -> Unkept
    ensures { result ≡ spec.unkept_of fault }
{
    match fault {
        StoreFault::DiskFault => Unkept::DiskFault,
        StoreFault::NotAStore { .. }
        | StoreFault::Newer { .. }
        | StoreFault::Full { .. }
        | StoreFault::Exists { .. }
        | StoreFault::Memory => Unkept::Memory,
    }
}

/// Repairs a store where that is due.
fn mend<D: Disk>(store: &mut Store<D>) -> Result<(), Unkept>
    ensures mended { OnOk result ((shown : Image) (pending : Option Image)
        → Stands store.old shown pending
        → (repair_due store.new ≡ false) × Holds store.new shown) }
    ensures torn { OnErr result ((shown : Image) (pending : Option Image)
        → Stands store.old shown pending → Stands store.new shown pending) }
    ensures any_moment { (shown : Image) (pending next : Option Image)
        → Stands store.old shown pending → Tell D.Disk (disks store.old)
        → Throughout D.Disk (disks store.old) (disks store.new) (ShowsOne shown pending next) }
    ensures disk { IfErr result (λ e. e ≡ Unkept.DiskFault) }
    ensures cause { IfErr result (λ e. spec.IsCause e (fault_count D.Disk (disks store.old))
        (fault_count D.Disk (disks store.new))) }
    ensures no_fault { OnOk result (fault_count D.Disk (disks store.new)
        ≡ fault_count D.Disk (disks store.old)) }
    ensures ready { OnOk result (repair_due store.new ≡ false) }
    ensures size { size_of store.new ≡ size_of store.old }
    ensures goes_on { spec.GoesOn store.old store.new }
{
    match store.repair() {
        Ok(()) => Ok(()),
        Err(_) => Err(Unkept::DiskFault),
    }
}

/// Writes a store anew, of a journal that stays.
fn write_anew<D: Disk>(
    store: &mut Store<D>,
    alloc: Global,
    live: &Live,
    latest: &List<Latest>,
) -> Result<(), Unkept>
    requires ready { repair_due store.old ≡ false }
    requires writable { spec.are_writable latest.now ≡ true }
    requires revision { live.now.revision < 2 ^ 62 }
    requires room { edits.whole_size
        (record { text = live.now.text; latest = latest.now; revision = live.now.revision })
        ≤ limit_of store.old }
    ensures held { (shown : Image)
        → shown ≡ record { text = live.now.text; latest = latest.now; revision = live.now.revision }
        → OnOk result (Holds store.old shown → Holds store.new shown) }
    ensures any_moment { (shown : Image)
        → shown ≡ record { text = live.now.text; latest = latest.now; revision = live.now.revision }
        → Holds store.old shown → Tell D.Disk (disks store.old)
        → Throughout D.Disk (disks store.old) (disks store.new) (Shows shown) }
    ensures torn { (shown : Image)
        → shown ≡ record { text = live.now.text; latest = latest.now; revision = live.now.revision }
        → IfErr result (λ e. Holds store.old shown → spec.LeftBy e store.new shown shown) }
    ensures cause { IfErr result (λ e. spec.IsCause e (fault_count D.Disk (disks store.old))
        (fault_count D.Disk (disks store.new))) }
    ensures no_fault { OnOk result (fault_count D.Disk (disks store.new)
        ≡ fault_count D.Disk (disks store.old)) }
    ensures size { OnOk result (size_of store.new ≡ edits.whole_size
        (record { text = live.now.text; latest = latest.now; revision = live.now.revision })) }
    ensures same_size { OnErr result (size_of store.new ≡ size_of store.old) }
    ensures ready { OnOk result (repair_due store.new ≡ false) }
    ensures goes_on { spec.GoesOn store.old store.new }
{
    let image = match image_of(alloc, live, latest) {
        Ok(image) => image,
        Err(_) => return Err(Unkept::Memory),
    };
    match store.checkpoint(alloc, &image) {
        Ok(()) => Ok(()),
        Err(fault) => Err(reason_of(fault)),
    }
}

/// Puts a change behind the records of a store that has the room.
fn put_record<D: Disk>(store: &mut Store<D>, alloc: Global, change: &Change) -> Result<(), Unkept>
    requires ready { repair_due store.old ≡ false }
    requires name { HasShortName change.now }
    requires room { size_of store.old + record_size change.now ≤ limit_of store.old }
    ensures held { OnOk result ((shown next : Image) → Holds store.old shown
        → edits.edited shown change.now ≡ Some next → Holds store.new next) }
    ensures any_moment { (shown next : Image) → Holds store.old shown
        → edits.edited shown change.now ≡ Some next → Tell D.Disk (disks store.old)
        → Throughout D.Disk (disks store.old) (disks store.new) (ShowsEither shown next) }
    ensures torn { IfErr result (λ e. (shown next : Image) → Holds store.old shown
        → edits.edited shown change.now ≡ Some next → spec.LeftBy e store.new shown next) }
    ensures cause { IfErr result (λ e. spec.IsCause e (fault_count D.Disk (disks store.old))
        (fault_count D.Disk (disks store.new))) }
    ensures no_fault { OnOk result (fault_count D.Disk (disks store.new)
        ≡ fault_count D.Disk (disks store.old)) }
    ensures size { OnOk result (size_of store.new ≡ size_of store.old + record_size change.now) }
    ensures same_size { OnErr result (size_of store.new ≡ size_of store.old) }
    ensures ready { OnOk result (repair_due store.new ≡ false) }
    ensures goes_on { spec.GoesOn store.old store.new }
{
    match store.append(alloc, change) {
        Ok(()) => Ok(()),
        Err(fault) => Err(reason_of(fault)),
    }
}

/// Writes a store anew, of a journal that stays, where that is due before a record of so many bytes.
fn make_room<D: Disk>(
    store: &mut Store<D>,
    alloc: Global,
    live: &Live,
    latest: &List<Latest>,
    size: u64,
) -> Result<(), Unkept>
    requires ready { repair_due store.old ≡ false }
    requires writable { spec.are_writable latest.now ≡ true }
    requires revision { live.now.revision < 2 ^ 62 }
    requires room { let whole = edits.whole_size
        (record { text = live.now.text; latest = latest.now; revision = live.now.revision }) in
        spec.due_at (size_of store.old) (limit_of store.old) size whole ≡ true
        → whole + size ≤ limit_of store.old }
    ensures held { (shown : Image)
        → shown ≡ record { text = live.now.text; latest = latest.now; revision = live.now.revision }
        → OnOk result (Holds store.old shown → Holds store.new shown) }
    ensures any_moment { (shown : Image)
        → shown ≡ record { text = live.now.text; latest = latest.now; revision = live.now.revision }
        → Holds store.old shown → Tell D.Disk (disks store.old)
        → Throughout D.Disk (disks store.old) (disks store.new) (Shows shown) }
    ensures torn { (shown : Image)
        → shown ≡ record { text = live.now.text; latest = latest.now; revision = live.now.revision }
        → IfErr result (λ e. Holds store.old shown → spec.LeftBy e store.new shown shown) }
    ensures cause { IfErr result (λ e. spec.IsCause e (fault_count D.Disk (disks store.old))
        (fault_count D.Disk (disks store.new))) }
    ensures no_fault { OnOk result (fault_count D.Disk (disks store.new)
        ≡ fault_count D.Disk (disks store.old)) }
    ensures size { let whole = edits.whole_size
        (record { text = live.now.text; latest = latest.now; revision = live.now.revision }) in
        OnOk result (size_of store.new
        ≡ spec.room_size (size_of store.old) (limit_of store.old) size whole) }
    ensures same_size { OnErr result (size_of store.new ≡ size_of store.old) }
    ensures ready { OnOk result (repair_due store.new ≡ false) }
    ensures goes_on { spec.GoesOn store.old store.new }
{
    if !is_due(store, live, latest, size) {
        return Ok(());
    }
    write_anew(store, alloc, live, latest)
}

/// Whether a store is written anew before a record of so many bytes.
pub(crate) fn is_due<D: Disk>(
    store: &Store<D>,
    live: &Live,
    latest: &List<Latest>,
    size: u64,
) -> bool
    ensures { let whole = edits.whole_size
        (record { text = live.now.text; latest = latest.now; revision = live.now.revision }) in
        result ≡ spec.due_at (size_of store.now) (limit_of store.now) size whole }
{
    let _size = store.size();
    store.due(size, size_of_parts(live.text(), latest.as_slice()))
}

/// Keeps a change of a journal in its store: a due repair comes first, then a store that is written anew where that is due,
/// then the change's record, of so many bytes.
pub(crate) fn keep<D: Disk>(
    store: &mut Store<D>,
    alloc: Global,
    live: &Live,
    latest: &List<Latest>,
    change: &Change,
    size: u64,
) -> Result<(), Unkept>
    requires name { HasShortName change.now }
    requires record_size { size ≡ record_size change.now }
    requires writable { spec.are_writable latest.now ≡ true }
    requires revision { live.now.revision < 2 ^ 62 }
    requires room { let whole = edits.whole_size
        (record { text = live.now.text; latest = latest.now; revision = live.now.revision }) in
        spec.room_size (size_of store.old) (limit_of store.old) size whole + size
        ≤ limit_of store.old }
    ensures held { (shown next : Image) (pending : Option Image)
        → shown ≡ record { text = live.now.text; latest = latest.now; revision = live.now.revision }
        → Stands store.old shown pending → edits.edited shown change.now ≡ Some next
        → OnOk result ((repair_due store.new ≡ false) × Holds store.new next) }
    ensures torn { (shown next : Image) (pending : Option Image)
        → shown ≡ record { text = live.now.text; latest = latest.now; revision = live.now.revision }
        → Stands store.old shown pending → edits.edited shown change.now ≡ Some next
        → IfErr result (λ e. (after : Option Image) × spec.LeftPending e pending next after
        × Stands store.new shown after) }
    ensures any_moment { (shown next : Image) (pending : Option Image)
        → shown ≡ record { text = live.now.text; latest = latest.now; revision = live.now.revision }
        → Stands store.old shown pending → edits.edited shown change.now ≡ Some next
        → Tell D.Disk (disks store.old)
        → Throughout D.Disk (disks store.old) (disks store.new)
        (ShowsOne shown pending (Some next)) }
    ensures cause { IfErr result (λ e. spec.IsCause e (fault_count D.Disk (disks store.old))
        (fault_count D.Disk (disks store.new))) }
    ensures no_fault { OnOk result (fault_count D.Disk (disks store.new)
        ≡ fault_count D.Disk (disks store.old)) }
    ensures size { let whole = edits.whole_size
        (record { text = live.now.text; latest = latest.now; revision = live.now.revision }) in
        OnOk result (size_of store.new ≡ spec.room_size (size_of store.old)
        (limit_of store.old) size whole + size) }
    ensures torn_size { let whole = edits.whole_size
        (record { text = live.now.text; latest = latest.now; revision = live.now.revision }) in
        OnErr result ((size_of store.new ≡ size_of store.old)
        ⊎ (size_of store.new ≡ spec.room_size (size_of store.old)
        (limit_of store.old) size whole)) }
    ensures goes_on { spec.GoesOn store.old store.new }
{
    mend(store)?;
    make_room(store, alloc, live, latest, size)?;
    match put_record(store, alloc, change) {
        Ok(()) => Ok(()),
        Err(reason) => Err(reason),
    }
}
