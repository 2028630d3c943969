//! How a frame is stored: a due repair first, then a store that is written anew where that is due, then the record.
ghost use Rattle.std.specs.Prelude.{◌≡◌, ◌↔◌, ◌+◌, ◌^◌, ◌<◌, ◌≤◌, true, false, IsTrue, Option, Some, IfErr, OnOk, OnErr, length, vec_len};
ghost use Rattle.text_store.specs.Changes.{payload_of, HasShortName};
ghost use Rattle.text_store.specs.Edits.{edited, whole_size};
ghost use Rattle.text_store.specs.Files.{IsWritable};
ghost use Rattle.text_store.specs.Stores.{size_of, limit_of, repair_due, ShowsEither, Holds};
ghost use Rattle.text_store.specs.declared.image.Image.{Image};
ghost use Rattle.follower.specs.declared.keep.Unkept.TheVariants.{Memory as NoRoom};
ghost use Rattle.follower.specs.Changing.{text_after, LiesIn};
ghost use Rattle.follower.specs.Keeping as spec;
ghost use Rattle.follower.specs.Prepared.{next_image};
ghost use Rattle.follower.specs.Refused as refused;
ghost use Rattle.follower.specs.Stands.{ShowsOne, Stands};

use crate::fault::FollowFault;
use crate::preparing::Prepared;
use crate::splicing::{put_in, reserve_for, take_text};
use hl_base::{Bytes, Disk, Memory};
use std::alloc::Global;
use text_store::{Change, Image, Store, StoreFault};

/// Why a frame wasn't stored: a disk failed, or memory ran out.
#[derive(Clone, Copy, Debug, PartialEq, Eq)]
pub enum Unkept {
    DiskFault,
    Memory,
}

// Why a store wrote nothing, where it had the room.
fn reason_of(fault: StoreFault) -> Unkept
    ensures { result ≡ spec.unkept_of fault }
{
    match fault {
        StoreFault::DiskFault => Unkept::DiskFault,
        StoreFault::NotAStore { .. }
        | StoreFault::Newer { .. }
        | StoreFault::Full { .. }
        | StoreFault::Exists { .. }
        | StoreFault::Memory => Unkept::Memory,
    }
}

/// Why a follower's store wasn't made or opened.
pub fn refusal_of(fault: StoreFault) -> FollowFault
    ensures { result ≡ refused.refusal_of fault }
{
    match fault {
        StoreFault::Memory => FollowFault::Memory,
        StoreFault::DiskFault
        | StoreFault::NotAStore { .. }
        | StoreFault::Newer { .. }
        | StoreFault::Full { .. }
        | StoreFault::Exists { .. } => FollowFault::Store(fault),
    }
}

// What is answered of a frame that wasn't stored.
fn fault_of(reason: Unkept) -> FollowFault
    ensures { result ≡ refused.fault_of reason }
{
    match reason {
        Unkept::DiskFault => FollowFault::Store(StoreFault::DiskFault),
        Unkept::Memory => FollowFault::Memory,
    }
}

impl From<Memory> for Unkept {
    ghost from_gives = { λ _ e. e ≡ NoRoom };

    fn from(_memory: Memory) -> Unkept {
        Unkept::Memory
    }
}

impl From<Unkept> for FollowFault {
    ghost from_gives = { λ reason e. e ≡ refused.fault_of reason };

    fn from(reason: Unkept) -> FollowFault {
        fault_of(reason)
    }
}

// Repairs a store where that is due.
fn mend<D: Disk>(store: &mut Store<D>) -> Result<(), Unkept>
    ensures mended { OnOk result ((shown : Image) (pending : Option Image)
        → Stands store.old shown pending → (repair_due store.new ≡ false) × Holds store.new shown) }
    ensures torn { OnErr result ((shown : Image) (pending : Option Image)
        → Stands store.old shown pending → Stands store.new shown pending) }
    ensures any_moment { (shown : Image) (pending next : Option Image)
        → Stands store.old shown pending
        → spec.Between store.old store.new (ShowsOne shown pending next) }
    ensures disk { IfErr result (λ e. e ≡ Unkept.DiskFault) }
    ensures cause { IfErr result (λ e. spec.IsCauseIn e store.old store.new) }
    ensures no_fault { OnOk result (spec.HasNoFault store.old store.new) }
    ensures ready { OnOk result (repair_due store.new ≡ false) }
    ensures size { size_of store.new ≡ size_of store.old }
    ensures goes_on { spec.GoesOn store.old store.new }
{
    match store.repair() {
        Ok(()) => Ok(()),
        Err(_) => Err(Unkept::DiskFault),
    }
}

// Writes a store anew with an image for which it has the room.
fn write_image<D: Disk>(store: &mut Store<D>, alloc: Global, image: &Image) -> Result<(), Unkept>
    requires ready { repair_due store.old ≡ false }
    requires writable { IsWritable image.now }
    requires revision { image.now.revision ≤ 2 ^ 62 }
    requires room { whole_size image.now ≤ limit_of store.old }
    ensures held { OnOk result ((shown : Image) → Holds store.old shown
        → Holds store.new image.now) }
    ensures any_moment { (shown : Image) → Holds store.old shown
        → spec.Between store.old store.new (ShowsEither shown image.now) }
    ensures torn { IfErr result (λ e. (shown : Image) → Holds store.old shown
        → spec.LeftBy e store.new shown image.now) }
    ensures cause { IfErr result (λ e. spec.IsCauseIn e store.old store.new) }
    ensures no_fault { OnOk result (spec.HasNoFault store.old store.new) }
    ensures size { OnOk result (size_of store.new ≡ whole_size image.now) }
    ensures ready { OnOk result (repair_due store.new ≡ false) }
    ensures goes_on { spec.GoesOn store.old store.new }
{
    match store.checkpoint(alloc, image) {
        Ok(()) => Ok(()),
        Err(fault) => Err(reason_of(fault)),
    }
}

// Puts a change behind the records of a store that has the room, and then into the text, whose room is asked for first.
fn put_record<D: Disk>(
    store: &mut Store<D>,
    alloc: Global,
    text: &mut Vec<u8>,
    change: Change,
) -> Result<(), Unkept>
    requires ready { repair_due store.old ≡ false }
    requires name { HasShortName change }
    requires room { size_of store.old + 10 + length (payload_of change) ≤ limit_of store.old }
    requires inside { LiesIn change (vec_len text.old) }
    ensures held { OnOk result ((shown next : Image) → Holds store.old shown
        → edited shown change ≡ Some next → Holds store.new next) }
    ensures any_moment { (shown next : Image) → Holds store.old shown
        → edited shown change ≡ Some next
        → spec.Between store.old store.new (ShowsEither shown next) }
    ensures torn { IfErr result (λ e. (shown next : Image) → Holds store.old shown
        → edited shown change ≡ Some next → spec.LeftBy e store.new shown next) }
    ensures cause { IfErr result (λ e. spec.IsCauseIn e store.old store.new) }
    ensures no_fault { OnOk result (spec.HasNoFault store.old store.new) }
    ensures size { OnOk result
        (size_of store.new ≡ size_of store.old + 10 + length (payload_of change)) }
    ensures ready { OnOk result (repair_due store.new ≡ false) }
    ensures goes_on { spec.GoesOn store.old store.new }
    ensures put { OnOk result (text.new.items ≡ text_after change text.old.items) }
    ensures same { OnErr result (text.new.items ≡ text.old.items) }
{
    reserve_for(text, &change)?;
    match store.append(alloc, &change) {
        Ok(()) => {
            put_in(text, change);
            Ok(())
        }
        Err(fault) => Err(reason_of(fault)),
    }
}

/// Whether a store of an image is written anew before a record of so many bytes.
pub fn is_due<D: Disk>(store: &Store<D>, image: &Image, size: u64) -> bool
    ensures { result ≡ spec.is_due_for store.now image.now size }
{
    let _size = store.size();
    store.due(size, image.size())
}

/// Whether so many bytes and a record of so many more are past a limit.
pub fn is_past(whole: u64, size: u64, limit: u64) -> bool
    ensures { IsTrue result ↔ (limit < whole + size) }
{
    whole > limit || size > limit - whole
}

// Writes a store anew with the image that it holds, where that is due before a record of so many bytes.
fn make_room<D: Disk>(
    store: &mut Store<D>,
    alloc: Global,
    image: &Image,
    size: u64,
) -> Result<(), Unkept>
    requires ready { repair_due store.old ≡ false }
    requires writable { IsWritable image.now }
    requires revision { image.now.revision ≤ 2 ^ 62 }
    requires room { spec.is_due_for store.old image.now size ≡ true
        → whole_size image.now + size ≤ limit_of store.old }
    ensures held { OnOk result (Holds store.old image.now → Holds store.new image.now) }
    ensures any_moment { Holds store.old image.now
        → spec.Between store.old store.new (ShowsEither image.now image.now) }
    ensures torn { IfErr result (λ e. Holds store.old image.now
        → spec.LeftBy e store.new image.now image.now) }
    ensures cause { IfErr result (λ e. spec.IsCauseIn e store.old store.new) }
    ensures no_fault { OnOk result (spec.HasNoFault store.old store.new) }
    ensures size { OnOk result (size_of store.new ≡ spec.size_for store.old image.now size) }
    ensures ready { OnOk result (repair_due store.new ≡ false) }
    ensures goes_on { spec.GoesOn store.old store.new }
{
    if !is_due(store, image, size) {
        return Ok(());
    }
    write_image(store, alloc, image)
}

/// Stores a snapshot: a due repair comes first.
pub fn keep_image<D: Disk>(store: &mut Store<D>, alloc: Global, image: &Image) -> Result<(), Unkept>
    requires writable { IsWritable image.now }
    requires revision { image.now.revision ≤ 2 ^ 62 }
    requires room { whole_size image.now ≤ limit_of store.old }
    ensures held { OnOk result ((shown : Image) (pending : Option Image)
        → Stands store.old shown pending
        → (repair_due store.new ≡ false) × Holds store.new image.now) }
    ensures torn { IfErr result (λ e. (shown : Image) (pending : Option Image)
        → Stands store.old shown pending → spec.StandsStill e store.new shown pending image.now) }
    ensures any_moment { (shown : Image) (pending : Option Image) → Stands store.old shown pending
        → spec.Between store.old store.new (ShowsOne shown pending (Some image.now)) }
    ensures cause { IfErr result (λ e. spec.IsCauseIn e store.old store.new) }
    ensures no_fault { OnOk result (spec.HasNoFault store.old store.new) }
    ensures size { OnOk result (size_of store.new ≡ whole_size image.now) }
    ensures goes_on { spec.GoesOn store.old store.new }
{
    mend(store)?;
    match write_image(store, alloc, image) {
        Ok(()) => Ok(()),
        Err(reason) => Err(reason),
    }
}

/// Stores a change of an image, of so many bytes as a record, and then makes it in the image: a due repair comes first, then a store that
/// is written anew where that is due, then the change's record. What isn't stored leaves the image as it is.
pub fn keep_change<D: Disk>(
    store: &mut Store<D>,
    alloc: Global,
    image: &mut Image,
    prepared: Prepared,
    size: u64,
) -> Result<(), Unkept>
    requires name { HasShortName prepared.change }
    requires record_size { size ≡ 10 + length (payload_of prepared.change) }
    requires writable { IsWritable image.old }
    requires revision { image.old.revision ≤ 2 ^ 62 }
    requires inside { LiesIn prepared.change (length image.old.text) }
    requires room { spec.size_for store.old image.old size + size ≤ limit_of store.old }
    ensures held { OnOk result ((next : Image) (pending : Option Image)
        → Stands store.old image.old pending → edited image.old prepared.change ≡ Some next
        → (repair_due store.new ≡ false) × Holds store.new next) }
    ensures torn { IfErr result (λ e. (next : Image) (pending : Option Image)
        → Stands store.old image.old pending → edited image.old prepared.change ≡ Some next
        → spec.StandsStill e store.new image.old pending next) }
    ensures any_moment { (next : Image) (pending : Option Image)
        → Stands store.old image.old pending → edited image.old prepared.change ≡ Some next
        → spec.Between store.old store.new (ShowsOne image.old pending (Some next)) }
    ensures cause { IfErr result (λ e. spec.IsCauseIn e store.old store.new) }
    ensures no_fault { OnOk result (spec.HasNoFault store.old store.new) }
    ensures size { OnOk result (size_of store.new ≡ spec.size_for store.old image.old size + size) }
    ensures goes_on { spec.GoesOn store.old store.new }
    ensures made { OnOk result (image.new ≡ next_image image.old prepared) }
    ensures same { OnErr result (image.new ≡ image.old) }
{
    mend(store)?;
    make_room(store, alloc, image, size)?;
    let Prepared { change, next } = prepared;
    let mut text = take_text(alloc, image);
    match put_record(store, alloc, &mut text, change) {
        Ok(()) => {
            next.put_into(image, text);
            Ok(())
        }
        Err(reason) => {
            image.text = Bytes::from_vec(text);
            Err(reason)
        }
    }
}
