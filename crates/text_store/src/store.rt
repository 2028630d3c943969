//! A store: a half in use, and the other file beside it.
ghost use Rattle.std.specs.Prelude.{◌≡◌, ◌<◌, true, false};

use crate::change::{Change, record_of};
use crate::disk_whole::read_both;
use crate::durable::cut_durably;
use crate::fault::StoreFault;
use crate::feeding::frames_of;
use crate::finding::{Found, InUse, Place, read_image};
use crate::gate::{rest_empty, shut_gate, write_anew, write_new};
use crate::half::Half;
use crate::image::Image;
use crate::whole::{following, header_bytes, whole_len, whole_record};
use hl_base::{Bytes, Disk, Failed, List};
use std::alloc::Global;

/// A text in two files, of which one half is in use. An acknowledged change is there after any crash.
#[derive(Drop)]
pub struct Store<D: Disk> {
    live: Half<D>,
    spare: D,
    in_second: bool,
    generation: u64,
    is_torn: bool,
    ghost one_of_three: { generation < 3 },
    ghost one_tear: { is_torn ≡ true → live.is_torn ≡ false },
}

impl<D: Disk> Store<D> {
    ghost use Rattle.std.specs.Prelude.{◌≡◌, ◌⊎◌, ◌↔◌, ◌+◌, ◌*◌, ◌^◌, ◌≤◌, ◌∷◌, [], ◌++◌, ℕ, List, length, true, false, if◌then◌else◌, not, max, take, Some, None, IsTrue, IfOk, IfErr, OnOk, OnErr};
    ghost use Rattle.hl_base.specs.Causes.{HasCause, Rose};
    ghost use Rattle.text_store.specs.declared.fault.StoreFault.TheVariants.{DiskFault as FailedDisk};
    ghost use Rattle.text_store.specs.Found.{half_found, IsFound};
    ghost use Rattle.hl_base.specs.Disk.{Cut, Becomes, Follows, LeavesOnly};
    ghost use Rattle.text_store.specs.Rest.{AfterStep, Comes, RestsAs, StandsIn, IsRewritten};
    ghost use Rattle.text_store.specs.declared.image.Image.{Image};
    ghost use Rattle.text_store.specs.Changes.{kind_of, payload_of, HasShortName};
    ghost use Rattle.text_store.specs.Edits.{edited, whole_size};
    ghost use Rattle.text_store.specs.Entries.{Entry, body};
    ghost use Rattle.text_store.specs.Faults.{ReadRefused};
    ghost use Rattle.text_store.specs.Frames.{frames_of};
    ghost use Rattle.text_store.specs.Image.{image, live, chosen};
    ghost use Rattle.text_store.specs.Files.{new_front, next_generation, IsWritable, fresh, WhileMade, WhileOpened, ShowsOf, opened_limit, opened_size, rest_of};
    ghost use Rattle.text_store.specs.Refusals.{PutRefused, CreateRefused, OpenRefused, RenewRefused, ImageStays, TellImage, Told};
    ghost use Rattle.text_store.specs.Standing.{Stand, StandFor, IsPartDone, Task, put_of, rewrite_of};
    ghost use Rattle.text_store.specs.Settled.{IsSettled};
    ghost use Rattle.text_store.specs.Stores.{disks, disks_made, disks_opened, size_of, limit_of, repair_due, Tell, fault_count, placed, Throughout, Shows, ShowsEither, Holds, MayShow, bounds, NoWider, Keeps};

    /// Makes a store of a text in two empty files, with a limit of each file's length in bytes.
    pub fn create(
        alloc: Global,
        first: D,
        second: D,
        text: &[u8],
        limit: u64,
    ) -> Result<Store<D>, (D, D, StoreFault)>
        ensures made { IfOk result (λ store.
            Told D.Disk (first, second) (λ f s. (f ≡ []) × (s ≡ [])
            × Holds store (fresh text.now))) }
        ensures bytes { IfOk result (λ store.
            Told D.Disk (first, second) (λ _ _.
            (D.seen (disks store).0 ≡ Some (new_front limit 1 (fresh text.now) ++ 0 ∷ []))
            × (D.seen (disks store).1 ≡ Some []))) }
        ensures numbers { IfOk result (λ store. (size_of store ≡ whole_size (fresh text.now))
            × (size_of store ≤ limit) × (limit_of store ≡ limit) × (repair_due store ≡ false)) }
        ensures cause { IfErr result (λ e.
            CreateRefused D.Disk (first, second) (e.0, e.1) (whole_size (fresh text.now)) limit
            e.2) }

        // A crash at any moment leaves files that it might have left before, files without an image, or the store.
        ensures any_moment { Told D.Disk (first, second) (λ _ _. Tell D.Disk (first, second)
            → Throughout D.Disk (first, second) (disks_made result)
            (WhileMade D.Disk (first, second) (fresh text.now))) }
        ensures keeps { Keeps D.Disk (first, second) (disks_made result) (limit, limit) }
        ensures no_fault { OnOk result (fault_count D.Disk (disks_made result)
            ≡ fault_count D.Disk (first, second)) }
    {
        let Ok(copy) = Bytes::copied(alloc, text) else {
            return Err((first, second, StoreFault::Memory));
        };
        let image = Image {
            text: copy,
            latest: List::new(alloc),
            revision: 0,
        };
        Store::create_image(alloc, first, second, &image, limit)
    }

    /// Makes a store of an image in two empty files, as `create` does of a text.
    pub fn create_image(
        alloc: Global,
        mut first: D,
        mut second: D,
        image: &Image,
        limit: u64,
    ) -> Result<Store<D>, (D, D, StoreFault)>
        requires writable { IsWritable image.now }
        requires revision { image.now.revision ≤ 2 ^ 62 }
        ensures made { IfOk result (λ store.
            Told D.Disk (first, second) (λ f s. (f ≡ []) × (s ≡ []) × Holds store image.now)) }
        ensures bytes { IfOk result (λ store.
            Told D.Disk (first, second) (λ _ _.
            (D.seen (disks store).0 ≡ Some (new_front limit 1 image.now ++ 0 ∷ []))
            × (D.seen (disks store).1 ≡ Some []))) }
        ensures numbers { IfOk result (λ store. (size_of store ≡ whole_size image.now)
            × (size_of store ≤ limit) × (limit_of store ≡ limit) × (repair_due store ≡ false)) }
        ensures cause { IfErr result (λ e.
            CreateRefused D.Disk (first, second) (e.0, e.1) (whole_size image.now) limit e.2) }
        ensures any_moment { Told D.Disk (first, second) (λ _ _. Tell D.Disk (first, second)
            → Throughout D.Disk (first, second) (disks_made result)
            (WhileMade D.Disk (first, second) image.now)) }
        ensures keeps { Keeps D.Disk (first, second) (disks_made result) (limit, limit) }
        ensures no_fault { OnOk result (fault_count D.Disk (disks_made result)
            ≡ fault_count D.Disk (first, second)) }
    {
        let size = whole_len(image);
        if size > limit {
            return Err((first, second, StoreFault::Full { size, limit }));
        }
        let Ok(header) = header_bytes(alloc, limit, 1, image.revision) else {
            return Err((first, second, StoreFault::Memory));
        };
        let Ok(entry) = whole_record(alloc, image) else {
            return Err((first, second, StoreFault::Memory));
        };
        match rest_empty(&mut first) {
            Err(fault) => Err((first, second, fault)),
            Ok(()) => match rest_empty(&mut second) {
                Err(fault) => Err((first, second, fault)),
                Ok(()) => match write_new(&mut first, &header, &entry) {
                    Err(_) => Err((first, second, StoreFault::DiskFault)),
                    Ok(()) => Ok(Store {
                        live: Half::new(first, size - 1, limit),
                        spare: second,
                        in_second: false,
                        generation: 1,
                        is_torn: false,
                    }),
                },
            },
        }
    }

    /// Opens two files as a store, and gives its image. What stands behind the last acknowledged change is cut off. An
    /// older store is written into the second file, with its limit or the length that this takes, whichever is greater.
    pub fn open(alloc: Global, first: D, second: D) -> Result<(Store<D>, Image), (D, D, StoreFault)>
        ensures opened { IfOk result (λ opened.
            Told D.Disk (first, second) (λ f s. (image f s ≡ Ok opened.1) × Holds opened.0 opened.1
            × (limit_of opened.0 ≡ opened_limit f s))) }
        ensures size { IfOk result (λ opened.
            Told D.Disk (first, second) (λ f s. size_of opened.0 ≡ opened_size f s)) }
        ensures writable { IfOk result (λ opened. IsWritable opened.1) }
        ensures ready { IfOk result (λ opened. repair_due opened.0 ≡ false) }
        ensures cause { IfErr result (λ e. OpenRefused D.Disk (first, second) (e.0, e.1) e.2) }

        // After a disk fault the disks read as files with the image, or the want of one, that they had.
        ensures stays { IfErr result (λ e. e.2 ≡ FailedDisk
            → ImageStays D.Disk (first, second) (e.0, e.1)) }

        // The half in use has the bytes that it had up to its last gate, which is shut and the file's last byte.
        ensures in_use { IfOk result (λ opened.
            Told D.Disk (first, second) (λ f s. D.seen opened.0.live.device ≡ Some (rest_of f s))) }

        // An older store stays in the first file as it is.
        ensures older { IfOk result (λ opened.
            Told D.Disk (first, second) (λ f s. chosen (live f) (live s) ≡ None
            → (D.seen (disks opened.0).0 ≡ Some f)
            × (D.seen (disks opened.0).1
            ≡ Some (new_front (limit_of opened.0) 1 opened.1 ++ 0 ∷ [])))) }

        // A crash at any moment leaves files that it might have left before, or files with the image, or the want of one,
        // of those that the disks read as, which it might have left before.
        ensures any_moment { Told D.Disk (first, second) (λ f s. Tell D.Disk (first, second)
            → Throughout D.Disk (first, second) (disks_opened result)
            (WhileOpened D.Disk (first, second) f s)) }
        ensures keeps { Told D.Disk (first, second) (λ f s.
            Keeps D.Disk (first, second) (disks_opened result)
            (max (opened_limit f s) (length f), max (opened_limit f s) (length s))) }
        ensures bounds { IfOk result (λ opened.
            Told D.Disk (first, second) (λ f s.
            ((bounds opened.0).0 ≤ max (limit_of opened.0) (length f))
            × ((bounds opened.0).1 ≤ max (limit_of opened.0) (length s)))) }
        ensures no_fault { OnOk result (fault_count D.Disk (disks_opened result)
            ≡ fault_count D.Disk (first, second)) }
    {
        let mut first = first;
        let mut second = second;
        match read_both(alloc, &mut first, &mut second) {
            Err(fault) => Err((first, second, fault)),
            Ok((first_bytes, second_bytes)) => {
                match read_image(alloc, &first_bytes, &second_bytes) {
                    Err(fault) => Err((first, second, fault)),
                    Ok(found) => Store::take_up(alloc, first, second, found),
                }
            }
        }
    }

    // Two files in the order of the half in use and the other, or back in theirs.
    fn in_order(first: D, second: D, in_second: bool) -> (D, D)
        ensures { result ≡ placed in_second first second }
    {
        if in_second {
            (second, first)
        } else {
            (first, second)
        }
    }

    // The store whose half in use was found. What stands behind its last gate is cut off, and that gate is shut.
    fn resume(first: D, second: D, place: InUse) -> Result<Store<D>, (D, D, StoreFault)>
        requires gate { place.gate + 1 < 2 ^ 64 }
        requires generation { place.generation < 3 }
        ensures opened { IfOk result (λ store. (f s : List ℕ) (shown : Image)
            → RestsAs D.seen D.tells_crashes D.may_leave first f
            → RestsAs D.seen D.tells_crashes D.may_leave second s
            → half_found f s place.in_second place shown → Holds store shown) }
        ensures bytes { IfOk result (λ store. (f s : List ℕ) (shown : Image)
            → RestsAs D.seen D.tells_crashes D.may_leave first f
            → RestsAs D.seen D.tells_crashes D.may_leave second s
            → half_found f s place.in_second place shown
            → D.seen store.live.device
            ≡ Some (take place.gate (placed place.in_second f s).0 ++ 0 ∷ [])) }
        ensures numbers { IfOk result (λ store. (limit_of store ≡ place.limit)
            × (size_of store ≡ place.gate + 1) × (store.in_second ≡ place.in_second)
            × (repair_due store ≡ false)) }
        ensures any_moment { (f s : List ℕ) (shown : Image)
            → RestsAs D.seen D.tells_crashes D.may_leave first f
            → RestsAs D.seen D.tells_crashes D.may_leave second s
            → half_found f s place.in_second place shown → Tell D.Disk (first, second)
            → Throughout D.Disk (first, second) (disks_made result)
            (ShowsOf D.Disk (first, second) f s shown) }
        ensures stays { IfErr result (λ e. (f s : List ℕ) (shown : Image)
            → RestsAs D.seen D.tells_crashes D.may_leave first f
            → RestsAs D.seen D.tells_crashes D.may_leave second s
            → half_found f s place.in_second place shown → TellImage D.Disk (e.0, e.1) (Ok shown)) }
        ensures cause { IfErr result (λ e. (e.2 ≡ FailedDisk)
            × Rose (fault_count D.Disk (first, second)) (fault_count D.Disk (e.0, e.1))) }
        ensures keeps { Keeps D.Disk (first, second) (disks_made result)
            (if place.in_second then (0, place.gate + 1) else (place.gate + 1, 0)) }
        ensures no_fault { OnOk result (fault_count D.Disk (disks_made result)
            ≡ fault_count D.Disk (first, second)) }
    {
        let (mut live, spare) = Store::in_order(first, second, place.in_second);
        match shut_gate(&mut live, place.gate) {
            Err(_) => {
                let (first, second) = Store::in_order(live, spare, place.in_second);
                Err((first, second, StoreFault::DiskFault))
            }
            Ok(()) => Ok(Store {
                live: Half::new(live, place.gate, place.limit),
                spare,
                in_second: place.in_second,
                generation: place.generation,
                is_torn: false,
            }),
        }
    }

    // The store of an image of an older one, which is written into the second file. The first stays as it is.
    fn renew(
        alloc: Global,
        first: D,
        mut second: D,
        shown: &Image,
        limit: u64,
    ) -> Result<Store<D>, (D, D, StoreFault)>
        requires writable { IsWritable shown.now }
        requires revision { shown.now.revision ≤ 2 ^ 62 }
        ensures opened { IfOk result (λ store. (f s : List ℕ)
            → RestsAs D.seen D.tells_crashes D.may_leave first f
            → RestsAs D.seen D.tells_crashes D.may_leave second s → chosen (live f) (live s) ≡ None
            → Holds store shown.now) }
        ensures numbers { IfOk result (λ store. (limit_of store ≡ max limit (whole_size shown.now))
            × (size_of store ≡ whole_size shown.now)
            × (store.in_second ≡ true) × (repair_due store ≡ false)) }
        ensures beside { IfOk result (λ store. (disks store).0 ≡ first) }
        ensures stays { IfErr result (λ e. e.2 ≡ FailedDisk → (f s : List ℕ)
            → RestsAs D.seen D.tells_crashes D.may_leave first f
            → RestsAs D.seen D.tells_crashes D.may_leave second s → chosen (live f) (live s) ≡ None
            → image f s ≡ Ok shown.now
            → TellImage D.Disk (e.0, e.1) (Ok shown.now)) }
        ensures bytes { IfOk result (λ store. (s : List ℕ)
            → RestsAs D.seen D.tells_crashes D.may_leave second s
            → D.seen (disks store).1 ≡ Some (new_front (limit_of store) 1 shown.now ++ 0 ∷ [])) }
        ensures any_moment { (f s : List ℕ) → RestsAs D.seen D.tells_crashes D.may_leave first f
            → RestsAs D.seen D.tells_crashes D.may_leave second s → chosen (live f) (live s) ≡ None
            → image f s ≡ Ok shown.now → Tell D.Disk (first, second)
            → Throughout D.Disk (first, second) (disks_made result)
            (ShowsOf D.Disk (first, second) f s shown.now) }
        ensures cause { IfErr result (λ e. RenewRefused D.Disk (first, second) (e.0, e.1) e.2) }
        ensures keeps { Keeps D.Disk (first, second) (disks_made result)
            (0, max limit (whole_size shown.now)) }
        ensures no_fault { OnOk result (fault_count D.Disk (disks_made result)
            ≡ fault_count D.Disk (first, second)) }
    {
        let size = whole_len(shown);
        let limit = limit.max(size);
        let Ok(header) = header_bytes(alloc, limit, 1, shown.revision) else {
            return Err((first, second, StoreFault::Memory));
        };
        let Ok(entry) = whole_record(alloc, shown) else {
            return Err((first, second, StoreFault::Memory));
        };
        match write_anew(&mut second, &header, &entry) {
            Err(_) => Err((first, second, StoreFault::DiskFault)),
            Ok(()) => Ok(Store {
                live: Half::new(second, size - 1, limit),
                spare: first,
                in_second: true,
                generation: 1,
                is_torn: false,
            }),
        }
    }

    // The store of an image that was found, of files that were brought to rest.
    fn take_up(
        alloc: Global,
        first: D,
        second: D,
        found: Found,
    ) -> Result<(Store<D>, Image), (D, D, StoreFault)>
        requires found { (f : List ℕ) × (s : List ℕ) × (length f < 2 ^ 63) × (length s < 2 ^ 63)
            × IsFound f s found.image found.place }
        requires writable { IsWritable found.image }
        ensures opened { IfOk result (λ opened. (f s : List ℕ)
            → RestsAs D.seen D.tells_crashes D.may_leave first f
            → RestsAs D.seen D.tells_crashes D.may_leave second s
            → IsFound f s found.image found.place
            → Holds opened.0 opened.1 × (limit_of opened.0 ≡ opened_limit f s)) }
        ensures size { IfOk result (λ opened. (f s : List ℕ) → IsFound f s found.image found.place
            → size_of opened.0 ≡ opened_size f s) }
        ensures in_use { IfOk result (λ opened. (f s : List ℕ)
            → RestsAs D.seen D.tells_crashes D.may_leave first f
            → RestsAs D.seen D.tells_crashes D.may_leave second s
            → IsFound f s found.image found.place
            → D.seen opened.0.live.device ≡ Some (rest_of f s)) }
        ensures stays { IfErr result (λ e. e.2 ≡ FailedDisk → (f s : List ℕ)
            → RestsAs D.seen D.tells_crashes D.may_leave first f
            → RestsAs D.seen D.tells_crashes D.may_leave second s
            → IsFound f s found.image found.place → TellImage D.Disk (e.0, e.1) (Ok found.image)) }
        ensures image { IfOk result (λ opened. opened.1 ≡ found.image) }
        ensures ready { IfOk result (λ opened. repair_due opened.0 ≡ false) }
        ensures older { IfOk result (λ opened. (f s : List ℕ)
            → RestsAs D.seen D.tells_crashes D.may_leave first f
            → RestsAs D.seen D.tells_crashes D.may_leave second s
            → IsFound f s found.image found.place → chosen (live f) (live s) ≡ None
            → (D.seen (disks opened.0).0 ≡ Some f)
            × (D.seen (disks opened.0).1
            ≡ Some (new_front (limit_of opened.0) 1 opened.1 ++ 0 ∷ []))) }
        ensures any_moment { (f s : List ℕ) → RestsAs D.seen D.tells_crashes D.may_leave first f
            → RestsAs D.seen D.tells_crashes D.may_leave second s
            → IsFound f s found.image found.place → Tell D.Disk (first, second)
            → Throughout D.Disk (first, second) (disks_opened result)
            (ShowsOf D.Disk (first, second) f s found.image) }
        ensures cause { IfErr result (λ e. RenewRefused D.Disk (first, second) (e.0, e.1) e.2) }
        ensures keeps { (f s : List ℕ) → IsFound f s found.image found.place
            → Keeps D.Disk (first, second) (disks_opened result)
            (max (opened_limit f s) (length f), max (opened_limit f s) (length s)) }
        ensures bounds { IfOk result (λ opened. (f s : List ℕ) → IsFound f s found.image found.place
            → ((bounds opened.0).0 ≤ max (limit_of opened.0) (length f))
            × ((bounds opened.0).1 ≤ max (limit_of opened.0) (length s))) }
        ensures no_fault { OnOk result (fault_count D.Disk (disks_opened result)
            ≡ fault_count D.Disk (first, second)) }
    {
        match found.place {
            Place::Half(place) => match Store::resume(first, second, place) {
                Err(refusal) => Err(refusal),
                Ok(store) => Ok((store, found.image)),
            },
            Place::Older(limit) => match Store::renew(alloc, first, second, &found.image, limit) {
                Err(refusal) => Err(refusal),
                Ok(store) => Ok((store, found.image)),
            },
        }
    }

    /// Puts a change behind the records of the half in use. At Ok it is acknowledged: from then on each crash leaves
    /// files that have it. After a disk fault a repair is due, and nothing was acknowledged.
    pub fn append(&mut self, alloc: Global, change: &Change) -> Result<(), StoreFault>
        requires ready { repair_due self.old ≡ false }
        requires name { HasShortName change.now }

        ensures acknowledged { OnOk result ((shown next : Image) → Holds self.old shown
            → edited shown change.now ≡ Some next → Holds self.new next) }

        // A crash at any moment leaves the image from before or the one with the change.
        ensures any_moment { (shown next : Image) → Holds self.old shown
            → edited shown change.now ≡ Some next → Tell D.Disk (disks self.old)
            → Throughout D.Disk (disks self.old) (disks self.new) (ShowsEither shown next) }
        ensures fault { result ≡ Err StoreFault.DiskFault → (shown next : Image)
            → Holds self.old shown → edited shown change.now ≡ Some next
            → MayShow self.new shown next }
        ensures cause { IfErr result (λ e.
            PutRefused self.old self.new (size_of self.old + 10
            + length (payload_of change.now)) e) }
        ensures size { OnOk result ((size_of self.new ≡ size_of self.old + 10
            + length (payload_of change.now)) × (size_of self.new ≤ limit_of self.old)) }
        ensures same_size { OnErr result (size_of self.new ≡ size_of self.old) }
        ensures ready { OnOk result (repair_due self.new ≡ false) }
        ensures same { (limit_of self.new ≡ limit_of self.old) × NoWider self.old self.new }
        ensures keeps { Keeps D.Disk (disks self.old) (disks self.new) (bounds self.old) }
        ensures no_fault { OnOk result (fault_count D.Disk (disks self.new)
            ≡ fault_count D.Disk (disks self.old)) }

        // The record stands behind the file's last gate, which is open then, and a shut gate behind that.
        ensures bytes { OnOk result ((shown : Image) (held : Holds self.old shown)
            → D.seen self.new.live.device
            ≡ Some (held.front ++ 1
            ∷ (body (kind_of change.now) (payload_of change.now) ++ 0 ∷ []))) }
        ensures beside { (self.new.spare ≡ self.old.spare)
            × (self.new.in_second ≡ self.old.in_second)
            × (self.new.generation ≡ self.old.generation) }

        // A disk fault, and a crash at any moment, leaves the records as they were, and behind them a part of the one of
        // the change.
        ensures torn { result ≡ Err FailedDisk → (shown : Image)
            (held : Holds self.old shown)
            → IsPartDone self.new held.front held.entries shown
            (put_of change.now held.beside) }
        ensures left { (shown : Image) (held : Holds self.old shown) → Tell D.Disk (disks self.old)
            → Throughout D.Disk (disks self.old) (disks self.new)
            (StandFor self.old.in_second held.front (put_of change.now held.beside)) }
    {
        let entry = record_of(alloc, change)?;
        let len = entry.len() as u64;
        let limit = self.live.limit();
        if len > self.live.room() {
            let size = self.live.size().saturating_add(len);
            return Err(StoreFault::Full { size, limit });
        }
        self.live.put(&entry)?;
        Ok(())
    }

    /// Writes an image into the other file, which is the half in use then. After a disk fault a repair is due, and the half in
    /// use is as before.
    pub fn checkpoint(&mut self, alloc: Global, image: &Image) -> Result<(), StoreFault>
        requires ready { repair_due self.old ≡ false }
        requires writable { IsWritable image.now }
        requires revision { image.now.revision ≤ 2 ^ 62 }

        ensures acknowledged { OnOk result ((shown : Image) → Holds self.old shown
            → Holds self.new image.now) }

        // A crash at any moment leaves the image from before or the given one.
        ensures any_moment { (shown : Image) → Holds self.old shown → Tell D.Disk (disks self.old)
            → Throughout D.Disk (disks self.old) (disks self.new) (ShowsEither shown image.now) }
        ensures fault { result ≡ Err StoreFault.DiskFault → (shown : Image) → Holds self.old shown
            → MayShow self.new shown image.now }
        ensures cause { IfErr result (λ e. PutRefused self.old self.new (whole_size image.now) e) }
        ensures size { OnOk result ((size_of self.new ≡ whole_size image.now)
            × (size_of self.new ≤ limit_of self.old)) }
        ensures same_size { OnErr result (size_of self.new ≡ size_of self.old) }
        ensures ready { OnOk result (repair_due self.new ≡ false) }
        ensures same { (limit_of self.new ≡ limit_of self.old) × NoWider self.old self.new }
        ensures keeps { Keeps D.Disk (disks self.old) (disks self.new) (bounds self.old) }
        ensures no_fault { OnOk result (fault_count D.Disk (disks self.new)
            ≡ fault_count D.Disk (disks self.old)) }

        // The half in use stays as it is, and the other file holds the image alone.
        ensures beside { OnOk result ((shown : Image) → Holds self.old shown
            → (self.new.spare ≡ self.old.live.device)
            × (D.seen self.new.live.device
            ≡ Some (new_front (limit_of self.old) (next_generation self.old.generation) image.now
            ++ 0 ∷ []))) }
        ensures turned { OnOk result ((self.new.generation ≡ next_generation self.old.generation)
            × (self.new.in_second ≡ not self.old.in_second)) }

        // A disk fault, and a crash at any moment, leaves the records as they were, and beside them a part of the other
        // file.
        ensures torn { result ≡ Err FailedDisk → (shown : Image)
            (held : Holds self.old shown)
            → IsPartDone self.new held.front held.entries shown
            (rewrite_of self.old image.now held.beside) }
        ensures left { (shown : Image) (held : Holds self.old shown) → Tell D.Disk (disks self.old)
            → Throughout D.Disk (disks self.old) (disks self.new)
            (StandFor self.old.in_second held.front (rewrite_of self.old image.now held.beside)) }
    {
        let limit = self.live.limit();
        let size = whole_len(image);
        if size > limit {
            return Err(StoreFault::Full { size, limit });
        }
        let generation = following(self.generation);
        let header = header_bytes(alloc, limit, generation, image.revision)?;
        let entry = whole_record(alloc, image)?;
        self.rewrite_spare(&header, &entry)?;
        self.turn(generation, size - 1);
        Ok(())
    }

    // Writes the other file anew.
    fn rewrite_spare(&mut self, header: &[u8], entry: &[u8]) -> Result<(), Failed>
        requires header { length header.now ≡ 33 }
        requires entry { 33 + length entry.now < 2 ^ 64 }
        requires ready { self.old.live.is_torn ≡ false }
        ensures moves { (self.new.live ≡ self.old.live) × (self.new.in_second ≡ self.old.in_second)
            × (self.new.generation ≡ self.old.generation) }
        ensures due { OnErr result (self.new.is_torn ≡ true) }
        ensures ready { OnOk result (self.new.is_torn ≡ self.old.is_torn) }
        ensures done { OnOk result ((file head : List ℕ) → header.now ≡ head ++ 0 ∷ []
            → RestsAs D.seen D.tells_crashes D.may_leave self.old.spare file
            → RestsAs D.seen D.tells_crashes D.may_leave self.new.spare (head ++ 1 ∷ entry.now)) }
        ensures fault { OnErr result ((file head : List ℕ) → header.now ≡ head ++ 0 ∷ []
            → RestsAs D.seen D.tells_crashes D.may_leave self.old.spare file
            → StandsIn D.seen D.tells_crashes D.may_leave self.new.spare
            (IsRewritten file head entry.now)) }
        ensures any_moment { (file head : List ℕ) → header.now ≡ head ++ 0 ∷ []
            → RestsAs D.seen D.tells_crashes D.may_leave self.old.spare file
            → IsTrue (D.tells_crashes self.old.spare)
            → LeavesOnly D.moment D.left_since self.old.spare self.new.spare
            (IsRewritten file head entry.now) }
        ensures reach { D.reach self.new.spare
            ≤ max (D.reach self.old.spare) (33 + length entry.now) }
        ensures cause { HasCause (D.failures self.old.spare) (D.failures self.new.spare) result }
        ensures tells { D.tells_crashes self.new.spare ≡ D.tells_crashes self.old.spare }
        ensures unfailing { D.unfailing_to self.new.spare ≡ D.unfailing_to self.old.spare }
    {
        let written = write_anew(&mut self.spare, header, entry);
        if written.is_err() {
            self.is_torn = true;
        }
        written
    }

    // Takes the other file for the half in use.
    fn turn(&mut self, generation: u64, gate: u64)
        requires generation { generation < 3 }
        requires gate { gate + 1 < 2 ^ 64 }
        requires ready { repair_due self.old ≡ false }
        ensures disks { (self.new.live.device ≡ self.old.spare)
            × (self.new.spare ≡ self.old.live.device) }
        ensures numbers { (self.new.live.gate ≡ gate) × (self.new.live.limit ≡ self.old.live.limit)
            × (self.new.generation ≡ generation) }
        ensures place { self.new.in_second ≡ not self.old.in_second }
        ensures ready { (self.new.is_torn ≡ false) × (self.new.live.is_torn ≡ false) }
    {
        self.live.exchange(&mut self.spare, gate);
        self.in_second = !self.in_second;
        self.generation = generation;
    }

    /// Undoes what a disk fault left of a change or of a checkpoint. Until it answers Ok a repair is due. It takes no
    /// memory.
    pub fn repair(&mut self) -> Result<(), Failed>
        ensures mended { OnOk result ((shown other : Image) → MayShow self.old shown other
            → Holds self.new shown) }

        // A crash at any moment leaves the one image or the other.
        ensures any_moment { (shown other : Image) → MayShow self.old shown other
            → Tell D.Disk (disks self.old)
            → Throughout D.Disk (disks self.old) (disks self.new) (ShowsEither shown other) }
        ensures fault { OnErr result ((shown other : Image) → MayShow self.old shown other
            → MayShow self.new shown other) }
        ensures idle { repair_due self.old ≡ false → (result ≡ Ok tt) × (self.new ≡ self.old) }
        ensures due { OnErr result (repair_due self.new ≡ true) }
        ensures ready { OnOk result (repair_due self.new ≡ false) }
        ensures same { (size_of self.new ≡ size_of self.old)
            × (limit_of self.new ≡ limit_of self.old) × NoWider self.old self.new }
        ensures keeps { Keeps D.Disk (disks self.old) (disks self.new) (bounds self.old) }
        ensures cause { HasCause (fault_count D.Disk (disks self.old))
            (fault_count D.Disk (disks self.new)) result }

        // The records stay, whichever file a repair is due of.
        ensures records { OnOk result ((front : List ℕ) (entries : List Entry) (shown : Image)
            (task : Task) → IsPartDone self.old front entries shown task
            → IsSettled D.seen D.tells_crashes D.may_leave self.new.live front entries) }
        ensures torn { OnErr result ((front : List ℕ) (entries : List Entry) (shown : Image)
            (task : Task) → IsPartDone self.old front entries shown task
            → IsPartDone self.new front entries shown task) }
        ensures left { (front : List ℕ) (entries : List Entry) (shown : Image) (task : Task)
            → IsPartDone self.old front entries shown task → Tell D.Disk (disks self.old)
            → Throughout D.Disk (disks self.old) (disks self.new)
            (StandFor self.old.in_second front task) }
    {
        if self.is_torn {
            self.empty_spare()
        } else if self.live.needs_repair() {
            self.live.repair()
        } else {
            Ok(())
        }
    }

    // Empties the other file.
    fn empty_spare(&mut self) -> Result<(), Failed>
        requires { self.old.is_torn ≡ true }
        ensures moves { (self.new.live ≡ self.old.live) × (self.new.in_second ≡ self.old.in_second)
            × (self.new.generation ≡ self.old.generation) }
        ensures mended { OnOk result (self.new.is_torn ≡ false) }
        ensures due { OnErr result (self.new.is_torn ≡ true) }
        ensures rests { OnOk result (Comes D.seen D.tells_crashes D.may_leave self.old.spare
            self.new.spare (λ file. take 0 file)) }
        ensures partial { Becomes (Cut 0) (D.seen self.old.spare) (D.seen self.new.spare) }
        ensures crash { Follows (Cut 0) (D.may_leave self.old.spare) (D.may_leave self.new.spare) }
        ensures any_moment { LeavesOnly D.moment D.left_since self.old.spare self.new.spare
            (AfterStep (Cut 0) (D.may_leave self.old.spare)) }
        ensures reach { D.reach self.new.spare ≡ max (D.reach self.old.spare) 0 }
        ensures cause { HasCause (D.failures self.old.spare) (D.failures self.new.spare) result }
        ensures tells { D.tells_crashes self.new.spare ≡ D.tells_crashes self.old.spare }
        ensures unfailing { D.unfailing_to self.new.spare ≡ D.unfailing_to self.old.spare }
    {
        cut_durably(&mut self.spare, 0)?;
        self.is_torn = false;
        Ok(())
    }

    /// The frames of the open records of the half in use, in order: the revision of each in 8 bytes, low byte first, and the
    /// record as it stands behind its gate. The `C` has the revision of its image, each other record the one after its change.
    pub fn feed(&mut self, alloc: Global) -> Result<Bytes, StoreFault>
        requires { repair_due self.old ≡ false }
        ensures frames { IfOk result (λ frames. (shown : Image) (held : Holds self.old shown)
            → frames ≡ frames_of (held.front ++ 0 ∷ [])) }
        ensures held { (shown : Image) → Holds self.old shown → Holds self.new shown }
        ensures any_moment { (shown : Image) → Holds self.old shown → Tell D.Disk (disks self.old)
            → Throughout D.Disk (disks self.old) (disks self.new) (Shows shown) }
        ensures cause { IfErr result (λ e.
            ReadRefused (fault_count D.Disk (disks self.old)) (fault_count D.Disk (disks self.new))
            e) }
        ensures ready { repair_due self.new ≡ false }
        ensures same { (size_of self.new ≡ size_of self.old)
            × (limit_of self.new ≡ limit_of self.old) × NoWider self.old self.new }
        ensures keeps { Keeps D.Disk (disks self.old) (disks self.new) (0, 0) }
        ensures no_fault { OnOk result (fault_count D.Disk (disks self.new)
            ≡ fault_count D.Disk (disks self.old)) }

        // Both files stay, also after a disk fault and at any moment.
        ensures records { D.seen self.new.live.device ≡ D.seen self.old.live.device }
        ensures left { (shown : Image) (held : Holds self.old shown) → Tell D.Disk (disks self.old)
            → Throughout D.Disk (disks self.old) (disks self.new)
            (Stand self.old.in_second (λ file. file ≡ held.front ++ 0 ∷ [])
            (λ file. file ≡ held.beside)) }
    {
        let file = self.live.read_whole(alloc)?;
        let frames = frames_of(alloc, file.as_slice())?;
        Ok(Bytes::from_vec(frames))
    }

    /// Whether a change of so many bytes, as a record, would pass the limit, or the half in use is longer than twice the
    /// length of one that holds the image alone and 65536 bytes. It takes no memory.
    pub fn due(&self, change: u64, whole: u64) -> bool
        ensures { IsTrue result ↔ ((limit_of self.now < size_of self.now + change) ⊎ (2 * whole
            + 65536 < size_of self.now)) }
    {
        let size = self.live.size();
        size > self.live.limit()
            || change > self.live.limit() - size
            || size > whole.saturating_mul(2).saturating_add(65536)
    }

    /// Whether a disk fault came since the last repair. It takes no memory.
    pub fn needs_repair(&self) -> bool
        ensures { result ≡ repair_due self.now }
    {
        self.is_torn || self.live.needs_repair()
    }

    /// The length of the half in use, in bytes. It takes no memory.
    pub fn size(&self) -> u64
        ensures { result ≡ size_of self.now }
    {
        self.live.size()
    }

    /// How many bytes each file may have. It takes no memory.
    pub fn limit(&self) -> u64
        ensures { result ≡ limit_of self.now }
    {
        self.live.limit()
    }

    /// How many calls of the two disks failed. It takes no memory.
    pub fn faults(&self) -> u64
        ensures { result ≡ fault_count D.Disk (disks self.now) }
    {
        self.live.faults().saturating_add(self.spare.faults())
    }

    /// Gives both disks back, the first and the second.
    pub fn close(self) -> (D, D)
        ensures { result ≡ disks self }
    {
        if self.in_second {
            (self.spare, self.live.into_device())
        } else {
            (self.live.into_device(), self.spare)
        }
    }
}
