//! A follower: a store of its own, and the image that this holds.
ghost use Rattle.std.specs.Prelude.{◌≡◌, ◌+◌, length};
ghost use Rattle.std.proofs.Props.{props};
ghost use Rattle.text_store.specs.Files.{IsWritable};
ghost use Rattle.follower.specs.Shortness.{HaveShortNames-prop};

use crate::fault::{Accepted, FollowFault};
use crate::frame::Frame;
use crate::keep::{is_due, is_past, keep_change, keep_image, refusal_of};
use crate::preparing::{Prepared, prepare, snapshot_of};
use crate::standing::{Standing, standing_of};
use hl_base::Disk;
use std::alloc::Global;
use text_store::{Image, Store, StoreFault};

// The length of a frame's record with its gate.
fn record_size(frame: &Frame) -> u64
    ensures { result ≡ 10 + length frame.now.payload }
{
    10 + frame.payload.as_slice().len() as u64
}

// The length of a half that holds the image of a `C` alone: a header, two gates, and the record.
fn half_size(frame: &Frame) -> u64
    ensures { result ≡ 43 + length frame.now.payload }
{
    43 + frame.payload.as_slice().len() as u64
}

/// A store that follows another one by its frames: its text, its import states and its revision are those of the other after some
/// of its changes.
#[derive(Drop)]
pub struct Follower<D: Disk> {
    store: Store<D>,
    image: Image,
    ghost writable: { IsWritable image } by { Prim.hlevel (props, HaveShortNames-prop) },
}

impl<D: Disk> Follower<D> {
    ghost use Rattle.std.specs.Prelude.{◌≡◌, ◌+◌, ◌-◌, ◌^◌, ◌<◌, ◌≤◌, [], max, length, Some, None, IfOk, IfErr};
    ghost use Rattle.text_store.specs.Edits.{whole_size};
    ghost use Rattle.text_store.specs.Files.{WhileMade, WhileOpened, opened_limit};
    ghost use Rattle.text_store.specs.Image as files;
    ghost use Rattle.text_store.specs.Refusals.{Told};
    ghost use Rattle.text_store.specs.Stores.{bounds, disks, fault_count, size_of, limit_of, Tell, Throughout, Keeps};
    ghost use Rattle.follower.specs.Accepting.{Accepts, HasNoRoom, IsUnmade, MakingRefused, OpeningRefused, disks_of};
    ghost use Rattle.follower.specs.Histories.{Becomes};
    ghost use Rattle.follower.specs.Images.{snapshot};
    ghost use Rattle.follower.specs.Prepared.{IsReady};
    ghost use Rattle.follower.specs.Standings.{IsNext};
    ghost use Rattle.follower.specs.Stands.{Stands};

    /// Makes a follower of the frame of a `C` in two empty files, with a limit of each file's length in bytes.
    pub fn create(
        alloc: Global,
        first: D,
        second: D,
        frame: &Frame,
        limit: u64,
    ) -> Result<Follower<D>, (D, D, FollowFault)>
        ensures made { IfOk result (λ made. (frame.now.kind ≡ 67)
            × (snapshot frame.now ≡ Some made.image)
            × Told D.Disk (first, second) (λ f s. (f ≡ []) × (s ≡ [])
            × Stands made.store made.image None)) }
        ensures numbers { IfOk result (λ made. (size_of made.store ≡ whole_size made.image)
            × (limit_of made.store ≡ limit)) }
        ensures cause { IfErr result (λ e.
            MakingRefused D.Disk (first, second) (e.0, e.1) frame.now limit e.2) }

        // A crash at any moment leaves files that it might have left before, files without an image, or the frame's.
        ensures any_moment { Told D.Disk (first, second) (λ _ _. Tell D.Disk (first, second)
            → (shown : Image) → snapshot frame.now ≡ Some shown
            → Throughout D.Disk (first, second) (disks_of result)
            (WhileMade D.Disk (first, second) shown)) }
        ensures keeps { Keeps D.Disk (first, second) (disks_of result) (limit, limit) }
    {
        if frame.kind != b'C' {
            let kind = frame.kind;
            return Err((first, second, FollowFault::NotASnapshot { kind }));
        }
        let revision = frame.revision;
        match snapshot_of(alloc, frame) {
            Err(_) => Err((first, second, FollowFault::Memory)),
            Ok(found) => match found {
                None => Err((first, second, FollowFault::BadPayload { revision })),
                Some(image) => Follower::create_of(alloc, first, second, image, limit),
            },
        }
    }

    /// Opens two files as a follower.
    pub fn open(alloc: Global, first: D, second: D) -> Result<Follower<D>, (D, D, FollowFault)>
        ensures opened { IfOk result (λ opened.
            Told D.Disk (first, second) (λ f s. (files.image f s ≡ Ok opened.image)
            × Stands opened.store opened.image None
            × (limit_of opened.store ≡ opened_limit f s))) }
        ensures cause { IfErr result (λ e. OpeningRefused D.Disk (first, second) (e.0, e.1) e.2) }

        // A crash at any moment leaves files that it might have left before, or files with the image, or the want of one, of
        // those that the disks read as, which it might have left before.
        ensures any_moment { Told D.Disk (first, second) (λ f s. Tell D.Disk (first, second)
            → Throughout D.Disk (first, second) (disks_of result)
            (WhileOpened D.Disk (first, second) f s)) }
        ensures keeps { Told D.Disk (first, second) (λ f s.
            Keeps D.Disk (first, second) (disks_of result)
            (max (opened_limit f s) (length f), max (opened_limit f s) (length s))) }

        // No call since reaches further than the limit, or than the length that the file had.
        ensures bounds { IfOk result (λ opened.
            Told D.Disk (first, second) (λ f s.
            ((bounds opened.store).0 ≤ max (limit_of opened.store) (length f))
            × ((bounds opened.store).1 ≤ max (limit_of opened.store) (length s)))) }
        ensures no_fault { IfOk result (λ opened.
            fault_count D.Disk (disks opened.store) ≡ fault_count D.Disk (first, second)) }
    {
        match Store::open(alloc, first, second) {
            Ok((store, image)) => Ok(Follower { store, image }),
            Err((first, second, fault)) => Err((first, second, refusal_of(fault))),
        }
    }

    /// Takes a frame where it is the next one: a `C` of a later revision, or another record of the revision after the follower's. A due
    /// repair comes first.
    pub fn accept(&mut self, alloc: Global, frame: &Frame) -> Result<Accepted, FollowFault>
        ensures accepts { Accepts self.old frame.now result self.new }
        ensures leads { Becomes self.old.image frame.now result self.new.image }
    {
        self.take(alloc, frame)
    }

    // Takes a frame where it is the next one.
    fn take(&mut self, alloc: Global, frame: &Frame) -> Result<Accepted, FollowFault>
        ensures { Accepts self.old frame.now result self.new }
    {
        let had = self.image.revision;
        let got = frame.revision;
        match standing_of(had, frame) {
            Standing::Old => Ok(Accepted::Old { had, got }),
            Standing::Gap => Ok(Accepted::Gap { had, got }),
            Standing::Next => self.take_next(alloc, frame),
        }
    }

    // Takes the next frame.
    fn take_next(&mut self, alloc: Global, frame: &Frame) -> Result<Accepted, FollowFault>
        requires { IsNext self.old.image.revision frame.now }
        ensures { Accepts self.old frame.now result self.new }
    {
        if frame.kind == b'C' {
            return self.take_snapshot(alloc, frame);
        }
        self.take_change(alloc, frame)
    }

    // Makes a follower of an image in two empty files.
    fn create_of(
        alloc: Global,
        first: D,
        second: D,
        shown: Image,
        limit: u64,
    ) -> Result<Follower<D>, (D, D, FollowFault)>
        requires writable { IsWritable shown }
        requires revision { shown.revision ≤ 2 ^ 62 }
        ensures image { IfOk result (λ made. made.image ≡ shown) }
        ensures made { IfOk result (λ made.
            Told D.Disk (first, second) (λ f s. (f ≡ []) × (s ≡ [])
            × Stands made.store shown None)) }
        ensures numbers { IfOk result (λ made. (size_of made.store ≡ whole_size shown)
            × (limit_of made.store ≡ limit)) }
        ensures cause { IfErr result (λ e.
            IsUnmade D.Disk (first, second) (e.0, e.1) (whole_size shown) limit e.2) }
        ensures any_moment { Told D.Disk (first, second) (λ _ _. Tell D.Disk (first, second)
            → Throughout D.Disk (first, second) (disks_of result)
            (WhileMade D.Disk (first, second) shown)) }
        ensures keeps { Keeps D.Disk (first, second) (disks_of result) (limit, limit) }
    {
        match Store::create_image(alloc, first, second, &shown, limit) {
            Ok(store) => Ok(Follower {
                store,
                image: shown,
            }),
            Err((first, second, fault)) => Err((first, second, refusal_of(fault))),
        }
    }

    // Takes a `C` of a later revision.
    fn take_snapshot(&mut self, alloc: Global, frame: &Frame) -> Result<Accepted, FollowFault>
        requires kind { frame.now.kind ≡ 67 }
        requires later { self.old.image.revision < frame.now.revision }
        ensures { Accepts self.old frame.now result self.new }
    {
        let revision = frame.revision;
        let Some(image) = snapshot_of(alloc, frame)? else {
            return Err(FollowFault::BadPayload { revision });
        };
        let size = half_size(frame);
        let limit = self.store.limit();
        if size > limit {
            return Err(FollowFault::Store(StoreFault::Full { size, limit }));
        }
        keep_image(&mut self.store, alloc, &image)?;
        self.image = image;
        Ok(Accepted::Taken { revision })
    }

    // Takes the record of the next change.
    fn take_change(&mut self, alloc: Global, frame: &Frame) -> Result<Accepted, FollowFault>
        requires kind { frame.now.kind ≡ 67 → ⊥ }
        requires next { frame.now.revision ≡ self.old.image.revision + 1 }
        ensures { Accepts self.old frame.now result self.new }
    {
        let revision = frame.revision;
        let Some(prepared) = prepare(alloc, &self.image, frame)? else {
            return Err(FollowFault::BadPayload { revision });
        };
        let size = record_size(frame);
        if let Some(fault) = self.no_room(size) {
            return Err(FollowFault::Store(fault));
        }
        self.take_prepared(alloc, frame, prepared, size)
    }

    // Stores the change of a frame, for which there is room, as a record of so many bytes.
    fn take_prepared(
        &mut self,
        alloc: Global,
        frame: &Frame,
        prepared: Prepared,
        size: u64,
    ) -> Result<Accepted, FollowFault>
        requires kind { frame.now.kind ≡ 67 → ⊥ }
        requires next { frame.now.revision ≡ self.old.image.revision + 1 }
        requires ready { IsReady self.old.image frame.now prepared }
        requires record_size { size ≡ 10 + length frame.now.payload }
        requires room { HasNoRoom self.old size None }
        ensures { Accepts self.old frame.now result self.new }
    {
        let revision = frame.revision;
        keep_change(&mut self.store, alloc, &mut self.image, prepared, size)?;
        Ok(Accepted::Taken { revision })
    }

    // Why there is no room for a record of so many bytes, if there is none.
    fn no_room(&self, size: u64) -> Option<StoreFault>
        requires { 0 < size }
        ensures { HasNoRoom self.now size result }
    {
        if !is_due(&self.store, &self.image, size) {
            return None;
        }
        let whole = self.image.size();
        let limit = self.store.limit();
        if is_past(whole, size, limit) {
            let size = whole.saturating_add(size);
            return Some(StoreFault::Full { size, limit });
        }
        None
    }

    /// The image that the follower holds.
    pub fn image(&self) -> &Image
        ensures { result.now ≡ self.now.image }
    {
        &self.image
    }

    /// Gives both disks back, the first and the second.
    pub fn close(self) -> (D, D)
        ensures { result ≡ disks self.store }
    {
        let Follower { store, image: _ } = self;
        store.close()
    }
}
