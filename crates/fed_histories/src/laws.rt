//! What is fed and followed.
ghost use Rattle.std.specs.Prelude.{◌^◌, ◌≤◌, List, ℕ};
ghost use Rattle.store_feeding.specs.Feeding.{AreFed};
ghost use Rattle.fed_histories.specs.Feeds.{AreOfHistory, IsFollowed};

use hl_base::{Shelf, Source};

/// The frames of two files, as `feed_disks` gives them, are all frames of one history, in their order: the `C` of its first image, and
/// then the record of each change. The last image is that of the two files, where its revision is at most 2^62, as of each store
/// that the machine keeps.
pub fn fed_frames_are_genuine(frames: &[u8])
    ensures { (first second : List ℕ) (fed : AreFed first second frames.now)
        → fed.shown.revision ≤ 2 ^ 62 → AreOfHistory frames.now fed.shown }
{}

/// `feed` and `follow`: where what a store feeds is followed, as `feed_store` and `follow_store` do, by a replica that is new, or that
/// has an image of the history that was fed, or one from before it, the replica has the store's image at Ok.
pub fn fed_stores_are_followed<J: Source, F: Shelf, S: Shelf>(frames: &[u8])
    ensures { IsFollowed J.Source F.Shelf F.Disk.Disk S.Shelf S.Disk.Disk frames.now }
{}
