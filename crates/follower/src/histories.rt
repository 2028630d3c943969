//! What a follower of one history has.
ghost use Rattle.std.specs.Prelude.{◌≡◌, ℕ, ◌+◌, ◌≤◌, List, Result, Some};
ghost use Rattle.text_store.specs.declared.change.Change.{Change};
ghost use Rattle.text_store.specs.declared.image.Image.{Image};
ghost use Rattle.follower.specs.declared.fault.Accepted.{Accepted};
ghost use Rattle.follower.specs.declared.fault.FollowFault.{FollowFault};
ghost use Rattle.follower.specs.declared.frame.Frame.{Frame};
ghost use Rattle.follower.specs.Crashes.{CrashesShowOne};
ghost use Rattle.follower.specs.Histories.{AreGenuine, IsAfter, IsGenuine, LeadTo};
ghost use Rattle.follower.specs.Images.{snapshot};

use hl_base::Disk;

/// Over any frames of one history, missing ones, repeated ones and in any order, a follower that begins with an image of it has one
/// that isn't earlier: its text, its import states and its revision are those after the first so many changes, as many as its revision
/// says, and its revision never falls. Each step is as `Follower::accept` answers.
pub fn genuine_frames_lead_on()
    ensures { (start : Image) (changes : List Change) (n : ℕ) (shown end : Image)
        (steps : List (Frame × Result Accepted FollowFault))
        → IsAfter start n changes shown → AreGenuine start changes steps → LeadTo shown steps end
        → (m : ℕ) × (n ≤ m) × (end.revision ≡ start.revision + m) × (shown.revision ≤ end.revision)
        × IsAfter start m changes end }
{}

/// The `C` of a history gives an image of it, with which a follower begins.
pub fn genuine_snapshots_begin()
    ensures { (start : Image) (changes : List Change) (frame : Frame) (shown : Image)
        → IsGenuine start changes frame → frame.kind ≡ 67 → snapshot frame ≡ Some shown → (n : ℕ)
        × IsAfter start n changes shown }
{}

/// Whatever frames a follower has accepted since it was made or opened, a crash at any moment of the next `Follower::accept` leaves its
/// image, that with this frame, or its image with one frame that was refused for a disk fault since the last one that was taken.
pub fn crashes_show_one_image<D: Disk>()
    ensures { CrashesShowOne D.Disk }
{}
