//! What replicas have of a store whose records go on.
ghost use Rattle.std.specs.Prelude.{◌≡◌, ◌⊎◌, ◌∷◌, [], ◌++◌, ◌^◌, ◌<◌, ℕ, List, Result, Some, length};
ghost use Rattle.text_store.specs.declared.change.Change.{Change};
ghost use Rattle.text_store.specs.declared.image.Image.{Image};
ghost use Rattle.text_store.specs.Changes.{kind_of, payload_of};
ghost use Rattle.text_store.specs.Entries.{Entry, body};
ghost use Rattle.text_store.specs.Frames.{frame, frames_of};
ghost use Rattle.text_store.specs.Halves.{IsHalf};
ghost use Rattle.text_store.specs.Rest.{IsAt};
ghost use Rattle.follower.specs.declared.fault.Accepted.{Accepted};
ghost use Rattle.follower.specs.declared.fault.FollowFault.{FollowFault};
ghost use Rattle.follower.specs.declared.frame.Frame.{Frame};
ghost use Rattle.follower.specs.Histories.{LeadTo};
ghost use Rattle.follower.specs.Images.{snapshot};
ghost use Rattle.follow_commands.specs.Genuine.{AreOfOne, LeadsOn};
ghost use Rattle.replica_laws.specs.Lives.{AreFed, AreMade, AreStepsFed, Event, GoesOn, HasFedFrames, IsFed, IsOfPrefix, Records, changes_in, revision_behind};

/// Frames of any feeds, taken at any moments of a store's life and in any order, are frames of one history: that of its opening image
/// and of the edits that it accepted, an edit that a crash or a disk fault left in it among them.
pub fn feeds_are_genuine()
    ensures { (opening : Records) (events : List Event) (frames : List Frame)
        → AreMade opening → AreFed opening events frames
        → AreOfOne opening.start (changes_in opening events) frames }
{}

/// A replica that is made of the `C` of a feed has the image after a prefix of the accepted edits.
pub fn replicas_begin()
    ensures { (opening : Records) (events : List Event) (frame : Frame) (shown : Image)
        → AreMade opening → IsFed opening events frame → frame.kind ≡ 67
        → snapshot frame ≡ Some shown
        → (n : ℕ) × IsOfPrefix opening events n shown }
{}

/// A replica that has the image after a prefix of the accepted edits, and accepts frames of any feeds, missing ones, repeated ones and in
/// any order, has one after a prefix that isn't shorter; its revision doesn't fall. Each step is as `Follower::accept` answers.
pub fn replicas_go_on()
    ensures { (opening : Records) (events : List Event) (n : ℕ) (shown end : Image)
        (steps : List (Frame × Result Accepted FollowFault))
        → AreMade opening → AreStepsFed opening events steps
        → IsOfPrefix opening events n shown → LeadTo shown steps end
        → GoesOn opening events n shown end }
{}

/// The same of a replica that follows a source, as `follow_source` does, whose bytes are frames of any feeds, cut into reads in any way
/// and ended between two frames or inside one.
pub fn fed_sources_lead_on()
    ensures { (opening : Records) (events : List Event) (n : ℕ) (shown end : Image)
        (bytes : List ℕ) → AreMade opening → HasFedFrames opening events bytes
        → IsOfPrefix opening events n shown → LeadsOn (Some bytes) shown end
        → GoesOn opening events n shown end }
{}

/// Whatever a crash leaves of a half in use while a change is put behind its records: it feeds the frames that it fed before, or these
/// and that of the change.
pub fn crashes_leave_either()
    ensures { (front left : List ℕ) (entries : List Entry) (change : Change)
        → IsHalf front entries → length (payload_of change) < 2 ^ 64
        → IsAt front (body (kind_of change) (payload_of change) ++ 0 ∷ []) left
        → (frames_of left ≡ frames_of (front ++ 0 ∷ []))
        ⊎ (frames_of left ≡ frames_of (front ++ 0 ∷ [])
        ++ frame (revision_behind front entries) (kind_of change) (payload_of change)) }
{}
