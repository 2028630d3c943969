//! The edits that a legal history accepted, and what a replica that follows them has.
ghost use Rattle.std.specs.Prelude.{◌≡◌, ℕ, List};
ghost use Rattle.text_store.specs.declared.change.Change.{Change};
ghost use Rattle.text_store.specs.declared.image.Image.{Image};
ghost use Rattle.turn_lock.specs.declared.known.Entered.{Entered};
ghost use Rattle.desk.specs.Desks.{shown_by};
ghost use Rattle.desk.specs.Entries.{Entry};
ghost use Rattle.desk.specs.declared.desk.Desk.{Desk};
ghost use Rattle.shared_desk.specs.Histories.{IsLegal};
ghost use Rattle.replica_laws.specs.Lives.{Event, GoesOn, Records, changes_in};
ghost use Rattle.desk_replicas.specs.Edits.{HasEdits, IsAPlace};

use hl_base::Disk;

/// In a legal history there are edits that lead from the image of its opening to that of its last state. The image after the first so many
/// of them, any number, is that of the service at a place of the history.
pub fn history_has_edits<D: Disk>()
    ensures { (opening last : Desk D D.Disk) (history : List (Entered Entry))
        → IsLegal opening history last
        → (edits : List Change) × HasEdits opening history last edits }
{}

/// A replica of a store whose accepted edits are those of a legal history has the text, the import states and the revision of the service
/// at a place of that history, whatever feeds it followed.
pub fn replicas_show_a_place<D: Disk>()
    ensures { (opening last : Desk D D.Disk) (history : List (Entered Entry))
        (edits : List Change) (records : Records) (events : List Event) (n : ℕ)
        (shown end : Image) → HasEdits opening history last edits
        → records.start ≡ shown_by opening → changes_in records events ≡ edits
        → GoesOn records events n shown end → IsAPlace opening history end }
{}
