//! The items of a text, each read in the filter of the items before it.
ghost use Rattle.std.specs.Prelude.{◌≡◌, ℕ, List, Option, Ok, Err};
ghost use Rattle.book.specs.declared.fault.Fault.{Fault};
ghost use Rattle.book.specs.declared.item.Placed.{Placed};
ghost use Rattle.context_laws.specs.Places.{AreRead, IsUnread};
ghost use Rattle.journal_reader.specs.Items.{items_in};

/// Laws for callers; it does nothing. A text has these items exactly where its pieces are theirs and each item is what its
/// piece reads as, in the context that filters the items before it (`read`, `items`). It has this fault exactly where some
/// first pieces read so, and the next one has this fault in the context that filters them (`unread`, `fault`).
pub fn items_are_read_in_filters()
    ensures read { (year : Option ℕ) (text : List ℕ) (placed : List Placed)
        → items_in year text ≡ Ok placed → AreRead year text placed }
    ensures items { (year : Option ℕ) (text : List ℕ) (placed : List Placed)
        → AreRead year text placed → items_in year text ≡ Ok placed }
    ensures unread { (year : Option ℕ) (text : List ℕ) (fault : Fault)
        → items_in year text ≡ Err fault → IsUnread year text fault }
    ensures fault { (year : Option ℕ) (text : List ℕ) (fault : Fault)
        → IsUnread year text fault → items_in year text ≡ Err fault }
{}
