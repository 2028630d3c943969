//! What doesn't look at lines, and which ends can move.
ghost use Rattle.std.specs.Prelude.{◌≡◌, ℕ, ◌+◌, ◌^◌, ◌<◌, List, Option, length, set};
ghost use Rattle.hl_base.specs.declared.items.Piece.{Piece};
ghost use Rattle.book.specs.declared.item.Placed.{Placed};
ghost use Rattle.book.specs.declared.transaction.Txn.{Txn};
ghost use Rattle.moved_lines.specs.Moving.{moved_from, moved_items_from};
ghost use Rattle.moved_lines.specs.declared.shift.Offset.{Offset};
ghost use Rattle.moved_lines.specs.declared.shift.Shift.{Shift};
ghost use Rattle.text_ends.specs.Ends.{end_of};
ghost use Rattle.changed_texts.specs.Changing.{items_with};
ghost use Rattle.changed_texts.specs.Replacing.{IsEntryOf, offset_of};
ghost use Rattle.changed_texts.specs.declared.change.Change.{Change};
ghost use Rattle.kept_texts.specs.Keeping.{IsWith};
ghost use Rattle.kept_texts.specs.Moving.{CanMoveEnd};
ghost use Rattle.kept_texts.specs.declared.edited.Edited.{Edited};

/// Laws for callers; it does nothing. What an edit makes of what is kept doesn't look at the lines of items (`items`) or of the
/// book (`book`): they may be moved. So what it makes of an item in the place of another is that of the changed text
/// (`changed`).
pub fn no_line_is_looked_at()
    ensures items { (items : List Placed) (book : List Txn) (edited : Edited) (n : ℕ) (by : Offset)
        → IsWith items book edited → IsWith (moved_items_from n by items) book edited }
    ensures book { (items : List Placed) (book : List Txn) (edited : Edited) (t : ℕ) (by : Shift)
        → IsWith items book edited → IsWith items (moved_from t by book) edited }
    ensures changed { (items : List Placed) (book : List Txn) (edited : Edited) (n t : ℕ)
        (change : Change)
        → n < length items → IsWith (set items n change.placed) book edited
        → IsWith (items_with n items change) (moved_from t change.by.lines book) edited }
{}

/// Laws for callers; it does nothing. The numbers of lines and bytes that are kept of a text's end can move as far as an entry
/// moves them in whose place other bytes stand.
pub fn a_changed_end_can_move()
    ensures { (year : Option ℕ) (text bytes : List ℕ) (items : List Placed) (n : ℕ) (p : Piece)
        → IsEntryOf text n p → length text + length bytes + 1 < 2 ^ 64
        → CanMoveEnd (offset_of text p bytes) (end_of year text items) }
{}
