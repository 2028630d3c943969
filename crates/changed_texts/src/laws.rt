//! What becomes of a text, and of what it says, when the bytes of one of its entries are changed.
ghost use Rattle.std.specs.Prelude.{◌≡◌, ℕ, suc, false, [], ◌++◌, ◌+◌, ◌-◌, ◌^◌, ◌<◌, ◌≤◌, List, Option, Some, Ok, IfOk, IsSomeAnd, length, map, take, drop, set, slice_get};
ghost use Rattle.std.specs.List.{AllByRecursion};
ghost use Rattle.hl_base.specs.Items.{items_of};
ghost use Rattle.hl_base.specs.declared.items.Piece.{Piece};
ghost use Rattle.book.specs.Postings.{txns_of};
ghost use Rattle.book.specs.declared.item.Item.TheVariants as item;
ghost use Rattle.book.specs.declared.item.Placed.{Placed};
ghost use Rattle.book.specs.declared.transaction.Txn.{Txn};
ghost use Rattle.balancing.specs.Solves.{Solves};
ghost use Rattle.entry_reader.specs.Contexts.{Context};
ghost use Rattle.journal_reader.specs.Items.{items_in, reading};
ghost use Rattle.moved_lines.specs.Moving.{CanMovePiece, CanMovePlaced, CanMoveTxn, back_offset, moved_from, moved_item, moved_number, moved_placed, moved_txn};
ghost use Rattle.moved_lines.specs.declared.shift.Offset.{Offset};
ghost use Rattle.moved_lines.specs.declared.shift.Shift.{Shift};
ghost use Rattle.text_ends.specs.Ends.{items_at};
ghost use Rattle.changed_texts.specs.LinesOf.{EachLine, IsNear, relined_read};
ghost use Rattle.changed_texts.specs.Meeting as gaps;
ghost use Rattle.changed_texts.specs.OneEntry.{IsMet, items_met};
ghost use Rattle.changed_texts.specs.declared.met.Met.{Met};
ghost use Rattle.changed_texts.specs.Replacing as spec;

/// Laws for callers; it does nothing. Where the bytes of an entry of a text are replaced by those of one other entry and
/// nothing else, the new text is cut into the old pieces with that one replaced and all later ones moved (`cut`). It reads
/// as the old items with that one replaced, and all later ones and their lines moved, or has the fault of the bytes
/// (`read`). What the bytes say is a transaction (`txn`). Of bytes with gaps before or behind their entry nothing is said
/// here: these become one with the gaps around it.
pub fn an_entry_is_changed()
    ensures cut { (text bytes : List ℕ) (n : ℕ) (p : Piece)
        → spec.IsEntryOf text n p → spec.IsEntry bytes
        → items_of (spec.replaced text p bytes) ≡ spec.changed_pieces text n p bytes }
    ensures read { (year : Option ℕ) (text bytes : List ℕ) (items : List Placed) (n : ℕ) (p : Piece)
        → spec.IsEntryOf text n p → spec.IsEntry bytes → items_in year text ≡ Ok items
        → items_in year (spec.replaced text p bytes) ≡ spec.read_anew year text items n p bytes }
    ensures txn { (year : Option ℕ) (items : List Placed) (n : ℕ) (p : Piece) (bytes : List ℕ)
        → spec.IsEntry bytes → IfOk (spec.said_there year items n p bytes) spec.IsTxn }
{}

/// Laws for callers; it does nothing. Where an entry is taken out of a text and doesn't stand between two gaps, the new text
/// is cut into the old pieces without it, all later ones moved (`cut`), and reads as the old items without it, all later ones
/// and their lines moved (`read`). Of two gaps around it one is left.
pub fn an_entry_is_taken_out()
    ensures cut { (text : List ℕ) (n : ℕ) (p : Piece)
        → spec.IsEntryOf text n p → spec.is_between_gaps n (items_of text) ≡ false
        → items_of (spec.replaced text p []) ≡ spec.left_pieces text n p }
    ensures read { (year : Option ℕ) (text : List ℕ) (items : List Placed) (n : ℕ) (p : Piece)
        → spec.IsEntryOf text n p → spec.is_between_gaps n (items_of text) ≡ false
        → items_in year text ≡ Ok items
        → items_in year (spec.replaced text p []) ≡ Ok (spec.left_items text items n p) }
{}

/// Laws for callers; it does nothing. What an entry of a text says is a transaction (`old`). With another one in its place
/// the transactions of the items have that one under its number, and all later ones are moved (`changed`).
pub fn transactions_of_a_change()
    ensures old { (year : Option ℕ) (text : List ℕ) (items : List Placed) (n : ℕ) (p : Piece)
        → spec.IsEntryOf text n p → items_in year text ≡ Ok items
        → IsSomeAnd (slice_get items n) (λ q. (q.piece ≡ p) × spec.IsTxn q.item) }
    ensures changed { (by : Offset) (items : List Placed) (n : ℕ) (old new : Placed) (t u : Txn)
        → slice_get items n ≡ Some old → old.item ≡ item.Txn t → new.item ≡ item.Txn u
        → txns_of (spec.changed_at (moved_placed by) n new items)
        ≡ moved_from (suc (spec.number_at items n)) by.lines
        (set (txns_of items) (spec.number_at items n) u) }
{}

/// Laws for callers; it does nothing. Where any entries and gaps stand in the place of an entry, or nothing, the new text is
/// cut into the old pieces before it, those of the bytes, and the old ones behind it, all moved; but gaps that meet are one
/// (`cut`). Where the bytes read there, the new text reads as the items of all three, of which gaps that meet are one
/// (`read`), and has the transactions of all three (`txns`).
pub fn gaps_that_meet_are_one()
    ensures cut { (text bytes : List ℕ) (n : ℕ) (p : Piece)
        → spec.IsEntryOf text n p → gaps.AreEntries bytes
        → items_of (spec.replaced text p bytes) ≡ gaps.met_pieces text n p bytes }
    ensures read { (year : Option ℕ) (text bytes : List ℕ) (items said : List Placed) (n : ℕ)
        (p : Piece)
        → spec.IsEntryOf text n p → gaps.AreEntries bytes → items_in year text ≡ Ok items
        → gaps.said_behind year (items_at (take n items)) (p.line - 1) bytes ≡ Ok said
        → items_in year (spec.replaced text p bytes)
        ≡ Ok (gaps.met_items text items n p bytes said) }
    ensures txns { (year : Option ℕ) (text bytes : List ℕ) (items said : List Placed) (n : ℕ)
        (p : Piece)
        → items_in year text ≡ Ok items
        → gaps.said_behind year (items_at (take n items)) (p.line - 1) bytes ≡ Ok said
        → txns_of (gaps.met_items text items n p bytes said)
        ≡ txns_of (take n items) ++ (txns_of said
        ++ map (moved_txn (spec.offset_of text p bytes).lines) (txns_of (drop (suc n) items))) }
{}

/// Laws for callers; it does nothing. The same bytes in the same context say the same in other lines, all of them moved, and
/// so is their fault (`reads`). Each line of what bytes say lies between their first line and their end (`lines`).
pub fn other_items_stay()
    ensures reads { (context : Context) (by : Shift) (line : ℕ) (bytes : List ℕ) → by.removed ≤ line
        → reading context (moved_number by line) bytes
        ≡ relined_read (moved_number by) (moved_item by) (reading context line bytes) }
    ensures lines { (context : Context) (line : ℕ) (bytes : List ℕ)
        → IfOk (reading context line bytes) (EachLine (IsNear line (length bytes))) }
{}

/// Laws for callers; it does nothing. What stands behind an entry that is changed can be moved: no number falls below 0 or
/// passes 2^64, of the items (`can`) and of the pieces (`pieces`). Moved back, with the old item in its place, the items are
/// as they were (`back`).
pub fn what_is_behind_can_move()
    ensures can { (year : Option ℕ) (text bytes : List ℕ) (items : List Placed) (n : ℕ) (p : Piece)
        → spec.IsEntryOf text n p → items_in year text ≡ Ok items
        → length text + length bytes + 1 < 2 ^ 64
        → AllByRecursion (CanMovePlaced (spec.offset_of text p bytes)) (drop (suc n) items) }
    ensures pieces { (text bytes : List ℕ) (n : ℕ) (p : Piece)
        → spec.IsEntryOf text n p → length text + length bytes + 1 < 2 ^ 64
        → AllByRecursion (CanMovePiece (spec.offset_of text p bytes))
        (drop (suc n) (items_of text)) }
    ensures back { (by : Offset) (items : List Placed) (n : ℕ) (old new : Placed)
        → slice_get items n ≡ Some old
        → AllByRecursion (CanMovePlaced by) (drop (suc n) items)
        → spec.changed_at (moved_placed (back_offset by)) n old
        (spec.changed_at (moved_placed by) n new items) ≡ items }
{}

/// Laws for callers; it does nothing. With an entry, and gaps around it or none, in the place of the n-th of some items the
/// transactions have that one under its number, and all later ones are moved (`txns`). The pieces of what a text reads as are
/// those that it is cut into (`pieces`).
pub fn an_entry_is_met()
    ensures txns { (items : List Placed) (n : ℕ) (met : Met) (old : Placed) (t u : Txn)
        → IsMet n items met → slice_get items n ≡ Some old → old.item ≡ item.Txn t
        → met.placed.item ≡ item.Txn u
        → txns_of (items_met n items met)
        ≡ moved_from (suc (spec.number_at items n)) met.by.lines
        (set (txns_of items) (spec.number_at items n) u) }
    ensures pieces { (year : Option ℕ) (text : List ℕ) (items : List Placed)
        → items_in year text ≡ Ok items
        → map (λ (q : Placed). q.piece) items ≡ items_of text }
{}

/// Laws for callers; it does nothing. A book that solves the transactions of a text's items, of which that of an entry is
/// exchanged, can be moved behind it as far as the items can.
pub fn a_changed_book_can_move()
    ensures { (items : List Placed) (n : ℕ) (by : Offset) (old : Placed) (t u : Txn)
        (book : List Txn)
        → slice_get items n ≡ Some old → old.item ≡ item.Txn t
        → AllByRecursion (CanMovePlaced by) (drop (suc n) items)
        → Solves (set (txns_of items) (spec.number_at items n) u) book
        → AllByRecursion (CanMoveTxn by.lines) (drop (suc (spec.number_at items n)) book) }
{}
