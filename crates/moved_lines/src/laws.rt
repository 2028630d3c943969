//! What doesn't look at lines, and what takes a move back.
ghost use Rattle.std.specs.Prelude.{◌≡◌, ℕ, Bool, List, length, map, take, drop};
ghost use Rattle.std.specs.List.{AllByRecursion};
ghost use Rattle.hl_base.specs.declared.items.Piece.{Piece};
ghost use Rattle.book.specs.declared.item.Placed.{Placed};
ghost use Rattle.book.specs.declared.transaction.Txn.{Txn};
ghost use Rattle.book.specs.Postings.{txns_of};
ghost use Rattle.book.specs.SumsBefore.{Place, placed_from};
ghost use Rattle.balancing.specs.Solves.{Solves, values_before};
ghost use Rattle.moved_lines.specs.Relined.{relined, relined_at};
ghost use Rattle.moved_lines.specs.Moving.{CanMovePiece, CanMovePlaced, CanMoveTxn, back, back_offset, line_from, moved_from, moved_items_from, moved_pieces_from};
ghost use Rattle.moved_lines.specs.declared.shift.Offset.{Offset};
ghost use Rattle.moved_lines.specs.declared.shift.Shift.{Shift};

/// Laws for callers; it does nothing. A book that solves what is written solves it under any other lines (`solves`), those
/// of a change before its later transactions among them (`moved`, which is such a change of lines by `is`). Its
/// postings stand at the same places (`placed`), and accounts hold the same before each (`values`).
pub fn a_book_has_any_lines()
    ensures solves { (line : ℕ → ℕ → ℕ) (written book : List Txn)
        → Solves written book → Solves (relined line written) (relined line book) }
    ensures moved { (n : ℕ) (by : Shift) (written book : List Txn)
        → Solves written book → Solves (moved_from n by written) (moved_from n by book) }
    ensures is { (n : ℕ) (by : Shift) (txns : List Txn)
        → moved_from n by txns ≡ relined (line_from n by) txns }
    ensures placed { (line : ℕ → ℕ → ℕ) (book : List Txn)
        → placed_from 0 (relined line book) ≡ map (relined_at line) (placed_from 0 book) }
    ensures values { (line : ℕ → ℕ → ℕ) (book : List Txn) (account : List ℕ) (below : Bool)
        (place : Place)
        → values_before (relined line book) account below place
        ≡ values_before book account below place }
{}

/// Laws for callers; it does nothing. The transactions among moved items are moved, and so are their pieces.
pub fn parts_of_moved_items()
    ensures txns { (n : ℕ) (by : Offset) (items : List Placed)
        → txns_of (moved_items_from n by items)
        ≡ moved_from (length (txns_of (take n items))) by.lines (txns_of items) }
    ensures pieces { (n : ℕ) (by : Offset) (items : List Placed)
        → map (λ (p : Placed). p.piece) (moved_items_from n by items)
        ≡ moved_pieces_from n by (map (λ (p : Placed). p.piece) items) }
{}

/// Laws for callers; it does nothing. What was moved can be moved back, and is then as it was.
pub fn moved_there_and_back()
    ensures txns { (n : ℕ) (by : Shift) (txns : List Txn)
        → AllByRecursion (CanMoveTxn by) (drop n txns)
        → moved_from n (back by) (moved_from n by txns) ≡ txns }
    ensures txns_can { (n : ℕ) (by : Shift) (txns : List Txn)
        → AllByRecursion (CanMoveTxn by) (drop n txns)
        → AllByRecursion (CanMoveTxn (back by)) (drop n (moved_from n by txns)) }
    ensures items { (n : ℕ) (by : Offset) (items : List Placed)
        → AllByRecursion (CanMovePlaced by) (drop n items)
        → moved_items_from n (back_offset by) (moved_items_from n by items) ≡ items }
    ensures items_can { (n : ℕ) (by : Offset) (items : List Placed)
        → AllByRecursion (CanMovePlaced by) (drop n items)
        → AllByRecursion (CanMovePlaced (back_offset by)) (drop n (moved_items_from n by items)) }
    ensures pieces { (n : ℕ) (by : Offset) (pieces : List Piece)
        → AllByRecursion (CanMovePiece by) (drop n pieces)
        → moved_pieces_from n (back_offset by) (moved_pieces_from n by pieces) ≡ pieces }
    ensures pieces_can { (n : ℕ) (by : Offset) (pieces : List Piece)
        → AllByRecursion (CanMovePiece by) (drop n pieces)
        → AllByRecursion (CanMovePiece (back_offset by)) (drop n (moved_pieces_from n by pieces)) }
{}

/// Laws for callers; it does nothing. A book that solves what is written has its lines, so that it can be moved as far from a
/// number on (`solved`); and what items say can be moved where the items can (`items`).
pub fn a_solved_book_can_move()
    ensures solved { (n : ℕ) (by : Shift) (written book : List Txn) → Solves written book
        → AllByRecursion (CanMoveTxn by) (drop n written)
        → AllByRecursion (CanMoveTxn by) (drop n book) }
    ensures items { (n : ℕ) (by : Offset) (items : List Placed)
        → AllByRecursion (CanMovePlaced by) (drop n items)
        → AllByRecursion (CanMoveTxn by.lines)
        (drop (length (txns_of (take n items))) (txns_of items)) }
{}
