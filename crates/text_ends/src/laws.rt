//! What bytes behind a text come to.
ghost use Rattle.std.specs.Prelude.{◌≡◌, ℕ, List, Ok, Option, false, true};
ghost use Rattle.std.specs.List.{AllByRecursion};
ghost use Rattle.hl_base.specs.Items.{items_of};
ghost use Rattle.book.specs.declared.item.Placed.{Placed};
ghost use Rattle.journal_reader.specs.Items.{items_in};
ghost use Rattle.text_ends.specs.Ends.{end_of};
ghost use Rattle.text_ends.specs.Going.{GoesOn};
ghost use Rattle.text_ends.specs.Growth.{goes_behind, put_behind, rest_of};
ghost use Rattle.text_ends.specs.Told.{as_told, is_head, told_behind};
ghost use Rattle.text_ends.specs.declared.kept.KeptEnd.{KeptEnd};

/// A text that reads, with bytes behind it that begin with the LF that it lacks, and go on with an empty line where its last piece is
/// an entry or a directive, is the text and what the bytes come to there: it is cut so, has as many items and lines, and reads
/// so, or has the fault that is told.
pub fn bytes_go_behind()
    ensures { (year : Option ℕ) (text bytes : List ℕ) (items : List Placed)
        → items_in year text ≡ Ok items
        → goes_behind (end_of year text items) bytes ≡ true → GoesOn year text bytes items }
{}

/// Bytes without a directive behind what the last piece takes, as entries and gaps alone, are told: what they come to, or the
/// fault of the whole.
pub fn plain_bytes_are_told()
    ensures { (e : KeptEnd) (bytes : List ℕ)
        → AllByRecursion (λ p. is_head p.kind ≡ false) (items_of (rest_of e bytes))
        → told_behind e bytes ≡ as_told (put_behind e bytes) }
{}
