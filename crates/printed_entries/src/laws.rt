//! What becomes of the text of a transaction.
ghost use Rattle.std.specs.Prelude.{◌≡◌, ◌≤◌, ℕ, List, [], length, Option, Ok};
ghost use Rattle.hl_base.specs.Limits.{entry_limit};
ghost use Rattle.book.specs.Style.{style_of};
ghost use Rattle.book.specs.Styles.{style_in};
ghost use Rattle.book.specs.declared.item.Placed.{Placed};
ghost use Rattle.book.specs.declared.style.Styles.{Styles};
ghost use Rattle.book.specs.declared.transaction.Txn.{Txn};
ghost use Rattle.entry_reader.specs.Contexts.{context_of};
ghost use Rattle.journal_printer.specs.Journal.{styled};
ghost use Rattle.journal_printer.specs.Layout.{txn_text};
ghost use Rattle.journal_printer.specs.Texts.{Shaping};
ghost use Rattle.journal_printer.specs.declared.detail.Detail.{Detail};
ghost use Rattle.journal_reader.specs.Items.{items_in};
ghost use Rattle.printed_entries.specs.Alike.{AreShapes};
ghost use Rattle.printed_entries.specs.Printed.{IsClear, IsPlain, PrintsBack, context_behind, entry_in};

/// The text of a plain transaction, where it has at most 65,536 bytes, is one entry, and reads in a context without
/// directives as that transaction, but for line numbers and how amounts are written. Amounts are shown in shapes in which
/// numbers read.
pub fn printed_reads()
    ensures { (shape : Shaping) (detail : Detail) (year : Option ℕ) (line : ℕ) (txn : Txn)
        → AreShapes shape → IsPlain txn → length (txn_text shape detail txn) ≤ entry_limit
        → PrintsBack (context_of year []) line (txn_text shape detail txn) txn }
{}

/// So does its text as an entry behind a text that was read, where at that text's end no name is applied, no alias is in
/// force, and there is no default commodity: it reads in the context of that place.
pub fn entry_reads()
    ensures { (year : Option ℕ) (text : List ℕ) (items : List Placed) (line : ℕ) (txn : Txn)
        → items_in year text ≡ Ok items → IsClear (context_behind year items) → IsPlain txn
        → length (entry_in (context_behind year items) txn) ≤ entry_limit
        → PrintsBack (context_behind year items) line
        (entry_in (context_behind year items) txn) txn }
{}

/// The styles of a text that was read are such shapes.
pub fn styles_show()
    ensures { (year : Option ℕ) (text : List ℕ) (items : List Placed) (styles : Styles)
        → items_in year text ≡ Ok items
        → ((symbol : List ℕ) → style_in styles symbol ≡ style_of items symbol)
        → AreShapes (styled styles) }
{}
