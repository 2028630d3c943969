//! What becomes of the text that is written of a log.
ghost use Rattle.std.specs.Prelude.{◌≡◌, ◌≤◌, ◌^◌, ℕ, List, [], length, Option, Ok};
ghost use Rattle.book.specs.declared.transaction.Txn.{Txn};
ghost use Rattle.refusals.specs.Outcomes.{written};
ghost use Rattle.book_commands.specs.Works.{entries_text, judge, log_txns, plain_context};
ghost use Rattle.book_commands.specs.declared.work.LogForm.{LogForm};
ghost use Rattle.book_commands.specs.declared.work.Work.TheVariants as works;
ghost use Rattle.entry_reader.specs.Contexts.{context_of};
ghost use Rattle.entry_reader.specs.Lines.{contents_of};
ghost use Rattle.journal_printer.specs.declared.detail.Detail.{Detail};
ghost use Rattle.journal_printer.specs.declared.detail.Detail.TheVariants as detailed;
ghost use Rattle.journal_printer.specs.Entries.{entry_shape};
ghost use Rattle.journal_printer.specs.Texts.{Shaping};
ghost use Rattle.time_logs.specs.Timeclock.{timeclock};
ghost use Rattle.time_logs.specs.Timedot.{timedot};
ghost use Rattle.written_logs.specs.Plain.{ArePlain};
ghost use Rattle.written_logs.specs.Written.{IsOwn, AreShort, Loads, Reads, journal_of, numbered};

/// The transactions of a timeclock text of at most 16,777,216 bytes may be written in a journal as they are.
pub fn timeclock_plain()
    ensures { (text : List ℕ) (txns : List Txn)
        → length text ≤ 2 ^ 24 → timeclock (contents_of text) ≡ Ok txns → ArePlain txns }
{}

/// And so may those of a timedot text.
pub fn timedot_plain()
    ensures { (text : List ℕ) (txns : List Txn)
        → length text ≤ 2 ^ 24 → timedot (contents_of text) ≡ Ok txns → ArePlain txns }
{}

/// The text of such transactions, with an empty line after each, reads as these transactions, in lines of their own,
/// where no entry is over 65,536 bytes and hours are shown as they are.
pub fn plain_reads()
    ensures { (shape : Shaping) (detail : Detail) (year : Option ℕ) (txns : List Txn)
        → IsOwn shape → ArePlain txns → AreShort shape detail txns
        → Reads year (journal_of shape detail txns) (numbered 1 txns) }
{}

/// And it loads to their book, each posting with its amount.
pub fn plain_loads()
    ensures { (shape : Shaping) (detail : Detail) (year : Option ℕ) (txns : List Txn)
        → IsOwn shape → ArePlain txns → AreShort shape detail txns
        → Loads year (journal_of shape detail txns) (numbered 1 txns) }
{}

/// So the text that is written of a log loads to the book of its transactions.
pub fn hours_load()
    ensures timeclock { (shape : Shaping) (detail : Detail) (year : Option ℕ)
        (text : List ℕ) (txns : List Txn)
        → length text ≤ 2 ^ 24 → timeclock (contents_of text) ≡ Ok txns
        → IsOwn shape → AreShort shape detail txns
        → Loads year (journal_of shape detail txns) (numbered 1 txns) }
    ensures timedot { (shape : Shaping) (detail : Detail) (year : Option ℕ)
        (text : List ℕ) (txns : List Txn)
        → length text ≤ 2 ^ 24 → timedot (contents_of text) ≡ Ok txns
        → IsOwn shape → AreShort shape detail txns
        → Loads year (journal_of shape detail txns) (numbered 1 txns) }
{}

/// An entry of a text without directives shows hours as they are.
pub fn hours_own()
    ensures { (year : Option ℕ) → IsOwn (entry_shape (context_of year [])) }
{}

/// So what the command `hours` writes of a log, on whatever day, loads to the book of the log's transactions, where the
/// log has at most 16,777,216 bytes and no entry is over 65,536.
pub fn command_loads()
    ensures written { (day : ℕ) (year : Option ℕ) (form : LogForm) (log : List ℕ) (txns : List Txn)
        → log_txns form (contents_of log) ≡ Ok txns
        → judge day year (works.Hours form) log ≡ Ok (written (entries_text plain_context txns)) }
    ensures loads { (year : Option ℕ) (form : LogForm) (log : List ℕ) (txns : List Txn)
        → length log ≤ 2 ^ 24 → log_txns form (contents_of log) ≡ Ok txns
        → AreShort (entry_shape plain_context) detailed.Written txns
        → Loads year (entries_text plain_context txns) (numbered 1 txns) }
{}
