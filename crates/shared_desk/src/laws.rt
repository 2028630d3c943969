//! Laws about the histories of a journal that workers share. Each function does nothing; its contract is the law.
ghost use Rattle.std.specs.Prelude.{◌≡◌, ◌∷◌, ◌++◌, ℕ, true, List, Option, Some};
ghost use Rattle.hl_base.specs.Causes.{Rose};
ghost use Rattle.desk.specs.Desks.{IsServed, counts_of, faults_of, shown_by, state_of};
ghost use Rattle.desk.specs.Entries.{Entry};
ghost use Rattle.desk.specs.Stands.{Stands};
ghost use Rattle.desk.specs.States.{change_of, deed_in};
ghost use Rattle.desk.specs.Steps.{is_done};
ghost use Rattle.desk.specs.declared.deed.Deed.{Deed};
ghost use Rattle.desk.specs.declared.desk.Desk.{Desk};
ghost use Rattle.desk.specs.declared.request.Request.TheVariants as request;
ghost use Rattle.shared_desk.specs.Histories.{IsAnswered, IsFreshRun, IsLegal, Loads, MayBeLeft, RoseBy, has_fault, pattern_refusals, tally};
ghost use Rattle.text_store.specs.Edits.{edited};
ghost use Rattle.text_store.specs.declared.image.Image.{Image};
ghost use Rattle.turn_lock.specs.declared.known.Entered.{Entered};
ghost use Rattle.web_desk.specs.Makers.{TellsEntries};

use hl_base::Disk;

/// Each entry of a legal history is answered by the machine that stands at its place: a report byte for byte as a fresh
/// run of its words over the text there, and a good edit, an import's among them, by what a fresh load of its text comes
/// to.
pub fn each_is_answered<D: Disk>()
    ensures { (opening last : Desk D D.Disk) (earlier later : List (Entered Entry))
        (x : Entered Entry)
        → IsLegal opening (earlier ++ x ∷ later) last
        → IsAnswered opening earlier x.entry later last }
{}

/// Where the text of the machine that a legal history begins with makes a journal, so does the text at each place; and a
/// report is answered there byte for byte as a fresh run of its words over that text, with any year before it.
pub fn reports_are_fresh<D: Disk>()
    ensures { (opening last : Desk D D.Disk) (earlier later : List (Entered Entry))
        (x : Entered Entry) (words : List (List ℕ))
        → IsLegal opening (earlier ++ x ∷ later) last → Loads (state_of opening)
        → x.entry.request ≡ request.Report words
        → (before : Desk D D.Disk) × IsLegal opening earlier before × Loads (state_of before)
        × IsFreshRun (state_of before) x.entry.day.0 words x.entry.reply }
{}

/// A request that a machine answers as done asks for an edit, and the change of the store that the edit is makes the image
/// after it of the one before.
pub fn done_is_a_change<D: Disk>()
    ensures { (before after : Desk D D.Disk) (entry : Entry)
        → IsServed before entry after → is_done entry.reply ≡ true
        → (deed : Deed) × (deed_in (state_of before) entry.request ≡ Some deed)
        × (edited (shown_by before) (change_of (state_of before).text deed)
        ≡ Some (shown_by after)) }
{}

/// At the end of a legal history the disks show the last state, and beside it at most one edit that was refused for a
/// disk fault since the last one that was acknowledged; or, where none was, what they might show at first.
pub fn disks_show_the_last<D: Disk>()
    ensures { (opening last : Desk D D.Disk) (history : List (Entered Entry))
        (pending : Option Image)
        → IsLegal opening history last → Stands opening.store (shown_by opening) pending
        → (after : Option Image) × MayBeLeft opening history pending after
        × Stands last.store (shown_by last) after }
{}

/// Where some entry of a legal history tells a disk fault, the count of the disks' failed calls rose.
pub fn faults_are_counted<D: Disk>()
    ensures { (opening last : Desk D D.Disk) (history : List (Entered Entry))
        → IsLegal opening history last → has_fault history ≡ true
        → Rose (faults_of opening) (faults_of last) }
{}

/// After a legal history a machine that had counted nothing tells how many requests there were, and how many of them
/// were refused, by counts that stay at their last value.
pub fn counts_are_kept<D: Disk>()
    ensures { (opening last : Desk D D.Disk) (history : List (Entered Entry))
        → IsLegal opening history last → counts_of opening ≡ (0, 0)
        → counts_of last ≡ tally history }
{}

/// Along the entries of a connection, or of a worker, the maker's count of refused patterns rises by at least the number of
/// those that answer that a pattern was refused, or has come to its last value.
pub fn refusals_are_counted()
    ensures { (before now : ℕ) (last_before last_now : Option (List ℕ)) (entries : List Entry)
        → TellsEntries before now last_before last_now entries
        → RoseBy before now (pattern_refusals entries) }
{}
