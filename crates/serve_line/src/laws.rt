//! What is said of each request of a store that is served.
ghost use Rattle.std.specs.Prelude.{List};
ghost use Rattle.desk.specs.Desks.{state_of};
ghost use Rattle.desk.specs.Entries.{Entry};
ghost use Rattle.desk.specs.declared.desk.Desk.{Desk};
ghost use Rattle.serve_line.specs.Runs.{AnswersEach};
ghost use Rattle.shared_desk.specs.Histories.{IsLegal, Loads};
ghost use Rattle.turn_lock.specs.declared.known.Entered.{Entered};

use hl_base::Disk;
use shared_desk::{each_is_answered, reports_are_fresh};

/// In a legal history that begins with a text that makes a journal each request is answered by the machine as those before it left
/// it: a report byte for byte as a fresh run of its words over the text there, and a good edit by a fresh load of its text.
pub fn histories_are_answered<D: Disk>()
    ensures { (opening last : Desk D D.Disk) (history : List (Entered Entry))
        → IsLegal opening history last → Loads (state_of opening)
        → AnswersEach opening history last }
{
    each_is_answered::<D>();
    reports_are_fresh::<D>();
}
