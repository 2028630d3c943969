//! What the answer of a report to a text has to do with the reports over a book.
ghost use Rattle.std.specs.Prelude.{◌≡◌, ℕ, List, Option, false, nat_lt, length};
ghost use Rattle.hl_base.specs.Items.{items_of};
ghost use Rattle.hl_base.specs.Limits.{item_limit};
ghost use Rattle.plan_commands.specs.Reports.{report_over};
ghost use Rattle.report_commands.specs.declared.asked.Asked.{Asked};
ghost use Rattle.book_commands.specs.Reported.{told_report};
ghost use Rattle.book_commands.specs.Texts.{judged_text};
ghost use Rattle.book_commands.specs.Works.{report_made};

/// A text of no more items than it may have is answered with what the report over it is.
#[tactic(auto, using(crate::proofs::Loading::report_judged))]
pub fn report_judged()
    ensures { (asked : Asked) (day : ℕ) (year : Option ℕ) (text : List ℕ)
        → nat_lt item_limit (length (items_of text)) ≡ false
        → judged_text (report_made asked day) year text
        ≡ told_report (report_over asked day year text) }
{}
