//! What reports without rules are, and what requests and the program's words have in common.
ghost use Rattle.std.specs.Prelude.{◌≡◌, ℕ, List, None, Option, Some, false, Ok, Err, IfOk, IfErr};
ghost use Rattle.std.specs.List.{AllByRecursion};
ghost use Rattle.book.specs.declared.item.Book.{Book};
ghost use Rattle.book.specs.declared.item.Placed.{Placed};
ghost use Rattle.report_options.specs.Programs.{NamesNoJournal, unnamed};
ghost use Rattle.report_commands.specs.Reports as plain;
ghost use Rattle.report_commands.specs.declared.asked.Asked.{Asked};
ghost use Rattle.plan_commands.specs.Commands.{asked_of, given_of};
ghost use Rattle.plan_commands.specs.Faults.{widened};
ghost use Rattle.plan_commands.specs.Reports.{answer_over, asks_rules, report_over};

/// Where neither entries of rules nor a budget are asked for, a report is that of `report_commands`.
#[tactic(auto, using(crate::proofs::Plain::plain_reports))]
pub fn plain_reports()
    ensures { (asked : Asked) (day : ℕ) (items : List Placed) (book : Book)
        → asks_rules asked.options ≡ false
        → answer_over asked day items book ≡ widened (plain.answer_over asked day items book) }
{}

/// What words ask for in a request they ask for behind the program's name too, over a journal that they don't name: so a
/// reply to a request that reads is what a run with its words writes.
#[tactic(auto, using(crate::proofs::Requests::request_runs))]
pub fn request_runs()
    ensures { (day : ℕ) (words : List (List ℕ))
        → IfOk (asked_of day words) (λ asked. given_of day words ≡ Ok (unnamed, asked)) }
{}

/// Words of which none is an option that names a journal (`-f`, `--store`) are refused behind the program's name with the same fault
/// as in a request: so a reply that refuses them has the fault that a run with them tells.
#[tactic(auto, using(crate::proofs::Requests::request_refused))]
pub fn request_refused()
    ensures { (day : ℕ) (words : List (List ℕ)) → AllByRecursion NamesNoJournal words
        → IfErr (asked_of day words) (λ fault. given_of day words ≡ Err fault) }
{}

/// A text that loads without a year before it has the same report with any, with entries of rules and budgets too.
#[tactic(auto, using(crate::proofs::AnyYear::any_year))]
pub fn any_year()
    ensures { (asked : Asked) (day year : ℕ) (text : List ℕ)
        → IfOk (report_over asked day None text) (λ report.
        report_over asked day (Some year) text ≡ Ok report) }
{}
