//! What a report lists of which nothing is asked.
ghost use Rattle.std.specs.Prelude.{◌≡◌};
ghost use Rattle.book.specs.Accounts.{accounts_of};
ghost use Rattle.book.specs.Postings.{postings_of};
ghost use Rattle.book.specs.declared.style.Styles.{Styles};
ghost use Rattle.journal_printer.specs.Journal.{styled, journal_text};
ghost use Rattle.report_takings.specs.Asking.{question_of};
ghost use Rattle.report_takings.specs.declared.scope.Scope.{Scope};
ghost use Rattle.journal_listings.specs.Listed.{account_lines};
ghost use Rattle.journal_listings.specs.Listed.{accounts_text};
ghost use Rattle.journal_listings.specs.Printed.{detail_of, print_text};
ghost use Rattle.journal_listings.specs.Unasked.{AsksNothing, AreDays};

/// Where no term and no bound is given all transactions are printed, and where the postings' days are days of the
/// calendar, the accounts of all postings are listed.
#[tactic(auto, using(crate::proofs::Whole::all_printed, crate::proofs::Whole::all_listed))]
pub fn nothing_asked()
    ensures print { (scope : Scope) (styles : Styles) → AsksNothing scope
        → print_text (question_of scope) (styled styles)
        ≡ journal_text (styled styles) (detail_of scope.options.now) scope.book.now.txns }
    ensures accounts { (scope : Scope) → AsksNothing scope → AreDays scope
        → accounts_text (question_of scope)
        ≡ account_lines (accounts_of (postings_of scope.book.now.txns)) }
{}
