//! What is wrong with the words of a report.
ghost use Rattle.std.specs.Prelude.{◌≡◌};
ghost use Rattle.report_commands.specs.Commands.{as_words_fault};
ghost use Rattle.report_commands.specs.Faults.{of_query, of_report};
ghost use Rattle.report_commands.specs.declared.fault.WordsFault.TheVariants as words_fault;

use hl_base::Text;
use query::QueryFault;
use report_cells::ReportFault;
use report_options::OptionFault;

/// Why a report isn't made. Of several causes the first in this order is told.
#[derive(Debug, Drop)]
pub enum WordsFault {
    /// The first word is no report; the empty text where there is no word.
    NoCommand { word: Text },
    /// A word is no option of the command, or no value of its option.
    BadOption { word: Text },
    /// Two words exclude each other, the earlier one first.
    Conflict { a: Text, b: Text },
    /// A word is no term of a query.
    BadTerm { word: Text },
    /// A pattern of a word isn't built.
    PatternRefused { word: Text },
    /// A number of the report is out of range, or it has too many columns.
    Report(ReportFault),
    /// Memory ran out.
    Memory,
}

impl From<hl_base::Memory> for WordsFault {
    ghost from_gives = { λ _ e. e ≡ words_fault.Memory };

    fn from(_memory: hl_base::Memory) -> WordsFault {
        WordsFault::Memory
    }
}

impl From<OptionFault> for WordsFault {
    ghost from_gives = { λ fault e. e ≡ as_words_fault fault };

    fn from(fault: OptionFault) -> WordsFault {
        match fault {
            OptionFault::BadOption { word } => WordsFault::BadOption { word },
            OptionFault::Conflict { a, b } => WordsFault::Conflict { a, b },
            OptionFault::Memory => WordsFault::Memory,
        }
    }
}

impl From<QueryFault> for WordsFault {
    ghost from_gives = { λ fault e. e ≡ of_query fault };

    fn from(fault: QueryFault) -> WordsFault {
        match fault {
            QueryFault::BadTerm { word } => WordsFault::BadTerm { word },
            QueryFault::PatternRefused { word } => WordsFault::PatternRefused { word },
            QueryFault::Memory => WordsFault::Memory,
        }
    }
}

impl From<ReportFault> for WordsFault {
    ghost from_gives = { λ fault e. e ≡ of_report fault };

    fn from(fault: ReportFault) -> WordsFault {
        match fault {
            ReportFault::Range { symbol } => WordsFault::Report(ReportFault::Range { symbol }),
            ReportFault::TooWide { columns, limit } => {
                WordsFault::Report(ReportFault::TooWide { columns, limit })
            }
            ReportFault::Memory => WordsFault::Memory,
        }
    }
}
