//! Why a report isn't made.
ghost use Rattle.std.specs.Prelude.{◌≡◌};
ghost use Rattle.report_commands.specs.Faults.{of_query, of_report};
ghost use Rattle.plan_commands.specs.Faults.{of_rules, of_words};
ghost use Rattle.plan_commands.specs.declared.fault.PlanFault.TheVariants as plan_fault;

use generated::GenFault;
use query::QueryFault;
use report_cells::ReportFault;
use report_commands::WordsFault;

/// Why a report isn't made. Of several causes the first in this order is told: what is wrong with its words; why rules make no
/// book; and then what is wrong with the report. Want of memory may come before any of them.
#[derive(Debug, Drop)]
pub enum PlanFault {
    /// What is wrong with its words, or with the report that is made of them.
    Words(WordsFault),
    /// Why the rules of its text make no book. The lines are those of the text.
    Generated(GenFault),
    /// Memory ran out.
    Memory,
}

impl From<hl_base::Memory> for PlanFault {
    ghost from_gives = { λ _ e. e ≡ plan_fault.Memory };

    fn from(_memory: hl_base::Memory) -> PlanFault {
        PlanFault::Memory
    }
}

impl From<WordsFault> for PlanFault {
    ghost from_gives = { λ fault e. e ≡ of_words fault };

    fn from(fault: WordsFault) -> PlanFault {
        match fault {
            WordsFault::Memory => PlanFault::Memory,
            fault => PlanFault::Words(fault),
        }
    }
}

impl From<GenFault> for PlanFault {
    ghost from_gives = { λ fault e. e ≡ of_rules fault };

    fn from(fault: GenFault) -> PlanFault {
        match fault {
            GenFault::Memory => PlanFault::Memory,
            fault => PlanFault::Generated(fault),
        }
    }
}

impl From<QueryFault> for PlanFault {
    ghost from_gives = { λ fault e. e ≡ of_words (of_query fault) };

    fn from(fault: QueryFault) -> PlanFault {
        PlanFault::from(WordsFault::from(fault))
    }
}

impl From<ReportFault> for PlanFault {
    ghost from_gives = { λ fault e. e ≡ of_words (of_report fault) };

    fn from(fault: ReportFault) -> PlanFault {
        PlanFault::from(WordsFault::from(fault))
    }
}
