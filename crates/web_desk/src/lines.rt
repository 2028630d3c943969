//! The lines in which replies say why a report isn't made.
ghost use Rattle.std.specs.Prelude.{◌≡◌, IfOk};
ghost use Rattle.web_desk.specs.Lines.{plan_line, words_line};

use error_lines::{memory, usage};
use hl_base::{Bytes, Memory};
use plan_commands::PlanFault;
use refusals::rules_line;
use report_commands::WordsFault;
use std::alloc::Global;

/// Why words make no report.
fn words_line(alloc: Global, fault: &WordsFault) -> Result<Bytes, Memory>
    ensures { IfOk result (λ line. line ≡ words_line fault.now) }
{
    match fault {
        WordsFault::NoCommand { word } => usage(alloc, word.as_str()),
        _ => refusals::words_line(alloc, fault),
    }
}

/// Why a report isn't made.
pub(crate) fn plan_line(alloc: Global, fault: &PlanFault) -> Result<Bytes, Memory>
    ensures { IfOk result (λ line. line ≡ plan_line fault.now) }
{
    match fault {
        PlanFault::Words(fault) => words_line(alloc, fault),
        PlanFault::Generated(fault) => rules_line(alloc, fault),
        PlanFault::Memory => memory(alloc),
    }
}
