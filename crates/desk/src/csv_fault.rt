//! Why a file becomes no entries.
ghost use Rattle.std.specs.Prelude.{◌≡◌, IfOk};
ghost use Rattle.desk.specs.ReplyLines.{csv_line};

use csv_entries::{ConvertFault, convert_line};
use csv_rules::{RulesFault, rules_line};
use hl_base::{Bytes, Memory};
use std::alloc::Global;

/// Why a file becomes no entries.
#[derive(Clone, Copy, Debug)]
pub enum CsvFault {
    /// The rules don't read, or a pattern of them was refused.
    Rules(RulesFault),
    /// A record of the file is refused.
    Convert(ConvertFault),
}

impl CsvFault {
    /// The line that says so. Fails only for want of memory.
    pub fn line(&self, alloc: Global) -> Result<Bytes, Memory>
        ensures { IfOk result (λ line. line ≡ csv_line self.now) }
    {
        match self {
            CsvFault::Rules(fault) => rules_line(alloc, fault),
            CsvFault::Convert(fault) => convert_line(alloc, fault),
        }
    }
}
