//! What the machine replies.
ghost use Rattle.std.specs.Prelude.{◌≡◌, IfOk};
ghost use Rattle.desk.specs.ReplyLines.{IsEditReply, line_of};

use crate::csv_fault::CsvFault;
use crate::request::Allow;
use book::{Fault, print_fault};
use error_lines::{
    bad_base, disk_fault, forbidden, full, memory, no_item, not_transactions, past_limit, stale,
    with_number,
};
use hl_base::{Bytes, Memory};
use plan_commands::PlanFault;
use std::alloc::Global;

/// What the machine replies.
#[derive(Debug, Drop)]
pub enum Reply {
    /// The edit stands, and made this revision.
    Done { revision: u64 },
    /// The edit leaves the text as it is.
    Same { revision: u64 },
    /// The text that was asked for, of this revision.
    Text { revision: u64, bytes: Bytes },
    /// The edit needs more than what is allowed.
    Forbidden { need: Allow, have: Allow },
    /// The edit's base is below the revision.
    Stale { base: u64, current: u64 },
    /// The edit's base is above the revision.
    BadBase { base: u64, current: u64 },
    /// No item of the text has this number, counted from 1.
    NoSuchItem { n: u64, count: u64 },
    /// What is put in or replaced isn't transactions alone: the line of the entry, counted from 1, or 0 for the item
    /// that is to be replaced.
    NotTransactions { line: u64 },
    /// The new text has a fault.
    Load(Fault),
    /// The new text is past a limit, in bytes or in items.
    TooLarge { limit: u64, size: u64 },
    /// A call of the disks failed; their count of faults before and after.
    DiskFault { before: u64, after: u64 },
    /// Why a report isn't made: its words have no reading, or the rules of the text make no book.
    Words(PlanFault),
    /// The file of an import becomes no entries.
    Csv(CsvFault),
    /// The store has no room for the edit, the revision has come to its end, or an import's name or the states of imports
    /// have.
    Full { size: u64, limit: u64 },
    /// Memory ran out.
    Memory,
}

impl Reply {
    /// The line that says what came of an edit, or why it was refused. Fails only for want of memory.
    pub fn line(&self, alloc: Global) -> Result<Bytes, Memory>
        requires { IsEditReply self.now }
        ensures { IfOk result (λ line. line ≡ line_of self.now) }
    {
        match self {
            Reply::Done { revision } => with_number(alloc, "revision ", *revision),
            Reply::Same { revision } => with_number(alloc, "unchanged, revision ", *revision),
            Reply::Text { .. } | Reply::Words(_) => unreachable!(),
            Reply::Forbidden { need, have } => forbidden(alloc, need.word(), have.word()),
            Reply::Stale { base, current } => stale(alloc, *base, *current),
            Reply::BadBase { base, current } => bad_base(alloc, *base, *current),
            Reply::NoSuchItem { n, count } => no_item(alloc, *n, *count),
            Reply::NotTransactions { line } => not_transactions(alloc, *line),
            Reply::Load(fault) => print_fault(alloc, fault),
            Reply::TooLarge { limit, size } => past_limit(alloc, *size, *limit),
            Reply::DiskFault { .. } => disk_fault(alloc),
            Reply::Csv(fault) => fault.line(alloc),
            Reply::Full { size, limit } => full(alloc, *size, *limit),
            Reply::Memory => memory(alloc),
        }
    }
}
