//! The line that says why a record becomes no entry.
ghost use Rattle.std.specs.Prelude.{◌≡◌, IfOk};
ghost use Rattle.csv_entries.specs.FaultLine.{convert_line};

use crate::faults::ConvertFault;
use error_lines::{bad_record, memory};
use hl_base::{Bytes, Memory};
use std::alloc::Global;

/// The line that says why a record becomes no entry. Fails only for want of memory.
pub fn convert_line(alloc: Global, fault: &ConvertFault) -> Result<Bytes, Memory>
    ensures { IfOk result (λ line. line ≡ convert_line fault.now) }
{
    match fault {
        ConvertFault::BadRecord { n } => bad_record(alloc, *n, ": bad"),
        ConvertFault::NoDate { n } => bad_record(alloc, *n, ": no date"),
        ConvertFault::NoAmount { n } => bad_record(alloc, *n, ": no amount"),
        ConvertFault::TwoAmounts { n } => bad_record(alloc, *n, ": two amounts"),
        ConvertFault::CsvRefused { n } => bad_record(alloc, *n, ": not text"),
        ConvertFault::Memory => memory(alloc),
    }
}
