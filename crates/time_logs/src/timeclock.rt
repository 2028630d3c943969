//! Timeclock texts.
ghost use Rattle.std.specs.Prelude.{◌≡◌};
ghost use Rattle.hl_base.specs.Gives.{Gives};
ghost use Rattle.entry_reader.specs.Lines.{contents_of};
ghost use Rattle.time_logs.specs.Faults.{log_cause};
ghost use Rattle.time_logs.specs.Timeclock as spec;

use crate::days::{days_in, push_entries};
use crate::faults::{ENTRY_LIMIT, LogFault};
use crate::sessions::{Session, sessions_of};
use book::Txn;
use hl_base::List;
use std::alloc::Global;

/// The transactions of sessions, one for each day on which one has a second, where these aren't too many.
fn sessions_entries(alloc: Global, sessions: &[Session]) -> Result<List<Txn>, LogFault>
    ensures { Gives (λ txns. txns) log_cause result (spec.sessions_entries sessions.now) }
{
    let count = days_in(sessions);
    if count > ENTRY_LIMIT {
        return Err(LogFault::TooMany {
            count,
            limit: ENTRY_LIMIT,
        });
    }
    let mut txns = Vec::new(alloc);
    push_entries(alloc, &mut txns, sessions)?;
    Ok(List::from_vec(txns))
}

/// The transactions of a timeclock text, in the order of its sessions: one for each day on which a session has a second,
/// or one on its day where it has none, with that day's seconds as hours. The first line that has a fault decides; else a
/// session that is open at the end; else more than 100,000 transactions, of which none is made.
pub fn read_timeclock(alloc: Global, text: &[u8]) -> Result<List<Txn>, LogFault>
    ensures { Gives (λ txns. txns) log_cause result (spec.timeclock (contents_of text.now)) }
{
    let sessions = sessions_of(alloc, text)?;
    sessions_entries(alloc, &sessions)
}
