//! An addition to a store, and an import.
ghost use Rattle.std.specs.Prelude.{IfOk};
ghost use Rattle.hl_time.specs.Calendar.{IsDay};
ghost use Rattle.store_commands.specs.Replies.{IsEdit};

use desk::{Reply, Request};
use hl_base::{Bytes, Memory, Text};
use hl_time::Day;
use std::alloc::Global;
use store_commands::StoreEdit;

/// 2024-06-15.
const TODAY: Day = Day(739_052);

/// An entry of 68 bytes.
pub(crate) const BREAD: &[u8] =
    b"2024-01-05 bread\n    expenses:food  10 EUR\n    assets:cash  -10 EUR\n";

const RULES: &[u8] = b"fields date, description, x\namount %x EUR\naccount1 assets:bank\n";

const BANK: &[u8] = b"2024-03-01,rent,-500\n2024-03-02,shop,-20\n";

/// An addition to the store `home`.
pub(crate) fn addition(alloc: Global) -> Result<StoreEdit, Memory>
    ensures day { IfOk result (λ edit. IsDay edit.day.0) }
    ensures edit { IfOk result (λ edit. IsEdit edit.request) }
{
    let entry = Bytes::copied(alloc, BREAD)?;
    Ok(StoreEdit {
        store: Text::copied(alloc, "home")?,
        request: Request::Add { entry },
        day: TODAY,
    })
}

/// An import into it.
pub(crate) fn import(alloc: Global) -> Result<StoreEdit, Memory>
    ensures day { IfOk result (λ edit. IsDay edit.day.0) }
    ensures edit { IfOk result (λ edit. IsEdit edit.request) }
{
    let rules = Bytes::copied(alloc, RULES)?;
    let csv = Bytes::copied(alloc, BANK)?;
    let name = Text::copied(alloc, "bank.csv")?;
    Ok(StoreEdit {
        store: Text::copied(alloc, "home")?,
        request: Request::Import { name, rules, csv },
        day: TODAY,
    })
}

/// An edit stands at this revision.
pub(crate) fn is_done(reply: &Reply, wanted: u64) -> bool {
    match reply {
        Reply::Done { revision } => *revision == wanted,
        _ => false,
    }
}
