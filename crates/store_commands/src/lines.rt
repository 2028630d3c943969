//! The exit status of a reply to an edit.
ghost use Rattle.std.specs.Prelude.{◌≡◌};
ghost use Rattle.store_commands.specs.Replies as spec;

use desk::Reply;
use refusals::status_for;

/// The exit status of a reply to an edit: 0 where the edit stands or leaves the text as it is; 5 where a call of a disk failed;
/// 6 where memory ran out; 7 where the text, an entry of it or the store is past a limit; and else 1.
pub fn reply_status(reply: &Reply) -> u8
    ensures { result ≡ spec.status_of reply.now }
{
    match reply {
        Reply::Done { .. } | Reply::Same { .. } | Reply::Text { .. } => 0,
        Reply::Load(fault) => status_for(&fault.cause),
        Reply::DiskFault { .. } => 5,
        Reply::Memory => 6,
        Reply::TooLarge { .. } | Reply::Full { .. } => 7,
        Reply::Forbidden { .. }
        | Reply::Stale { .. }
        | Reply::BadBase { .. }
        | Reply::NoSuchItem { .. }
        | Reply::NotTransactions { .. }
        | Reply::Words(_)
        | Reply::Csv(_) => 1,
    }
}
