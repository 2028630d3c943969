//! The machine of a journal, as a lock keeps it.
ghost use Rattle.std.specs.Prelude.{◌≡◌};
ghost use Rattle.desk.specs.Desks.{IsServed, state_of};
ghost use Rattle.desk.specs.Reports.{TellsRule};
ghost use Rattle.desk.specs.Steps.{TellsReply};
ghost use Rattle.hl_time.specs.Calendar.{IsDay};

use desk::{Desk, Reply, Request};
use hl_base::{Disk, Steps};
use hl_time::Day;
use query::Maker;
use std::alloc::Global;
use std::marker::Model;
use std::snapshot::Snapshot;
use std::sync::ledger::Ledger;
use turn_lock::Kept;

/// What a request leaves in the history: the request, its day, the reply and the revision after it. It takes no bytes,
/// and contracts see it as the entry that connections speak of.
#[derive(Drop)]
pub struct Noted {
    request: Snapshot<Request>,
    day: Snapshot<Day>,
    reply: Snapshot<Reply>,
    revision: Snapshot<u64>,
}

impl Model for Noted {
    ghost use Rattle.desk.specs.Entries.{Entry};

    ghost Value = { Entry };

    ghost view = { λ n. record { request = n.request.value; day = n.day.value; reply = n.reply.value; revision = n.revision.value } };
}

impl Noted {
    /// The entry of a request that came on a day, with its reply and the revision after it.
    pub fn of(request: &Request, day: Day, reply: &Reply, revision: u64) -> Noted
        ensures { result
            ≡ record { request = request.now; day = day; reply = reply.now; revision = revision } }
    {
        Noted {
            request: Snapshot::of(request),
            day: Snapshot::of(&day),
            reply: Snapshot::of(reply),
            revision: Snapshot::of(&revision),
        }
    }
}

/// A reply of the machine, the revision after it, and what it leaves in the history.
#[derive(Drop)]
pub struct Answered {
    pub reply: Reply,
    pub revision: u64,
    pub note: Noted,
}

/// The machine of a journal, as a lock keeps it.
#[derive(Drop)]
pub struct Shared<D: Disk> {
    pub desk: Desk<D>,
}

impl<D: Disk> Kept for Shared<D> {
    ghost use Rattle.desk.specs.Desks.{IsServed};
    ghost use Rattle.desk.specs.declared.desk.Desk.{Desk};

    type Entry = Noted;

    ghost State = { Desk D D.Disk };

    ghost state = { λ s. s.desk };

    ghost leads = { λ before entry after. IsServed before entry after };
}

impl<D: Disk> Shared<D> {
    /// Answers a request that comes on a day, with the patterns of its words built by the maker. It is one step of the
    /// machine, which is noted.
    pub fn answer<M: Maker, L: Ledger>(
        &mut self,
        alloc: Global,
        request: &Request,
        day: Day,
        maker: &mut M,
        steps: &mut Steps<L>,
    ) -> Answered
        requires { IsDay day.0 }
        ensures note { result.note
            ≡ record {
              request = request.now;
              day = day;
              reply = result.reply;
              revision =
                  result.revision;
            } }
        ensures maker { TellsReply request.now day.0 (M.refusals maker.old) (M.refusals maker.new)
            (M.last_refused maker.old) (M.last_refused maker.new) result.reply }
        ensures rule { TellsRule request.now (state_of self.old.desk).text day.0
            (M.refusals maker.old) (M.refusals maker.new) (M.last_refused maker.new) result.reply }
        ensures served { IsServed self.old.desk result.note self.new.desk }
    {
        let reply = self.desk.request(alloc, request, day, maker, steps);
        let (revision, _, _) = self.desk.counts();
        let note = Noted::of(request, day, &reply, revision);
        Answered {
            reply,
            revision,
            note,
        }
    }
}
