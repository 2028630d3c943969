//! How a machine answers requests.
ghost use Rattle.std.specs.Prelude.{◌≡◌};
ghost use Rattle.desk.specs.States as state;
ghost use Rattle.hl_time.specs.Calendar.{IsDay};

use crate::desk::Desk;
use crate::editing::{add, change, replace};
use crate::judging::counted;
use crate::reply::Reply;
use crate::report::{asks_sums, report_reply, report_text};
use crate::request::{Allow, Request};
use hl_base::{Bytes, Disk, Memory, Steps, Text};
use hl_time::Day;
use query::Maker;
use std::alloc::Global;
use std::sync::ledger::Ledger;

impl<D: Disk> Desk<D> {
    ghost use Rattle.std.specs.Prelude.{◌≡◌, ◌⊎◌};
    ghost use Rattle.desk.specs.Desks.{IsServed, Serves, counts_of, faults_of, state_of};
    ghost use Rattle.desk.specs.declared.request.Request.{Request as Asked};
    ghost use Rattle.hl_time.specs.Calendar.{IsDay};
    ghost use Rattle.desk.specs.States.{Replies};
    ghost use Rattle.desk.specs.Reading.{AsksReport, CountsRequest};
    ghost use Rattle.desk.specs.Reports.{TellsRule};
    ghost use Rattle.desk.specs.Steps.{Completes, TellsReply, counted};

    /// Answers a request that comes on a day, with the patterns of its words built by the maker. It is one step of the
    /// machine. An edit is refused by the first of these that holds: it isn't allowed; its base is above or below the
    /// revision; no item has its number; it isn't one of transactions; the file of an import becomes no entries; the new
    /// text has too many bytes or items; the new text has a fault; the text stays the same; the store has no room, or the
    /// revision, an import's name or the number of the states of imports has come to its end. Else it is put into the
    /// store, and stands. After want of memory, a disk fault and a refused pattern the journal is as it was. The entries
    /// of an import are put in as one addition, and its state is kept in the same record. An import of 2^32 entries or
    /// more is answered as want of memory. A dry run is refused as its edit would be, and stores nothing: a check is
    /// answered with the line that its addition would be replied, and a preview with the entries that its import would add.
    pub fn request<M: Maker, L: Ledger>(
        &mut self,
        alloc: Global,
        request: &Request,
        day: Day,
        maker: &mut M,
        steps: &mut Steps<L>,
    ) -> Reply
        requires { IsDay day.0 }
        ensures maker { TellsReply request.now day.0 (M.refusals maker.old) (M.refusals maker.new)
            (M.last_refused maker.old) (M.last_refused maker.new) result }

        // A pattern of an automated rule is told as refused with the line of that rule.
        ensures rule { TellsRule request.now (state_of self.old).text day.0
            (M.refusals maker.old) (M.refusals maker.new) (M.last_refused maker.new) result }
        ensures served { IsServed self.old (record {
          request = request.now;
          day = day;
          reply = result;
          revision = self.new.live.revision;
        }) self.new }

        // Where no call of a disk failed and no pattern was refused, the reply is the step's own, or memory ran out.
        ensures complete { Completes (state.answer_to (state_of self.old) day.0 request.now)
            (faults_of self.old) (faults_of self.new)
            (M.refusals maker.old) (M.refusals maker.new) result }

        // An edit counts what the journal counts for it. A report reads and checks nothing, and a plain balance asks few nodes.
        ensures steps { CountsRequest self.old.live (state_of self.old) day.0 request.now result
            steps.old steps.new }
    {
        let reply = self.answer(alloc, request, day, maker, steps);
        self.count(&reply);
        self.keep_for_later(alloc, request, day);
        reply
    }

    /// Keeps the sums of the journal's book behind a plain balance, for those that come after it.
    fn keep_for_later(&mut self, alloc: Global, request: &Request, day: Day)
        requires { IsDay day.0 }
        ensures store { self.new.store ≡ self.old.store }
        ensures live { self.new.live ≡ self.old.live }
        ensures latest { self.new.latest ≡ self.old.latest }
        ensures allowed { self.new.allow ≡ self.old.allow }
        ensures counts { counts_of self.new ≡ counts_of self.old }
    {
        let plain = is_plain(alloc, request, day);
        if !plain {
            return;
        }
        self.live.keep_sums();
    }

    /// Counts a request by its reply.
    fn count(&mut self, reply: &Reply)
        ensures store { self.new.store ≡ self.old.store }
        ensures live { self.new.live ≡ self.old.live }
        ensures latest { self.new.latest ≡ self.old.latest }
        ensures allowed { self.new.allow ≡ self.old.allow }
        ensures counts { counts_of self.new ≡ counted (counts_of self.old) reply.now }
    {
        let (requests, refused) = counted(self.requests, self.refused, reply);
        self.requests = requests;
        self.refused = refused;
    }

    /// Answers a request.
    fn answer<M: Maker, L: Ledger>(
        &mut self,
        alloc: Global,
        request: &Request,
        day: Day,
        maker: &mut M,
        steps: &mut Steps<L>,
    ) -> Reply
        requires { IsDay day.0 }
        ensures maker { TellsReply request.now day.0 (M.refusals maker.old) (M.refusals maker.new)
            (M.last_refused maker.old) (M.last_refused maker.new) result }
        ensures rule { TellsRule request.now (state_of self.old).text day.0
            (M.refusals maker.old) (M.refusals maker.new) (M.last_refused maker.new) result }
        ensures served { Serves (state.answer_to (state_of self.old) day.0 request.now)
            (state.deed_in (state_of self.old) request.now) self.old result self.new }
        ensures counts { counts_of self.new ≡ counts_of self.old }
        ensures steps { CountsRequest self.old.live (state_of self.old) day.0 request.now result
            steps.old steps.new }
    {
        match request {
            Request::Report { words } => self.report(alloc, words.as_slice(), day, maker, steps),
            Request::Download => self.download(alloc),
            Request::Add { entry } => self.edit(alloc, Allow::Add, add(alloc, entry), steps),
            Request::Change { base, item, entry } => {
                self.edit(
                    alloc,
                    Allow::Edit,
                    change(alloc, *base, *item, entry),
                    steps,
                )
            }
            Request::Replace { base, text } => {
                self.edit(alloc, Allow::Edit, replace(alloc, *base, text), steps)
            }
            Request::Import { name, rules, csv } => self.import(
                alloc,
                name,
                rules.as_slice(),
                csv.as_slice(),
                maker,
                steps,
            ),
            Request::Check { entry } => self.check(alloc, add(alloc, entry), steps),
            Request::Preview { name, rules, csv } => self.preview(
                alloc,
                name,
                rules.as_slice(),
                csv.as_slice(),
                maker,
                steps,
            ),
        }
    }

    /// The reply to a report.
    fn report<M: Maker, L: Ledger>(
        &self,
        alloc: Global,
        words: &[Text],
        day: Day,
        maker: &mut M,
        steps: &mut Steps<L>,
    ) -> Reply
        requires { IsDay day.0 }
        ensures maker { (q : Asked) → TellsReply q day.0
            (M.refusals maker.old) (M.refusals maker.new)
            (M.last_refused maker.old) (M.last_refused maker.new) result }
        ensures rule { TellsRule (Request.Report words.now) self.now.live.text day.0
            (M.refusals maker.old) (M.refusals maker.new) (M.last_refused maker.new) result }
        ensures reply { Replies self.now.live.revision day.0 self.now.live.text words.now result }
        ensures steps { AsksReport day.0 self.now.live.year self.now.live.text words.now
            steps.old steps.new }
    {
        let made = report_text(alloc, &self.live, words, day, maker, steps);
        report_reply(self.live.revision(), made)
    }

    /// The reply to a download.
    fn download(&self, alloc: Global) -> Reply
        ensures { (result ≡ Reply.Memory)
            ⊎ (result ≡ Reply.Text self.now.live.revision self.now.live.text) }
    {
        match Bytes::copied(alloc, self.live.text()) {
            Ok(bytes) => Reply::Text {
                revision: self.live.revision(),
                bytes,
            },
            Err(Memory) => Reply::Memory,
        }
    }
}

/// Whether a request asks for a plain balance.
fn is_plain(alloc: Global, request: &Request, day: Day) -> bool
    requires { IsDay day.0 }
{
    match request {
        Request::Report { words } => asks_sums(alloc, words.as_slice(), day),
        Request::Download => false,
        Request::Add { entry: _ } => false,
        Request::Change {
            base: _,
            item: _,
            entry: _,
        } => false,
        Request::Replace { base: _, text: _ } => false,
        Request::Import {
            name: _,
            rules: _,
            csv: _,
        } => false,
        Request::Check { entry: _ } => false,
        Request::Preview {
            name: _,
            rules: _,
            csv: _,
        } => false,
    }
}
