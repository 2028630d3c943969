//! Reports over the text of a follower.
ghost use Rattle.std.specs.Prelude.{◌≡◌};
ghost use Rattle.hl_time.specs.Calendar.{IsDay};
ghost use Rattle.follower_reports.specs.Showing.{Shows, told as told_of};

use desk::report_text;
use follower::Follower;
use hl_base::{Bytes, Disk, Steps, Text};
use hl_time::Day;
use live_journal::{Live, OpenFault};
use plan_commands::PlanFault;
use query::Maker;
use std::alloc::Global;
use std::sync::ledger::Ledger;

/// Why there is no report.
#[derive(Debug, Drop)]
pub enum ShowFault {
    /// The text makes no journal, or memory ran out before it made one.
    Load(OpenFault),
    /// What is wrong with the words, with what the text's rules make, or with the report; or memory ran out.
    Report(PlanFault),
}

/// The report that was made, or why none was.
fn told(made: Result<Bytes, PlanFault>) -> Result<Bytes, ShowFault>
    ensures { result ≡ told_of made }
{
    match made {
        Ok(output) => Ok(output),
        Err(fault) => Err(ShowFault::Report(fault)),
    }
}

/// The report of a text without a year before it.
fn report_image<M: Maker, L: Ledger>(
    alloc: Global,
    text: &[u8],
    words: &[Text],
    day: Day,
    maker: &mut M,
    steps: &mut Steps<L>,
) -> Result<Bytes, ShowFault>
    requires { IsDay day.0 }
    ensures { Shows day.0 text.now words.now (M.refusals maker.old) (M.refusals maker.new)
        (M.last_refused maker.old) (M.last_refused maker.new) result }
{
    match Live::open(alloc, text, None, 0, steps) {
        Ok(live) => told(report_text(alloc, &live, words, day, maker, steps)),
        Err(fault) => Err(ShowFault::Load(fault)),
    }
}

/// The output of a report over the text of a follower, which has no year before it, on a day, by the patterns that a maker builds: the
/// first word is the command, and those after it are its options and its query. The text is loaded first, and then the report is
/// that of the machine over the same text.
pub fn report_follower<D: Disk, M: Maker, L: Ledger>(
    alloc: Global,
    follower: &Follower<D>,
    words: &[Text],
    day: Day,
    maker: &mut M,
    steps: &mut Steps<L>,
) -> Result<Bytes, ShowFault>
    requires { IsDay day.0 }
    ensures { Shows day.0 follower.now.image.text words.now (M.refusals maker.old)
        (M.refusals maker.new)
        (M.last_refused maker.old) (M.last_refused maker.new) result }
{
    let image = follower.image();
    report_image(alloc, image.text.as_slice(), words, day, maker, steps)
}

/// What holds a text that reports are made of, as a replica does.
pub trait Reported {
    ghost use Rattle.std.specs.Prelude.{ℕ, List};

    /// The text that it holds.
    ghost text: { Self → List ℕ };

    /// The output of a report over its text, as `report_follower` makes it of a replica's.
    fn report<M: Maker, L: Ledger>(
        &self,
        alloc: Global,
        words: &[Text],
        day: Day,
        maker: &mut M,
        steps: &mut Steps<L>,
    ) -> Result<Bytes, ShowFault>
        requires { IsDay day.0 }
        ensures { Shows day.0 (text self.now) words.now (M.refusals maker.old)
            (M.refusals maker.new)
            (M.last_refused maker.old) (M.last_refused maker.new) result };
}

impl<D: Disk> Reported for Follower<D> {
    ghost text = { λ f. f.image.text };

    fn report<M: Maker, L: Ledger>(
        &self,
        alloc: Global,
        words: &[Text],
        day: Day,
        maker: &mut M,
        steps: &mut Steps<L>,
    ) -> Result<Bytes, ShowFault> {
        report_follower(alloc, self, words, day, maker, steps)
    }
}
