//! Two disks that are opened as a machine, which is served and closed.
ghost use Rattle.std.specs.Prelude.{◌≡◌};
ghost use Rattle.shared_desk.specs.Stays.{kit_told};
ghost use Rattle.serve_commands.specs.Hosting as spec;

use crate::hosting::serve_desk;
use crate::outcome::{Tally, Unserved};
use crate::store::Post;
use desk::Desk;
use desk_team::{House, HouseFault};
use hl_base::{Disk, Steps};
use std::alloc::Global;
use std::sync::Wait;
use std::sync::ledger::Ledger;
use std::thread::Threads;
use store_commands::of_opening;
use web_messages::page::Page;

/// Why a machine wasn't served.
fn of_house(served: Result<Tally, HouseFault>) -> Result<Tally, Unserved>
    ensures { result ≡ spec.of_house served }
{
    match served {
        Ok(tally) => Ok(tally),
        Err(fault) => Err(Unserved::House(fault)),
    }
}

/// Opens two disks as a machine, with what is allowed, serves it until all workers have ended, and closes it: the disks, and what
/// is told, or why it wasn't served.
pub(crate) fn serve_disks<H: House, D: Disk + Send, W: Threads + Wait + Sync, L: Ledger>(
    rt: &W,
    alloc: Global,
    page: &Page,
    first: D,
    second: D,
    post: Post,
    house: &mut H,
    steps: &mut Steps<L>,
) -> (D, D, Result<Tally, Unserved>)
    ensures { spec.ServesDisks D.Disk (kit_told H.Door.Door H.Clock.Clock H.Maker.Maker)
        H.Door.Link.coming H.Door.Link.sent page.now post (first, second) (result.0, result.1)
        (H.told house.old) (H.told house.new) result.2 }
{
    let Post {
        address,
        allow,
        crew,
    } = post;
    match Desk::open(alloc, first, second, allow, steps) {
        Ok(desk) => {
            let (first, second, served) = serve_desk(rt, alloc, page, house, desk, address, crew);
            (first, second, of_house(served))
        }
        Err((first, second, fault)) => (first, second, Err(Unserved::Store(of_opening(fault)))),
    }
}
