//! A machine that is served at the doors of a house, and then closed.
ghost use Rattle.std.specs.Prelude.{◌≡◌};
ghost use Rattle.shared_desk.specs.Stays.{kit_told};
ghost use Rattle.text_store.specs.Stores.{disks};
ghost use Rattle.serve_commands.specs.Hosting.{ServesDesk, tally_of};

use crate::outcome::Tally;
use desk::Desk;
use desk_team::{Address, Crew, Hosted, House, HouseFault, serve_house};
use hl_base::Disk;
use std::alloc::Global;
use std::sync::Wait;
use std::thread::Threads;
use web_messages::page::Page;

/// Closes a machine that was served: its disks, and what is told.
fn close_hosted<D: Disk>(hosted: Hosted<D>) -> (D, D, Tally)
    ensures disks { (result.0, result.1) ≡ disks hosted.desk.store }
    ensures told { result.2 ≡ tally_of hosted.desk hosted.failed }
{
    let Hosted {
        desk,
        pass: _,
        failed,
    } = hosted;
    let (revision, requests, refused) = desk.counts();
    let (first, second) = desk.close();
    let tally = Tally {
        revision,
        requests,
        refused,
        failed,
    };
    (first, second, tally)
}

/// Serves a machine at an address of a house until all workers have ended, and closes it: its disks, and what is told, or why it
/// wasn't served.
pub(crate) fn serve_desk<H: House, D: Disk + Send, W: Threads + Wait + Sync>(
    rt: &W,
    alloc: Global,
    page: &Page,
    house: &mut H,
    desk: Desk<D>,
    address: Address,
    crew: Crew,
) -> (D, D, Result<Tally, HouseFault>)
    ensures { ServesDesk (kit_told H.Door.Door H.Clock.Clock H.Maker.Maker)
        H.Door.Link.coming H.Door.Link.sent page.now desk address crew (H.told house.old) (H.told house.new)
        result.2 (result.0, result.1) }
{
    match serve_house(rt, alloc, page, house, address, desk, crew) {
        Ok(hosted) => {
            let (first, second, tally) = close_hosted(hosted);
            (first, second, Ok(tally))
        }
        Err((desk, fault)) => {
            let (first, second) = desk.close();
            (first, second, Err(fault))
        }
    }
}
