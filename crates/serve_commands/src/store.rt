//! A store among the files of a shelf that is served at the doors of a house.
ghost use Rattle.std.specs.Prelude.{◌≡◌};
ghost use Rattle.shared_desk.specs.Stays.{kit_told};
ghost use Rattle.store_text.specs.Shelved.{second_name as second_name_of};
ghost use Rattle.serve_commands.specs.Stores.{ServesStore};

use crate::disks::serve_disks;
use crate::outcome::{Tally, Unserved};
use desk::Allow;
use desk_team::{Address, Crew, House};
use hl_base::{Shelf, Steps, Text};
use std::alloc::Global;
use std::sync::Wait;
use std::sync::ledger::Ledger;
use std::thread::Threads;
use store_making::{JournalRefusal, of_store};
use store_text::{give_back_disks, second_name, take_disks};
use web_messages::page::Page;

/// Where a store is served, what its requests may do, and by how many workers.
#[derive(Drop)]
pub struct Post {
    pub address: Address,
    pub allow: Allow,
    pub crew: Crew,
}

/// Serves the store, whose second file has the other name.
fn serve_beside<S: Shelf, H: House, W: Threads + Wait + Sync, L: Ledger>(
    rt: &W,
    alloc: Global,
    page: &Page,
    name: &Text,
    beside: &Text,
    post: Post,
    shelf: &mut S,
    house: &mut H,
    steps: &mut Steps<L>,
) -> Result<Tally, Unserved>
    requires { beside.now ≡ second_name_of name.now }
    ensures { ServesStore S.Shelf S.Disk.Disk name.now
        (kit_told H.Door.Door H.Clock.Clock H.Maker.Maker) H.Door.Link.coming H.Door.Link.sent page.now post
        shelf.old shelf.new (H.told house.old) (H.told house.new) result }
{
    match take_disks(alloc, shelf, name, beside, false) {
        Ok((first, second)) => {
            let (first, second, served) = serve_disks(
                rt, alloc, page, first, second, post, house, steps,
            );
            give_back_disks(shelf, name, beside, first, second);
            served
        }
        Err(refusal) => Err(Unserved::Store(of_store(refusal))),
    }
}

/// Serves a store at an address of a house until all workers have ended, each with its kit and up to so many links. Both disks are
/// taken from the shelf and come back; the second file is made where it is absent. It isn't served where the first file is absent,
/// where the files are no store or one of a later edition, where its text makes no journal, where a disk couldn't be taken, where
/// a call of a disk failed, where the house didn't bind or hand out its kits, and where memory ran out. The house is asked to bind
/// at most once, and only where the store was opened.
pub fn serve_store<S: Shelf, H: House, W: Threads + Wait + Sync, L: Ledger>(
    rt: &W,
    alloc: Global,
    page: &Page,
    name: &Text,
    post: Post,
    shelf: &mut S,
    house: &mut H,
    steps: &mut Steps<L>,
) -> Result<Tally, Unserved>
    ensures { ServesStore S.Shelf S.Disk.Disk name.now
        (kit_told H.Door.Door H.Clock.Clock H.Maker.Maker) H.Door.Link.coming H.Door.Link.sent page.now post
        shelf.old shelf.new (H.told house.old) (H.told house.new) result }
{
    let Ok(beside) = second_name(alloc, name) else {
        return Err(Unserved::Store(JournalRefusal::Memory));
    };
    serve_beside(rt, alloc, page, name, &beside, post, shelf, house, steps)
}
