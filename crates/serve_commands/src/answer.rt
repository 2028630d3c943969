//! What is answered to `serve`.
ghost use Rattle.std.specs.Prelude.{◌≡◌, ◌≤◌, ℕ, IfOk, List, Ok, Err, length};
ghost use Rattle.shared_desk.specs.Stays.{kit_told};
ghost use Rattle.serve_commands.specs.Lines.{IsSaid, RefusedAs, line_of, most_of_a_tally, status_of};
ghost use Rattle.serve_commands.specs.Answering.{Serves};

use crate::lines::{tally_line, unserved_line, unserved_status};
use crate::outcome::{Tally, Unserved};
use crate::store::{Post, serve_store};
use desk::Allow;
use desk_team::{Address, Crew, House};
use hl_base::{Bytes, Memory, Shelf, Steps, Text};
use refusals::Refusal;
use std::alloc::Global;
use std::sync::Wait;
use std::sync::ledger::Ledger;
use std::thread::Threads;
use web_messages::page::Page;

/// What `serve` is asked for: the name of the store, the address at which its doors are, what its requests may do, how many
/// workers serve how many links each, and the page that they show, if there is one.
#[derive(Drop)]
pub struct Serving {
    pub store: Text,
    pub address: Address,
    pub allow: Allow,
    pub crew: Crew,
    pub page: Page,
}

/// What is said when all workers have ended: the line of the last revision and of the counts of requests and refusals, and whether
/// a call of a door failed, for which the exit status is 9 though the line is the output.
#[derive(Drop)]
pub struct Ended {
    pub line: Bytes,
    pub failed: bool,
}

/// What is said of a store that was served.
fn say_tally(alloc: Global, tally: &Tally) -> Result<Ended, Refusal>
    ensures said { (name : List ℕ) → IsSaid name (Ok tally.now) result }
    ensures short { IfOk result (λ said. length said.line ≤ most_of_a_tally) }
{
    match tally_line(alloc, tally) {
        Ok(line) => {
            let failed = tally.failed;
            Ok(Ended { line, failed })
        }
        Err(Memory) => Err(Refusal::Memory),
    }
}

/// Why the store of a name wasn't served.
fn refuse(alloc: Global, name: &Text, unserved: &Unserved) -> Refusal
    ensures { RefusedAs (status_of unserved.now) (line_of name.now unserved.now) result }
{
    let status = unserved_status(unserved);
    match unserved_line(alloc, name, unserved) {
        Ok(line) => Refusal::Line { status, line },
        Err(Memory) => Refusal::Memory,
    }
}

/// What is said of how a store was served, or why it wasn't.
fn say(alloc: Global, name: &Text, served: &Result<Tally, Unserved>) -> Result<Ended, Refusal>
    ensures said { IsSaid name.now served.now result }
    ensures short { IfOk result (λ said. length said.line ≤ most_of_a_tally) }
{
    match served {
        Ok(tally) => say_tally(alloc, tally),
        Err(unserved) => Err(refuse(alloc, name, unserved)),
    }
}

/// Serves a store at an address of a house until all workers have ended, and says what came of it: the line of the last revision,
/// of the requests and of those that were refused; or why nothing was served. Each worker takes links at the door of its own kit,
/// at most so many, and answers them in turn with the others; what it enters into the one history is exactly what came over its
/// links. The exit status of a refusal is 9 where the house didn't bind or hand out its kits, and else that of another command over
/// a store.
pub fn serve<S: Shelf, H: House, W: Threads + Wait + Sync, L: Ledger>(
    rt: &W,
    alloc: Global,
    serving: Serving,
    shelf: &mut S,
    house: &mut H,
    steps: &mut Steps<L>,
) -> Result<Ended, Refusal>
    ensures { Serves S.Shelf S.Disk.Disk (kit_told H.Door.Door H.Clock.Clock H.Maker.Maker)
        H.Door.Link.coming H.Door.Link.sent serving shelf.old shelf.new
        (H.told house.old) (H.told house.new) result }
{
    let Serving {
        store,
        address,
        allow,
        crew,
        page,
    } = serving;
    let post = Post {
        address,
        allow,
        crew,
    };
    let served = serve_store(rt, alloc, &page, &store, post, shelf, house, steps);
    say(alloc, &store, &served)
}
