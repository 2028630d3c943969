//! One run of `serve` over memory.
ghost use Rattle.std.specs.Prelude.{◌≡◌, ◌∷◌, [], true, All, IfOk};
ghost use Rattle.desk_team.specs.Houses.{IsNew, is_sound};
ghost use Rattle.serve_commands.specs.Lines.{most_of_a_tally};
ghost use Rattle.serve_rows.specs.Rooms.{HasRoomTo, IsSound, most_of_a_fault};

use command_line::{Outside, Streams};
use desk_team::{House, MemHouse};
use hl_base::{
    Bytes, List, MemClock, MemDoor, MemLink, MemShelf, MemSink, MemSource, Memory, Sink, Steps,
    Text,
};
use hl_time::Day;
use query::{Maker, RegexMaker};
use serve_line::{Site, run_program};
use shared_desk::Kit;
use std::alloc::Global;
use std::marker::Brand;
use std::sync::Wait;
use std::sync::ledger::{Blank, Ledger};
use std::thread::Threads;
use web_messages::page::Page;

/// A kit in memory.
pub type MemKit = Kit<MemDoor, MemClock, RegexMaker>;

/// Streams, a shelf and a maker of patterns in memory.
pub type MemOutside = Outside<MemSource, MemSink, MemSink, MemShelf, RegexMaker>;

/// The objects of a run in memory.
pub type MemSite = Site<MemSource, MemSink, MemSink, MemShelf, RegexMaker, MemHouse<RegexMaker>>;

/// The words, the bytes of the one link of the one worker, and the numbers of the calls of the house and of its door that are to
/// fail.
#[derive(Clone, Copy)]
pub struct Case<'a> {
    pub words: &'a [&'a str],
    pub bytes: &'a [u8],
    pub house_fails: &'a [u64],
    pub door_fails: &'a [u64],
}

/// The exit status, and what was written.
#[derive(Debug, Drop)]
pub struct Seen {
    pub status: u8,
    pub output: Bytes,
    pub error: Bytes,
}

/// A store of one entry.
const HOME: &[u8] =
    b"HLSTORE\x02\x00\x00\x01\x00\x00\x00\x00\x00\x01\x00\x00\x00\x00\x00\x00\x00\x00\x00\x00\x00\x00\x00\x00\x00\x01C\x48\x00\x00\x00\x00\x00\x00\x00\x00\x00\x00\x002024-01-05 bread\n    expenses:food  10 EUR\n    assets:cash  -10 EUR\n\x00";

/// The room of each output, file and link, in bytes.
const ROOM: u64 = 65536;

/// A shelf with the store's two files, of which the second is empty.
fn shelf_of(alloc: Global) -> Result<MemShelf, Memory> {
    let mut files = Vec::new(alloc);
    files.push((Text::copied(alloc, "home")?, Bytes::copied(alloc, HOME)?))?;
    files.push((Text::copied(alloc, "home.2")?, Bytes::new(alloc)))?;
    MemShelf::new(alloc, List::from_vec(files), ROOM, None, &[], &[])
}

/// A door to which one link comes.
fn door_of(alloc: Global, case: &Case) -> Result<MemDoor, Memory>
    ensures { IfOk result (λ door. IsNew door 0
        × (case.now.door_fails.now ≡ [] → is_sound door ≡ true)) }
{
    let mut links = Vec::new(alloc);
    links.push(MemLink::new(alloc, case.bytes, ROOM, &[])?)?;
    let door = MemDoor::new(alloc, List::from_vec(links), case.door_fails)?;
    Ok(door)
}

/// The kit of the one worker.
fn kit_of(door: MemDoor) -> MemKit
    requires { IsNew door 0 }
    ensures { IsNew result.door (⟦<RegexMaker as Maker>⟧.refusals result.maker)
        × (result.door ≡ door) }
{
    let clock = MemClock::new(739_052);
    let maker = RegexMaker::new();
    Kit { door, clock, maker }
}

/// A list of this kit.
fn one_kit(alloc: Global, kit: MemKit) -> Result<List<MemKit>, Memory>
    requires { IsNew kit.door (⟦<RegexMaker as Maker>⟧.refusals kit.maker) }
    ensures new { IfOk result (All (λ kit.
        IsNew kit.door (⟦<RegexMaker as Maker>⟧.refusals kit.maker))) }
    ensures one { IfOk result (λ kits. kits ≡ kit ∷ []) }
{
    let mut kits = Vec::new(alloc);
    kits.push(kit)?;
    Ok(List::from_vec(kits))
}

/// A house with that kit.
fn house_of(alloc: Global, case: &Case) -> Result<MemHouse<RegexMaker>, Memory>
    ensures { IfOk result (λ house. case.now.house_fails.now ≡ [] → case.now.door_fails.now ≡ []
        → IsSound (⟦<MemHouse<RegexMaker> as House>⟧.told house) 1) }
{
    let door = door_of(alloc, case)?;
    let kits = one_kit(alloc, kit_of(door))?;
    let house = MemHouse::new(alloc, kits, case.house_fails)?;
    Ok(house)
}

/// Outputs with room, an empty input, and the shelf with the store.
fn outside_of(alloc: Global) -> Result<MemOutside, Memory>
    ensures output { IfOk result (λ outside.
        HasRoomTo ⟦<MemSink as Sink>⟧ outside.streams.output most_of_a_tally) }
    ensures error { IfOk result (λ outside.
        HasRoomTo ⟦<MemSink as Sink>⟧ outside.err most_of_a_fault) }
{
    let input = MemSource::new(alloc, b"", &[])?;
    let output = MemSink::new(alloc, ROOM, &[])?;
    let err = MemSink::new(alloc, ROOM, &[])?;
    let shelf = shelf_of(alloc)?;
    Ok(Outside {
        streams: Streams { input, output },
        err,
        shelf,
        maker: RegexMaker::new(),
    })
}

/// The objects of the case.
pub fn site_of(alloc: Global, case: &Case) -> Result<MemSite, Memory>
    ensures sound { IfOk result (λ site. case.now.house_fails.now ≡ []
        → case.now.door_fails.now ≡ []
        → IsSound (⟦<MemHouse<RegexMaker> as House>⟧.told site.house) 1) }
    ensures output { IfOk result (λ site.
        HasRoomTo ⟦<MemSink as Sink>⟧ site.outside.streams.output most_of_a_tally) }
    ensures error { IfOk result (λ site.
        HasRoomTo ⟦<MemSink as Sink>⟧ site.outside.err most_of_a_fault) }
{
    let outside = outside_of(alloc)?;
    let page = page_of(alloc)?;
    let house = house_of(alloc, case)?;
    Ok(Site {
        outside,
        house,
        page,
    })
}

/// A page.
pub fn page_of(alloc: Global) -> Result<Page, Memory> {
    let text = Bytes::copied(alloc, b"<p>Books</p>\n")?;
    let policy = Text::copied(alloc, "default-src 'none'")?;
    Ok(Page::Shown { text, policy })
}

/// The words of a case.
pub fn words_of(alloc: Global, words: &[&str]) -> Result<Vec<Text>, Memory> {
    let mut copies = Vec::new(alloc);
    for word in words {
        copies.push(Text::copied(alloc, word)?)?;
    }
    Ok(copies)
}

/// Runs the program on the case.
pub fn answer<W: Threads + Wait + Sync>(
    rt: &W,
    alloc: Global,
    case: &Case,
) -> Result<Seen, Memory> {
    counted::<Brand, W>(rt, alloc, Blank::new(3), case)
}

fn counted<L: Ledger, W: Threads + Wait + Sync>(
    rt: &W,
    alloc: Global,
    blank: Blank,
    case: &Case,
) -> Result<Seen, Memory>
    requires name { blank.name ≡ L.name }
    requires parts { blank.parts ≡ L.parts }
    requires three { blank.parts ≡ 3 }
{
    let words = words_of(alloc, case.words)?;
    let mut site = site_of(alloc, case)?;
    let mut steps = Steps::<L>::start(blank);
    let status = run_program(
        rt,
        alloc,
        words.as_slice(),
        Day(739_052),
        &mut site,
        &mut steps,
    );
    Ok(Seen {
        status: status.0,
        output: Bytes::copied(alloc, site.outside.streams.output.as_slice())?,
        error: Bytes::copied(alloc, site.outside.err.as_slice())?,
    })
}
