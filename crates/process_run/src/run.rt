//! A run whose words, zone, day, input, files, sockets and outputs are those of the process.

ghost use Rattle.std.specs.Prelude.{◌≡◌, IfOk, drop, map};
ghost use Rattle.std.specs.List.{list_any};
ghost use Rattle.std.specs.Process.{exit_status};
ghost use Rattle.std.specs.String.{string_bytes};
ghost use Rattle.std.specs.Vec.Iter.{into_iter_items};
ghost use Rattle.hl_time.specs.Calendar.{IsDay};
ghost use Rattle.refusals.specs.Errors.{memory_line, usage_line};
ghost use Rattle.shared_desk.specs.Stays.{kit_told};
ghost use Rattle.command_line.specs.Answers.{Says};
ghost use Rattle.serve_line.specs.Runs.{IsServeStatus};
ghost use Rattle.process_run.specs.Pages.{is_page_word, IsPageIf, IsPageFor};
ghost use Rattle.process_run.specs.Running.{RunsAs};

use crate::clock::today;
use crate::house::SocketHouse;
use crate::streams::{Input, Output};
use crate::zone::local_zone;
use command_line::{Outside, Status, Streams, say};
use desk_team::House;
use hl_base::{Memory, Shelf, Sink, Source, Steps, Text};
use hl_time::Day;
use local_day::Zone;
use page_text::built_page;
use query::{Maker, RegexMaker};
use real_files::FileShelf;
use serve_line::{Site, run_program};
use std::alloc::Global;
use std::env::Args;
use std::fs::File;
use std::io::{Read, Write};
use std::marker::Brand;
use std::net::{Net, TcpListener, TcpStream};
use std::process::ExitCode;
use std::rt::{Clock, Env, Files};
use std::sync::Wait;
use std::sync::ledger::{Blank, Ledger};
use std::thread::Threads;
use std::{env, io};
use web_messages::page::Page;

/// Why there are no words, or no zone.
#[derive(Clone, Copy)]
enum NoWords {
    /// One isn't UTF-8.
    Encoding,
    /// Memory ran out.
    Memory,
}

impl From<io::Error> for NoWords {
    fn from(error: io::Error) -> NoWords {
        match error.kind() {
            io::ErrorKind::InvalidData => NoWords::Encoding,
            _ => NoWords::Memory,
        }
    }
}

impl From<Memory> for NoWords {
    fn from(_error: Memory) -> NoWords {
        NoWords::Memory
    }
}

/// Runs the program on the process's words and on today in its zone, over these streams and the files and sockets of the
/// operating system. Where there are no words, or no zone, the input isn't read, and the line that says why is written.
pub fn run_process<
    R: Env
        + Clock
        + Files<File = File>
        + Net<Listener = TcpListener, Stream = TcpStream>
        + Threads
        + Wait
        + Sync
        + AllocGlobal,
    I: Read + Drop,
    O: Write + Drop,
    E: Write + Drop,
>(rt: &R, input: I, output: O, errors: E) -> ExitCode
    ensures { IsServeStatus (exit_status result) }
{
    match begin(rt) {
        Ok((words, zone, page)) => {
            let mut site = Site {
                outside: Outside {
                    streams: Streams {
                        input: Input::new(input),
                        output: Output::new(output),
                    },
                    err: Output::new(errors),
                    shelf: FileShelf::new(rt),
                    maker: RegexMaker::new(),
                },
                house: SocketHouse::new(rt, &zone, !limits_connections(words.as_slice())),
                page,
            };
            counted::<Brand, _, _, _, _, _, _, _>(
                rt,
                rt.alloc(),
                Blank::new(3),
                words.as_slice(),
                today(rt, &zone),
                &mut site,
            )
        }
        Err(why) => code_of(refuse(&mut Output::new(errors), why)),
    }
}

/// The exit code of a status.
fn code_of(status: Status) -> ExitCode
    ensures { exit_status result ≡ status.0 }
{
    let Status(status) = status;
    ExitCode::from(status)
}

/// The words after the program's name, the zone in which its days are, and the page that it may show.
fn begin<R: Env + Files + AllocGlobal>(rt: &R) -> Result<(Vec<Text>, Zone, Page), NoWords> {
    let words = words(rt)?;
    let zone = local_zone(rt)?;
    let page = page_for(rt.alloc(), words.as_slice())?;
    Ok((words, zone, page))
}

/// The words after the program's name.
fn words<R: Env + AllocGlobal>(rt: &R) -> Result<Vec<Text>, NoWords> {
    let words = but_the_first(rt.alloc(), env::args(rt)?)?;
    Ok(words)
}

/// The arguments but the first, which is the program's name.
fn but_the_first(alloc: Global, args: Args) -> Result<Vec<Text>, Memory>
    ensures { IfOk result (λ words.
        words.items ≡ drop 1 (map string_bytes (into_iter_items args))) }
{
    let mut words = Vec::new(alloc);
    for word in args.skip(1) {
        words.push(Text::from_string(word))?;
    }
    Ok(words)
}

/// The page that may be shown: the program's, where a word asks for it.
fn page_for(alloc: Global, words: &[Text]) -> Result<Page, Memory>
    ensures { IfOk result (IsPageFor words.now) }
{
    page_if(alloc, asks_page(words))
}

/// The program's page, if it is asked for.
fn page_if(alloc: Global, asked: bool) -> Result<Page, Memory>
    ensures { IfOk result (IsPageIf asked) }
{
    if asked {
        built_page(alloc)
    } else {
        Ok(Page::Absent)
    }
}

/// Whether one of the words asks for the page.
fn asks_page(words: &[Text]) -> bool
    ensures { result ≡ list_any is_page_word words.now }
{
    words.iter().any(|word| is_page_word(word))
}

/// Whether a word asks for the page.
fn is_page_word(word: &Text) -> bool
    ensures { result ≡ is_page_word word.now }
{
    word.as_bytes() == b"--page".as_slice()
}

/// Whether the words limit the connections that each worker serves.
fn limits_connections(words: &[Text]) -> bool {
    words
        .iter()
        .any(|word| word.as_bytes().starts_with(b"--connections"))
}

/// Says why the program doesn't begin: a word that isn't UTF-8 is a faulty command line, with status 2, and for want of
/// memory it is 6. Where the line can't be written it is 4.
fn refuse<E: Sink>(err: &mut E, why: NoWords) -> Status
    ensures encoding { why ≡ NoWords.Encoding → Says result.0 2 usage_line
        (E.written err.old) (E.written err.new) (E.faults err.old) (E.faults err.new) }
    ensures memory { why ≡ NoWords.Memory → Says result.0 6 memory_line
        (E.written err.old) (E.written err.new) (E.faults err.old) (E.faults err.new) }
    ensures status { IsServeStatus result.0 }
{
    match why {
        NoWords::Encoding => say(err, 2, b"error: usage\n"),
        NoWords::Memory => say(err, 6, b"error: memory\n"),
    }
}

/// The exit code of a run whose steps are counted in a ledger of its own.
fn counted<
    L: Ledger,
    J: Source,
    O: Sink,
    E: Sink,
    S: Shelf,
    M: Maker,
    H: House,
    W: Threads + Wait + Sync,
>(
    rt: &W,
    alloc: Global,
    blank: Blank,
    words: &[Text],
    day: Day,
    site: &mut Site<J, O, E, S, M, H>,
) -> ExitCode
    requires name { blank.name ≡ L.name }
    requires parts { blank.parts ≡ L.parts }
    requires three { blank.parts ≡ 3 }
    requires day { IsDay day.0 }
    ensures { RunsAs J.Source O.Sink E.Sink S.Shelf S.Disk.Disk M.Maker
        (kit_told H.Door.Door H.Clock.Clock H.Maker.Maker) H.Door.Link.coming H.Door.Link.sent
        H.told words.now day (exit_status result) site.old site.new }
{
    let mut steps = Steps::<L>::start(blank);
    code_of(run_program(rt, alloc, words, day, site, &mut steps))
}
