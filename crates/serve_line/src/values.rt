//! What the values of the options of `serve` mean.
ghost use Rattle.std.specs.Prelude.{◌≡◌, IfOk};
ghost use Rattle.hl_base.specs.Gives.{Gives};
ghost use Rattle.serve_line.specs.Words as spec;

use crate::matched::Said;
use crate::numbers::number_or;
use crate::words::NoReading;
use command_words::allow_named;
use desk::Allow;
use desk_team::{Address, Crew};
use hl_base::{Memory, Text};
use serve_commands::Serving;
use std::alloc::Global;
use web_messages::page::Page;

/// The most workers.
const MOST_WORKERS: u64 = 16;

/// The greatest port.
const MOST_PORT: u64 = 65_535;

/// The most links of a worker.
const MOST_LINKS: u64 = 4_294_967_295;

/// What requests may do: add, where nothing is written.
fn allow_or(written: Option<Text>) -> Option<Allow>
    ensures { result ≡ spec.allow_or written }
{
    match written {
        Some(word) => allow_named(word.as_bytes()),
        None => Some(Allow::Add),
    }
}

/// The host: this machine alone, where none is written.
fn host_or(alloc: Global, written: Option<Text>) -> Result<Text, Memory>
    ensures { IfOk result (λ host. host ≡ spec.host_or written) }
{
    match written {
        Some(host) => Ok(host),
        None => Text::copied(alloc, "127.0.0.1"),
    }
}

/// The port.
fn port_or(written: Option<Text>) -> Option<u16>
    ensures { result ≡ spec.port_or written }
{
    match number_or(5000, MOST_PORT, written) {
        Some(port) => Some(port as u16),
        None => None,
    }
}

/// How many workers serve how many links each.
fn crew_or(workers: Option<Text>, links: Option<Text>) -> Option<Crew>
    ensures { result ≡ spec.crew_or workers links }
{
    match number_or(4, MOST_WORKERS, workers) {
        Some(workers) => match number_or(MOST_LINKS, MOST_LINKS, links) {
            Some(links) => {
                let workers = workers as usize;
                Some(Crew { workers, links })
            }
            None => None,
        },
        None => None,
    }
}

/// The page that the program has, where it is asked for.
fn page_if(alloc: Global, asked: bool, page: &Page) -> Result<Page, Memory>
    ensures { IfOk result (λ shown. shown ≡ spec.page_if asked page.now) }
{
    if asked {
        page.copied(alloc)
    } else {
        Ok(Page::Absent)
    }
}

/// A value that has a reading.
fn read<T: Drop>(value: Option<T>) -> Result<T, NoReading>
    ensures { Gives (λ value. value) spec.no_reading_cause result (spec.read value) }
{
    match value {
        Some(value) => Ok(value),
        None => Err(NoReading::Usage),
    }
}

/// The address.
fn address_or(alloc: Global, host: Option<Text>, port: Option<Text>) -> Result<Address, NoReading>
    ensures { Gives (λ address. address) spec.no_reading_cause result (spec.address_or host port) }
{
    let port = read(port_or(port))?;
    let host = host_or(alloc, host)?;
    Ok(Address { host, port })
}

/// What is asked for by what is said, of a program that has this page.
pub(crate) fn asked_by(alloc: Global, page: &Page, said: Said) -> Result<Serving, NoReading>
    ensures { Gives (λ asked. asked) spec.no_reading_cause result (spec.asked_by page.now said) }
{
    let Said {
        store,
        host,
        port,
        allow,
        workers,
        connections,
        page: asked,
    } = said;
    let store = read(store)?;
    let address = address_or(alloc, host, port)?;
    let allow = read(allow_or(allow))?;
    let crew = read(crew_or(workers, connections))?;
    let page = page_if(alloc, asked, page)?;
    Ok(Serving {
        store,
        address,
        allow,
        crew,
        page,
    })
}
