//! What `clap` says of the words of `serve`.
ghost use Rattle.std.specs.Prelude.{◌≡◌, codes, IfOk};
ghost use Rattle.std.specs.Str.{bytes_eq};
ghost use Rattle.hl_base.specs.Gives.{Gives};
ghost use Rattle.clap.specs.Words.{app_of, first_value, found_of, rows_of, with_rule};
ghost use Rattle.serve_line.specs.Words as spec;

use crate::words::NoReading;
use clap::error::ErrorKind;
use clap::{Arg, ArgAction, ArgMatches, Command};
use hl_base::{Memory, Text};
use std::alloc::Global;

/// What the words say: the name of the store and the value of each option, where they are written, and whether `--page` is.
#[derive(Drop)]
pub(crate) struct Said {
    pub store: Option<Text>,
    pub host: Option<Text>,
    pub port: Option<Text>,
    pub allow: Option<Text>,
    pub workers: Option<Text>,
    pub connections: Option<Text>,
    pub page: bool,
}

/// A command, and an option of this name that takes one text.
fn with_option<'a>(
    alloc: Global,
    command: Command<'a>,
    name: &'a str,
) -> Result<Command<'a>, Memory>
    ensures { IfOk result (λ more.
        app_of more ≡ with_rule (app_of command.entry) (spec.option_rule name.now)) }
{
    let option = Arg::new(alloc, name).long(name);
    let more = command.arg(option)?;
    Ok(more)
}

/// The command with the name of a store, which has to be written.
fn with_store<'a>(alloc: Global) -> Result<Command<'a>, Memory>
    ensures { IfOk result (λ command. app_of command ≡ spec.stored_app) }
{
    let name = Arg::new(alloc, "store").required(true);
    let command = Command::new(alloc, "serve").arg(name)?;
    Ok(command)
}

/// A command, and `--page`, which has no value.
fn with_page<'a>(alloc: Global, command: Command<'a>) -> Result<Command<'a>, Memory>
    ensures { IfOk result (λ more. app_of more ≡ with_rule (app_of command.entry) spec.page_rule) }
{
    let flag = Arg::new(alloc, "page")
        .long("page")
        .action(ArgAction::SetTrue);
    let more = command.arg(flag)?;
    Ok(more)
}

/// `serve`, as `clap` reads it.
fn serve_command<'a>(alloc: Global) -> Result<Command<'a>, Memory>
    ensures { IfOk result (λ command. app_of command ≡ spec.serve_app) }
{
    let stored = with_store(alloc)?;
    let hosted = with_option(alloc, stored, "host")?;
    let ported = with_option(alloc, hosted, "port")?;
    let allowed = with_option(alloc, ported, "allow")?;
    let staffed = with_option(alloc, allowed, "workers")?;
    let limited = with_option(alloc, staffed, "connections")?;
    let paged = with_page(alloc, limited)?;
    Ok(paged)
}

/// Why there are no matches.
fn no_reading_of(kind: ErrorKind) -> NoReading
    ensures { result ≡ spec.no_reading_of kind }
{
    match kind {
        ErrorKind::OutOfMemory => NoReading::Memory,
        _ => NoReading::Usage,
    }
}

/// The matches of the words.
fn match_words<'a>(command: Command<'a>, words: &'a [&'a str]) -> Result<ArgMatches<'a>, NoReading>
    requires { app_of command ≡ spec.serve_app }
    ensures { Gives (λ matches. rows_of (found_of matches)) spec.no_reading_cause result
        (spec.rows_by (spec.lent_texts words.now)) }
{
    match command.try_get_matches_from(words) {
        Ok(matches) => Ok(matches),
        Err(error) => Err(no_reading_of(error.kind())),
    }
}

/// The value of a name, where it is written.
fn value_of(alloc: Global, matches: &ArgMatches<'_>, name: &str) -> Result<Option<Text>, Memory>
    ensures { IfOk result (λ value. value ≡ first_value (found_of matches.now) name.now) }
{
    match matches.get_str(name) {
        Some(text) => Ok(Some(Text::copied(alloc, text)?)),
        None => Ok(None),
    }
}

/// Whether the value of an option says that it is written.
fn is_true(value: &str) -> bool
    ensures { result ≡ bytes_eq value.now (codes "true") }
{
    value.as_bytes() == b"true".as_slice()
}

/// Whether `--page` is written.
fn asks_page(matches: &ArgMatches<'_>) -> bool
    ensures { result ≡ spec.asks_page (first_value (found_of matches.now) (codes "page")) }
{
    match matches.get_str("page") {
        Some(value) => is_true(value),
        None => false,
    }
}

/// All values that are written.
fn values_of(alloc: Global, matches: &ArgMatches<'_>) -> Result<Said, Memory>
    ensures { IfOk result (λ said. said ≡ spec.said_in (found_of matches.now)) }
{
    let store = value_of(alloc, matches, "store")?;
    let host = value_of(alloc, matches, "host")?;
    let port = value_of(alloc, matches, "port")?;
    let allow = value_of(alloc, matches, "allow")?;
    let workers = value_of(alloc, matches, "workers")?;
    let connections = value_of(alloc, matches, "connections")?;
    let page = asks_page(matches);
    Ok(Said {
        store,
        host,
        port,
        allow,
        workers,
        connections,
        page,
    })
}

/// What the words say.
pub(crate) fn said_by<'a>(alloc: Global, words: &'a [&'a str]) -> Result<Said, NoReading>
    ensures { Gives (λ said.
        said) spec.no_reading_cause result (spec.said_by (spec.lent_texts words.now)) }
{
    let command = serve_command(alloc)?;
    let matches = match_words(command, words)?;
    let said = values_of(alloc, &matches)?;
    Ok(said)
}
