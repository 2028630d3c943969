//! A zone by itself: UTC, a rule, or the table of a zone's file.
ghost use Rattle.std.specs.Prelude.{◌≡◌, IfOk, option_map};
ghost use Rattle.jiff_tz.specs.PosixReader.{read_whole};
ghost use Rattle.jiff_tz.specs.PosixText.{tz_view};
ghost use Rattle.local_day.specs.LocalDay as days;
ghost use Rattle.local_day.specs.Zones as spec;

use crate::naming::name_of;
use hl_base::Memory;
use jiff_core::{Error, Offset, Timestamp};
use jiff_tz::{Tzif, posix};
use std::alloc::Global;

/// A time zone. It owns what it needs.
#[derive(Drop)]
pub enum Zone {
    /// UTC.
    Utc,
    /// A rule, as `EST5EDT,M3.2.0,M11.1.0` writes it.
    Rule(posix::TimeZone),
    /// The table of a zone's file.
    Table(Tzif),
}

impl Zone {
    /// How far the zone's clock is ahead of UTC at an instant.
    #[tactic(auto, unfolding(crate::specs::LocalDay::offset_at))]
    pub(crate) fn offset_at(&self, instant: Timestamp) -> Offset
        ensures { result.seconds ≡ days.offset_at self.now instant.nanosecond }
    {
        match self {
            Zone::Utc => Offset::UTC,
            Zone::Rule(rule) => rule.to_offset(instant),
            Zone::Table(table) => table.to_offset(instant),
        }
    }
}

/// The table in the bytes of a zone's file, where they hold one.
fn table_in(alloc: Global, bytes: &[u8]) -> Result<Option<Tzif>, Memory>
    ensures { IfOk result (spec.IsTableIn bytes.now) }
{
    match Tzif::parse(alloc, None, bytes) {
        Ok(table) => Ok(Some(table)),
        Err(Error::OutOfMemory) => Err(Memory),
        Err(_) => Ok(None),
    }
}

/// The table of the file that was read, where one was and holds one.
fn table_of(alloc: Global, file: Option<&[u8]>) -> Result<Option<Tzif>, Memory>
    ensures { IfOk result (spec.IsTableOf (option_map (λ bytes. bytes.now) file.entry)) }
{
    match file {
        Some(bytes) => table_in(alloc, bytes),
        None => Ok(None),
    }
}

/// The rule that a name writes, where it writes one.
fn rule_of(name: &str) -> Option<posix::TimeZone>
    ensures { read_whole name.now ≡ option_map tz_view result }
{
    match posix::TimeZone::parse(name.as_bytes()) {
        Ok(rule) => Some(rule),
        Err(_) => None,
    }
}

/// The rule that TZ writes, where it is set and writes one.
fn rule_in(named: Option<&str>) -> Option<posix::TimeZone>
    ensures { spec.rule_in (option_map (λ text. text.now) named.entry) ≡ option_map tz_view result }
{
    match named {
        Some(text) => rule_of(name_of(text)),
        None => None,
    }
}

/// The zone that the text of TZ names, where it is set, with the bytes of the file at `path_of`, where it was read: that of
/// the file's table, else of the rule that TZ writes, else UTC.
pub fn zone_of(alloc: Global, named: Option<&str>, file: Option<&[u8]>) -> Result<Zone, Memory>
    ensures { IfOk result (spec.IsZone (option_map (λ text. text.now) named.entry)
        (option_map (λ bytes. bytes.now) file.entry)) }
{
    match table_of(alloc, file)? {
        Some(table) => Ok(Zone::Table(table)),
        None => match rule_in(named) {
            Some(rule) => Ok(Zone::Rule(rule)),
            None => Ok(Zone::Utc),
        },
    }
}
