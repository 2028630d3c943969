//! The file of a zone that the environment variable TZ names.
ghost use Rattle.std.specs.Prelude.{◌≡◌, IfOk, option_map};
ghost use Rattle.local_day.specs.Naming as spec;

use hl_base::{Memory, Text};
use std::alloc::Global;

/// The name in a text of TZ: what follows a leading colon, or the text.
pub(crate) fn name_of(text: &str) -> &str
    ensures { result.now ≡ spec.name_in text.now }
{
    match text.strip_prefix(':') {
        Some(name) => name,
        None => text,
    }
}

/// The byte at the front, 0 where there is none.
fn front_of(text: &[u8]) -> u8
    ensures { result ≡ spec.front_of text.now }
{
    match text.first() {
        Some(byte) => *byte,
        None => 0,
    }
}

/// Whether a byte is a full stop, and another follows it.
fn goes_up(byte: u8, rest: &[u8]) -> bool
    ensures { result ≡ spec.goes_up byte rest.now }
{
    byte == b'.' && front_of(rest) == b'.'
}

/// Whether two full stops follow each other in a name.
fn climbs(name: &[u8]) -> bool
    ensures { result ≡ spec.climbs name.now }
{
    let mut left = name;
    while let Some((byte, rest)) = left.split_first() {
        if goes_up(*byte, rest) {
            return true;
        }
        left = rest;
    }
    false
}

/// Whether no file has a name: an empty one, or one with two full stops in sequence.
fn has_no_file(name: &str) -> bool
    ensures { result ≡ spec.has_no_file name.now }
{
    name.is_empty() || climbs(name.as_bytes())
}

/// The folder below which a name is a file: none for a path from the root.
fn folder_of(name: &str) -> &'static str
    ensures { result.now ≡ spec.folder_of name.now }
{
    if front_of(name.as_bytes()) == b'/' {
        ""
    } else {
        "/usr/share/zoneinfo/"
    }
}

/// The path of the file of a name, where it names one.
fn path_of_name(alloc: Global, name: &str) -> Result<Option<Text>, Memory>
    ensures { IfOk result (λ path. path ≡ spec.path_of_name name.now) }
{
    if has_no_file(name) {
        return Ok(None);
    }
    Ok(Some(Text::joined(alloc, folder_of(name), name)?))
}

/// The path of the file that may describe the zone, where there is one: `/etc/localtime` where TZ isn't set, else that of
/// the name, below `/usr/share/zoneinfo/` where it doesn't begin with `/`. No file belongs to an empty name, and none to a
/// name in which `..` stands.
pub fn path_of(alloc: Global, named: Option<&str>) -> Result<Option<Text>, Memory>
    ensures { IfOk result (λ path. path ≡ spec.path_of (option_map (λ text. text.now) named.entry)) }
{
    match named {
        Some(text) => path_of_name(alloc, name_of(text)),
        None => Ok(Some(Text::copied(alloc, "/etc/localtime")?)),
    }
}
