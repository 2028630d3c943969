//! The zone that the process's environment and its files describe, read once.
use hl_base::{Memory, Text};
use local_day::{Zone, path_of, zone_of};
use std::env::VarError;
use std::io::Read;
use std::rt::{Env, Files};
use std::{env, fs, io};

/// The most bytes of a file that is read as a zone's.
const MOST: u64 = 1 << 20;

/// The bytes of a regular file of no more than `MOST`. A pipe or a device might never end.
fn bytes_at<R: Files + AllocGlobal>(rt: &R, path: &str) -> io::Result<Option<Vec<u8>>> {
    if !fs::metadata(rt, path)?.is_file() {
        return Ok(None);
    }
    let mut bytes = Vec::new(rt.alloc());
    let mut file = fs::open(rt, path)?.take(MOST + 1);
    file.read_to_end(&mut bytes)?;
    if bytes.len() as u64 > MOST {
        return Ok(None);
    }
    Ok(Some(bytes))
}

/// The bytes of the file at a path, where there is a path and they can be read.
fn file_at<R: Files + AllocGlobal>(rt: &R, path: Option<Text>) -> Option<Vec<u8>> {
    match path {
        Some(path) => bytes_at(rt, path.as_str()).unwrap_or(None),
        None => None,
    }
}

/// The zone of what TZ says, where it is set, and of the file that it names.
fn zone_named<R: Files + AllocGlobal>(rt: &R, named: Option<&str>) -> Result<Zone, Memory> {
    let file = file_at(rt, path_of(rt.alloc(), named)?);
    match &file {
        Some(bytes) => zone_of(rt.alloc(), named, Some(bytes.as_slice())),
        None => zone_of(rt.alloc(), named, None),
    }
}

/// The zone in which the process's days are: UTC where TZ isn't UTF-8.
pub(crate) fn local_zone<R: Env + Files + AllocGlobal>(rt: &R) -> Result<Zone, Memory> {
    match env::var(rt, "TZ") {
        Ok(text) => zone_named(rt, Some(text.as_str())),
        Err(VarError::NotPresent) => zone_named(rt, None),
        Err(VarError::NotUnicode) => Ok(Zone::Utc),
        Err(VarError::OutOfMemory) => Err(Memory),
    }
}
