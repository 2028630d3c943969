//! A store that is fed, and a replica that follows what it fed.

use crate::stops::FED;
use fed_histories::{fed_frames_are_genuine, fed_stores_are_followed};
use follow_commands::Tally;
use hl_base::{Bytes, List, MemShelf, MemSource, Memory, Text};
use std::alloc::Global;
use std::test::Fail;
use store_feeding::feed_store;
use store_following::{FollowRefusal, Followed, follow_store};
use store_text::read_store;

/// A store of the empty text to which an entry was added: a header of 32 bytes with the limit 1,048,576, a `C` and an `S`, each
/// behind its gate, and a shut gate.
const HOME: [u8; 141] =
    *b"HLSTORE\x02\0\0\x10\0\0\0\0\0\x01\0\0\0\0\0\0\0\0\0\0\0\0\0\0\0\x01C\x04\0\0\0\0\0\0\0\0\0\0\0\x01S\x54\0\0\0\0\0\0\0\0\0\0\0\0\0\0\0\0\0\0\0\0\0\0\x002024-01-05 bread\n    expenses:food  10 EUR\n    assets:cash  -10 EUR\n\0";

// A shelf with that store.
fn home(alloc: Global) -> Result<MemShelf, Memory> {
    let file = (Text::copied(alloc, "home")?, Bytes::copied(alloc, &HOME)?);
    let mut files = Vec::new(alloc);
    files.push(file)?;
    MemShelf::new(alloc, List::from_vec(files), 400, None, &[], &[])
}

// What became of bytes that a replica followed.
fn followed(
    alloc: Global,
    shelf: &mut MemShelf,
    bytes: &[u8],
) -> Result<Result<Followed, FollowRefusal>, Fail> {
    let name = Text::copied(alloc, "replica")?;
    let mut source = MemSource::new(alloc, bytes, &[])?;
    Ok(follow_store(alloc, &name, 1048576, &mut source, shelf))
}

// What is told of so many frames that were taken, were old, or stood behind a gap.
fn told(revision: u64, taken: u64, old: u64, gaps: u64) -> Result<Followed, FollowRefusal> {
    let tally = Tally { taken, old, gaps };
    Ok(Followed { revision, tally })
}

// What the store feeds.
fn fed(alloc: Global, shelf: &mut MemShelf) -> Result<Bytes, Fail> {
    let name = Text::copied(alloc, "home")?;
    match feed_store(alloc, &name, shelf) {
        Ok(frames) => Ok(frames),
        Err(_) => Err(Fail::new("it is fed")),
    }
}

// The text of the replica.
fn text(alloc: Global, shelf: &mut MemShelf) -> Result<Bytes, Fail> {
    let name = Text::copied(alloc, "replica")?;
    match read_store(alloc, &name, shelf) {
        Ok(text) => Ok(text),
        Err(_) => Err(Fail::new("it is read")),
    }
}

#[test]
fn a_store_is_fed_and_a_replica_follows_twice(rt: HostRuntime) -> Result<(), Fail> {
    let mut shelf = home(rt.alloc())?;
    let frames = fed(rt.alloc(), &mut shelf)?;
    assert_eq!(rt; frames.as_slice(), FED.as_slice());
    let done = followed(rt.alloc(), &mut shelf, frames.as_slice())?;
    assert_eq!(rt; done, told(1, 2, 0, 0));
    let again = followed(rt.alloc(), &mut shelf, frames.as_slice())?;
    assert_eq!(rt; again, told(1, 0, 2, 0));
    let text = text(rt.alloc(), &mut shelf)?;
    assert_eq!(rt; text.as_slice(), &FED[54..]);
    fed_frames_are_genuine(frames.as_slice());
    fed_stores_are_followed::<MemSource, MemShelf, MemShelf>(frames.as_slice());
    Ok(())
}
