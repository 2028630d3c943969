//! Rows of what stands in memory for the outside.
use hl_base::{
    Bytes, Clock, Disk, Door, Knock, Link, List, MemClock, MemDisk, MemDoor, MemLink, MemShelf,
    MemSink, MemSource, Memory, ReadAllFault, Shelf, ShelfFault, Text, read_all, send_all,
    write_all,
};
use std::alloc::Global;
use std::test::Fail;

#[test]
fn a_clock_in_memory_stands_still(rt: HostRuntime) -> Result<(), Fail> {
    let mut clock = MemClock::new(739_981);
    assert_eq!(rt; clock.day(), 739_981);
    assert_eq!(rt; clock.day(), 739_981);
    Ok(())
}

#[test]
fn reads_and_writes_all_or_a_prefix(rt: HostRuntime) -> Result<(), Fail> {
    let mut source = MemSource::new(rt.alloc(), b"abc", &[])?;
    assert_eq!(rt;
        read_all(rt.alloc(), &mut source, 3)
            .ok()
            .ok_or("read")?
            .as_slice(),
        b"abc".as_slice()
    );
    let mut long = MemSource::new(rt.alloc(), b"abcd", &[])?;
    let seen = read_all(rt.alloc(), &mut long, 3).err();
    assert_eq!(rt; seen, Some(ReadAllFault::TooLong { limit: 3, seen: 4 }));
    let mut failing = MemSource::new(rt.alloc(), b"abc", &[2])?;
    let failed = read_all(rt.alloc(), &mut failing, 3).err();
    assert_eq!(rt; failed, Some(ReadAllFault::ReadFault));
    let mut sink = MemSink::new(rt.alloc(), 4, &[])?;
    assert!(rt; write_all(&mut sink, b"abcd").is_ok());
    assert!(rt; write_all(&mut sink, b"e").is_err(), "past the room");
    assert_eq!(rt; sink.as_slice(), b"abcd".as_slice());
    Ok(())
}

#[test]
fn a_link_in_cuts_gives_a_few_bytes_a_read(rt: HostRuntime) -> Result<(), Fail> {
    let mut link = MemLink::in_cuts(rt.alloc(), b"abc", 4, &[2, 5], 2)?;
    let mut room = [0u8; 8];
    assert_eq!(rt; link.read(&mut room)?, 2);
    assert!(rt; link.read(&mut room).is_err(), "the second call is to fail");
    assert_eq!(rt; link.read(&mut room)?, 1);
    assert_eq!(rt; &room[..1], b"c".as_slice());
    assert!(rt; send_all(&mut link, b"xy").is_ok());
    assert!(rt;
        send_all(&mut link, b"z").is_err(),
        "the fifth call is to fail"
    );
    assert!(rt; send_all(&mut link, b"uvw").is_err(), "past the room");
    assert_eq!(rt; link.as_slice(), b"xy".as_slice());
    Ok(())
}

#[test]
fn a_disk_keeps_writes_within_its_room(rt: HostRuntime) -> Result<(), Fail> {
    let mut disk = MemDisk::new(rt.alloc(), b"abc", 6, None, &[3])?;
    disk.write_at(4, b"ef")?;
    let mut room = [0u8; 8];
    assert_eq!(rt; disk.read(1, &mut room)?, 5);
    assert_eq!(rt; &room[..5], b"bc\0ef".as_slice());
    assert!(rt; disk.len().is_err(), "the third call is to fail");
    assert!(rt; disk.write_at(5, b"gh").is_err(), "past the room");
    disk.cut(2)?;
    disk.sync()?;
    assert_eq!(rt; disk.len()?, 2);
    assert_eq!(rt; disk.faults(), 2);
    assert_eq!(rt; disk.calls(), 7);
    Ok(())
}

#[test]
fn a_crash_leaves_a_front_of_a_write(rt: HostRuntime) -> Result<(), Fail> {
    let mut disk = MemDisk::new(rt.alloc(), b"abc", 9, Some((3, 6)), &[])?;
    disk.write_at(2, b"xyz")?;
    disk.cut(1)?;
    disk.write_at(1, b"pqr")?;
    assert!(rt; disk.sync().is_err(), "its record is full");
    for (call, bytes, text) in [
        (1, 0, b"abc".as_slice()),
        (1, 2, b"abxy".as_slice()),
        (2, 9, b"abxyz".as_slice()),
        (3, 2, b"apq".as_slice()),
        (4, 0, b"apqr".as_slice()),
    ] {
        let mut left = disk.stopped(rt.alloc(), call, bytes)?;
        let mut room = [0u8; 9];
        let count = left.read(0, &mut room)?;
        assert_eq!(rt; count, text.len());
        assert_eq!(rt; &room[..count], text, "call {call}, {bytes} bytes");
    }
    Ok(())
}

/// The link that a door answers.
fn came(door: &mut MemDoor) -> Result<MemLink, Fail> {
    match door.next() {
        Knock::Link(link) => Ok(link),
        Knock::End => Err("the end")?,
        Knock::Failed => Err("a failed call")?,
    }
}

#[test]
fn a_door_hands_out_links_and_takes_them_back(rt: HostRuntime) -> Result<(), Fail> {
    let mut links = Vec::new(rt.alloc());
    links.push(MemLink::new(rt.alloc(), b"ab", 4, &[])?)?;
    links.push(MemLink::new(rt.alloc(), b"c", 4, &[])?)?;
    let mut door = MemDoor::new(rt.alloc(), List::from_vec(links), &[2])?;
    let mut first = came(&mut door)?;
    assert!(rt; send_all(&mut first, b"xy").is_ok());
    door.give_back(first);
    assert!(rt; matches!(&door.next(), Knock::Failed), "the second call");
    let mut second = came(&mut door)?;
    let mut room = [0u8; 4];
    assert_eq!(rt; second.read(&mut room)?, 1);
    door.give_back(second);
    assert!(rt; matches!(&door.next(), Knock::End));
    assert_eq!(rt; door.faults(), 1);
    assert_eq!(rt; door.back().len(), 2);
    assert_eq!(rt; door.back()[0].as_slice(), b"xy".as_slice());
    Ok(())
}

/// A shelf with the files `a` and `b`.
fn shelf(alloc: Global, fails: &[u64], disk_fails: &[u64]) -> Result<MemShelf, Memory> {
    let first = (Text::copied(alloc, "a")?, Bytes::copied(alloc, b"abc")?);
    let second = (Text::copied(alloc, "b")?, Bytes::copied(alloc, b"xy")?);
    let mut files = Vec::new(alloc);
    files.push(first)?;
    files.push(second)?;
    MemShelf::new(
        alloc,
        List::from_vec(files),
        8,
        Some((9, 9)),
        fails,
        disk_fails,
    )
}

#[test]
fn a_shelf_loads_within_the_limit(rt: HostRuntime) -> Result<(), Fail> {
    let mut shelf = shelf(rt.alloc(), &[4], &[])?;
    let a = Text::copied(rt.alloc(), "a")?;
    let c = Text::copied(rt.alloc(), "c")?;
    let loaded = shelf.load(rt.alloc(), &a, 3).ok().ok_or("load")?;
    assert_eq!(rt; loaded.as_slice(), b"abc".as_slice());
    let long = shelf.load(rt.alloc(), &a, 2).err();
    assert_eq!(rt; long, Some(ShelfFault::TooLong { limit: 2, seen: 3 }));
    let absent = shelf.load(rt.alloc(), &c, 9).err();
    assert_eq!(rt; absent, Some(ShelfFault::Absent));
    assert_eq!(rt; shelf.faults(), 0);
    let failed = shelf.load(rt.alloc(), &a, 3).err();
    assert_eq!(rt; failed, Some(ShelfFault::Failed));
    assert_eq!(rt; shelf.faults(), 1);
    assert!(rt; shelf.load(rt.alloc(), &a, 3).is_ok());
    Ok(())
}

#[test]
fn a_disk_that_comes_back_is_the_file(rt: HostRuntime) -> Result<(), Fail> {
    let mut shelf = shelf(rt.alloc(), &[3], &[3])?;
    let b = Text::copied(rt.alloc(), "b")?;
    let c = Text::copied(rt.alloc(), "c")?;
    let absent = shelf.take(rt.alloc(), &c, false).err();
    assert_eq!(rt; absent, Some(ShelfFault::Absent));
    let mut made = shelf.take(rt.alloc(), &c, true).ok().ok_or("take")?;
    made.write_at(0, b"new")?;
    assert!(rt;
        shelf.take(rt.alloc(), &b, false).is_err(),
        "the third call is to fail"
    );
    let mut taken = shelf.take(rt.alloc(), &b, true).ok().ok_or("take")?;
    taken.write_at(1, b"z!")?;
    taken.sync()?;
    assert!(rt; taken.len().is_err(), "the third call is to fail");
    shelf.give_back(&c, made);
    assert_eq!(rt; shelf.disk_faults(), 0);
    shelf.give_back(&b, taken);
    assert_eq!(rt; shelf.disk_faults(), 1);
    let first = shelf.load(rt.alloc(), &b, 9).ok().ok_or("load")?;
    assert_eq!(rt; first.as_slice(), b"xz!".as_slice());
    let second = shelf.load(rt.alloc(), &c, 9).ok().ok_or("load")?;
    assert_eq!(rt; second.as_slice(), b"new".as_slice());
    let back = shelf.disk(b"b").ok_or("back")?;
    assert_eq!(rt; back.calls(), 3);
    assert!(rt; shelf.disk(b"a").is_none(), "it wasn't taken");
    let again = shelf.take(rt.alloc(), &b, false).ok().ok_or("take")?;
    assert_eq!(rt; again.as_slice(), b"xz!".as_slice());
    assert_eq!(rt; again.calls(), 0);
    Ok(())
}
