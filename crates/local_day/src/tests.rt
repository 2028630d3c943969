//! Days at one instant, worked out by hand.
use crate::{Zone, day_in, path_of, zone_of};
use hl_time::Day;
use std::alloc::Global;
use std::test::Fail;

/// 2024-12-31T10:30:00Z.
const INSTANT: i64 = 1_735_641_000;

/// A zone's file of version 1: 50,400 seconds ahead of UTC at each instant, under the name `+14`.
const FOURTEEN_HOURS: [u8; 54] = [
    b'T', b'Z', b'i', b'f', 0, 0, 0, 0, 0, 0, 0, 0, 0, 0, 0, 0, 0, 0, 0, 0, 0, 0, 0, 0, 0, 0, 0, 0,
    0, 0, 0, 0, 0, 0, 0, 0, 0, 0, 0, 1, 0, 0, 0, 4, 0, 0, 196, 224, 0, 0, b'+', b'1', b'4', 0,
];

/// A zone can be shared by threads.
fn shared<T: Sync>(value: &T) -> &T {
    value
}

fn day_at(alloc: Global, named: Option<&str>, file: Option<&[u8]>) -> Result<Day, Fail> {
    let zone: Zone = zone_of(alloc, named, file)?;
    Ok(day_in(shared(&zone), INSTANT))
}

#[test]
fn days_of_zones(rt: HostRuntime) -> Result<(), Fail> {
    let alloc = rt.alloc();
    // 2025-01-01 at 00:30, 2024-12-30 at 23:30, 2024-12-31 at 10:30
    assert_eq!(rt; day_at(alloc, Some("<+14>-14"), None)?, Day(739_252));
    assert_eq!(rt; day_at(alloc, Some(":SST11"), None)?, Day(739_250));
    assert_eq!(rt; day_at(alloc, Some("nowhere"), None)?, Day(739_251));
    assert_eq!(rt; day_at(alloc, None, Some(&FOURTEEN_HOURS))?, Day(739_252));
    Ok(())
}

#[test]
fn the_file_of_a_name(rt: HostRuntime) -> Result<(), Fail> {
    let path = path_of(rt.alloc(), Some(":Asia/Tokyo"))?.ok_or("no path")?;
    assert_eq!(rt; path.as_str(), "/usr/share/zoneinfo/Asia/Tokyo");
    Ok(())
}
