ghost use Rattle.std.specs.Prelude.{◌≡◌};

use super::*;
use std::snapshot::Snapshot;
use std::test::*;

/// A number under the lock. An entry names the number after it.
#[derive(Drop)]
struct Count {
    number: u64,
}

impl Kept for Count {
    ghost use Rattle.std.specs.Prelude.{◌≡◌, ℕ};

    type Entry = Snapshot<u64>;

    ghost State = { ℕ };

    ghost state = { λ c. c.number };

    ghost leads = { λ before e after. after ≡ e.value };
}

#[test]
fn a_value_goes_round(rt: HostRuntime) -> Result<(), Fail> {
    let (turn, mut first) = Turn::new(rt.alloc(), Count { number: 5 }, 0)
        .ok()
        .ok_or("memory")?;
    let mut other = turn.split(&mut first).ok().ok_or("memory")?;
    let mut held = turn.take(&rt, &mut other).ok().ok_or("room")?;
    let count = held.value();
    count.number = 7;
    let entry = Snapshot::of(&count.number);
    turn.give(&mut other, held, entry);
    turn.join(&mut first, other);
    let (count, _first) = turn.close(first);
    assert_eq!(rt; count.number, 7);
    Ok(())
}

#[test]
fn the_last_history_is_spent(rt: HostRuntime) -> Result<(), Fail> {
    let done = (1 << 63) - 1;
    let (turn, mut first) = Turn::new(rt.alloc(), Count { number: 5 }, done)
        .ok()
        .ok_or("memory")?;
    match turn.take(&rt, &mut first) {
        Ok(held) => {
            let entry = Snapshot::of(&5);
            turn.give(&mut first, held, entry);
            return Err("it had room".into());
        }
        Err(Spent) => {}
    }
    let (count, _first) = turn.close(first);
    assert_eq!(rt; count.number, 5);
    Ok(())
}

#[test]
fn the_last_entry_has_room(rt: HostRuntime) -> Result<(), Fail> {
    let done = (1 << 63) - 2;
    let (turn, mut first) = Turn::new(rt.alloc(), Count { number: 5 }, done)
        .ok()
        .ok_or("memory")?;
    let mut held = turn.take(&rt, &mut first).ok().ok_or("room")?;
    let entry = Snapshot::of(&held.value().number);
    turn.give(&mut first, held, entry);
    match turn.take(&rt, &mut first) {
        Ok(held) => {
            let entry = Snapshot::of(&5);
            turn.give(&mut first, held, entry);
            return Err("it had room".into());
        }
        Err(Spent) => {}
    }
    let (count, _first) = turn.close(first);
    assert_eq!(rt; count.number, 5);
    Ok(())
}
