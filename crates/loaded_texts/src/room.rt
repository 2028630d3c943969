//! Room for more items of a list, so that they can be put behind it without taking memory.
ghost use Rattle.std.specs.Prelude.{◌≡◌, ◌+◌, ◌≤◌, ◌++◌, IfOk, length, vec_capacity};

use hl_base::{List, Memory};
use std::alloc::Global;
use std::marker::Model;
use std::mem::replace;

/// Room for so many items, which is what contracts see.
#[derive(Debug, Drop)]
pub struct Room<T> {
    items: Vec<T>,
}

impl<T> Model for Room<T> {
    ghost use Rattle.std.specs.Prelude.{◌≡◌, [], ℕ, vec_capacity};

    ghost Value = { ℕ };

    ghost view = { λ r. vec_capacity r.items };

    ghost invariant = { λ r. r.items.items ≡ [] };
}

impl<T> Room<T> {
    /// Room for so many items and so many more. What isn't written yet takes addresses and no pages.
    pub fn of(alloc: Global, count: usize, more: usize) -> Result<Room<T>, Memory>
        ensures { IfOk result (λ room. room ≡ count + more) }
    {
        match count.checked_add(more) {
            Some(all) => Ok(Room {
                items: Vec::with_capacity(alloc, all)?,
            }),
            None => Err(Memory),
        }
    }
}

/// The items of a vector with those of another one behind them, for which it has room.
fn moved_behind<T: Drop>(front: Vec<T>, more: Vec<T>) -> Vec<T>
    requires { length front.items + length more.items ≤ vec_capacity front }
    ensures items { result.items ≡ front.items ++ more.items }
    ensures capacity { vec_capacity front ≤ vec_capacity result }
{
    let mut all = front;
    let mut rest = more;
    let _moved = all.append(&mut rest).is_ok();
    all
}

/// The items of two vectors, in the room that is given.
fn in_room<T: Drop>(room: Room<T>, items: Vec<T>, more: Vec<T>) -> List<T>
    requires { length items.items + length more.items ≤ room }
    ensures { result ≡ items.items ++ more.items }
{
    let front = moved_behind(room.items, items);
    List::from_vec(moved_behind(front, more))
}

/// A list with items behind it.
fn joined<T: Drop>(list: List<T>, more: List<T>, room: Room<T>) -> List<T>
    requires { length list + length more ≤ room }
    ensures { result ≡ list ++ more }
{
    let mut items = list.into_vec();
    let mut rest = more.into_vec();
    if items.append(&mut rest).is_ok() {
        List::from_vec(items)
    } else {
        in_room(room, items, rest)
    }
}

/// Puts items behind a list. They go where it has room for them, or where there is memory for that; else all of them go
/// into the room that is given. So it can't fail.
pub(crate) fn put_items<T: Drop>(alloc: Global, list: &mut List<T>, more: List<T>, room: Room<T>)
    requires { length list.old + length more ≤ room }
    ensures { list.new ≡ list.old ++ more }
{
    let kept = replace(list, List::new(alloc));
    *list = joined(kept, more, room);
}
