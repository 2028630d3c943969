//! The steps of a seat on the lock's word and slot.
ghost use Rattle.std.specs.Prelude.{◌≡◌, MatchOption};
ghost use Rattle.turn_lock.specs.Rule.{IsIdle, Ended, Has, Tries, Gives, Given};

use crate::kept::Kept;
use crate::known::{Opening, Place, View};
use crate::rule::{Give, Law, Look, Take};
use atomic_table::{Seat, Shared, Table};
use std::alloc::Global;
use std::sync::Wait;

pub type Room<T> = Table<
    Place<T, <T as Kept>::Entry>,
    View<T, <T as Kept>::Entry>,
    Opening<T>,
    Law,
    Global,
>;

pub type Board<T> = Shared<
    Place<T, <T as Kept>::Entry>,
    View<T, <T as Kept>::Entry>,
    Opening<T>,
    Law,
>;

pub type Sitting<T> = Seat<Place<T, <T as Kept>::Entry>, View<T, <T as Kept>::Entry>>;

// Where the word is this, the history has no room for another entry.
const LAST: u64 = u64::MAX - 1;

/// What one try to take the value came to.
pub enum Attempt<T> {
    Won(T),
    Spent,
    /// The word as it was found.
    Missed(u64),
}

/// Tries to take the value.
pub fn try_once<T: Kept>(board: &Board<T>, seat: &mut Sitting<T>) -> Attempt<T>
    requires board { (seat.old.table_id ≡ board.now.table_id) × (board.now.table_id.words ≡ 1)
        × (board.now.table_id.slots ≡ 1) }
    requires idle { IsIdle seat.old.me }
    ensures board { (seat.new.table_id ≡ seat.old.table_id) × (seat.new.id ≡ seat.old.id) }
    ensures came { Tries T.state T.leads seat.old.me seat.new.me result }
{
    let word = board.load::<Look>(seat, 0);
    if word == LAST {
        return Attempt::Spent;
    }
    if word % 2 != 0 {
        return Attempt::Missed(word);
    }
    let found = board.compare_exchange::<Take>(seat, 0, word, word + 1);
    if found != word {
        return Attempt::Missed(found);
    }
    let place = board.exchange(
        seat,
        0,
        Place {
            value: None,
            last: None,
        },
    );
    Attempt::Won(place.into_value())
}

/// Takes the value, and waits while another has it. Without a value the history has no room for another entry.
pub fn acquire<T: Kept, R: Wait>(rt: &R, board: &Board<T>, seat: &mut Sitting<T>) -> Option<T>
    requires board { (seat.old.table_id ≡ board.now.table_id) × (board.now.table_id.words ≡ 1)
        × (board.now.table_id.slots ≡ 1) }
    requires idle { IsIdle seat.old.me }
    ensures board { (seat.new.table_id ≡ seat.old.table_id) × (seat.new.id ≡ seat.old.id) }
    ensures came { MatchOption result (Ended seat.old.me seat.new.me) (λ x.
        Has T.state T.leads seat.old.me seat.new.me x) }
{
    for _ in rt.forever() {
        match try_once(board, seat) {
            Attempt::Won(value) => return Some(value),
            Attempt::Spent => {
                board.wake_all(0);
                return None;
            }
            Attempt::Missed(word) => {
                if word % 2 != 0 {
                    board.park(rt, 0, (word & 0xffff_ffff) as u32);
                }
            }
        }
    }
    unreachable!()
}

/// Gives the value back, and makes the entry.
pub fn release<T: Kept>(board: &Board<T>, seat: &mut Sitting<T>, value: T, entry: T::Entry)
    requires board { (seat.old.table_id ≡ board.now.table_id) × (board.now.table_id.words ≡ 1) }
    requires held { Gives T.state T.leads seat.old.me value entry }
    ensures board { (seat.new.table_id ≡ seat.old.table_id) × (seat.new.id ≡ seat.old.id) }
    ensures gave { Given seat.old.me entry seat.new.me }
{
    let place = board.exchange(
        seat,
        0,
        Place {
            value: Some(value),
            last: Some(entry),
        },
    );
    place.end();
    board.fetch_add::<Give>(seat, 0, 1);
    board.wake_one(0);
}
