//! What a pass knows, as plain data. No value of these types is ever made.
ghost use Rattle.std.specs.Prelude.{◌≡◌, IsSome, IsNone};

use std::collections::LinkedList;
use std::snapshot::Snapshot;

/// An entry of the history, with the number of the pass that made it.
pub struct Entered<E> {
    pub by: u64,
    pub entry: E,
}

/// A pass that was joined to the first one: its number, and the entries that it made.
pub struct Member<E> {
    pub number: u64,
    pub mine: LinkedList<E>,
}

/// What a pass holds of the lock.
pub enum Hold<T> {
    /// It holds no value.
    Free,
    /// It took this value, and hasn't given one back.
    Holds(T),
    /// Its lock was closed.
    Over,
}

pub struct Known<T, E> {
    pub done: u64,
    pub opening: T,
    pub number: u64,
    pub made: u64,
    pub seen: LinkedList<Entered<E>>,
    pub mine: LinkedList<E>,
    pub joined: LinkedList<Member<E>>,
    pub hold: Hold<T>,
}

pub enum View<T, E> {
    /// The pass was joined to the first one.
    Spent,
    Live(Known<T, E>),
}

/// What the lock is told when it is made: the count of entries before its history, and the first value.
pub struct Opening<T> {
    pub done: u64,
    pub first: Snapshot<T>,
}

impl<T> Drop for Opening<T> {
    fn drop(self) {
        let Opening { done: _, first: _ } = self;
    }
}

/// What lies in the lock's slot: the value, and the entry that was made last.
#[derive(Drop)]
pub struct Place<T, E> {
    pub value: Option<T>,
    pub last: Option<E>,
}

impl<T, E: Drop> Place<T, E> {
    /// The value, which is there.
    pub fn into_value(self) -> T
        requires { IsSome self.value }
        ensures { self.value ≡ Some result }
    {
        let Place { value, last: _ } = self;
        value.unwrap()
    }
    /// Ends a place with no value.
    pub fn end(self)
        requires { IsNone self.value }
    {
        let Place { value, last: _ } = self;
        let None = value else { unreachable!() };
    }
}
