//! What is made of a text, as a walk works on it.
use book::{Placed, Txn};

/// The items of a text and the transactions of its book, as vectors.
#[derive(Drop)]
pub struct Open {
    pub items: Vec<Placed>,
    pub book: Vec<Txn>,
}

/// An item in the place of the one under a number, counted from 0.
#[derive(Clone, Copy, Drop)]
pub struct ItemAt<'a> {
    pub number: usize,
    pub placed: &'a Placed,
}
