//! Import states that are found by their names.
ghost use Rattle.text_store.specs.Names.{places_in, ArePlaced};

use crate::naming::{places_of, put_state};
use hl_base::{Latest, Memory};
use std::alloc::Global;
use std::collections::BTreeMap;

/// Import states, with the place of the first of each name.
#[derive(Drop)]
pub struct Marks {
    pub states: Vec<Latest>,
    places: BTreeMap<Vec<u8>, usize>,
    ghost placed: { ArePlaced states.items 0 (places_in places.entries) },
}

impl Marks {
    ghost use Rattle.std.specs.Prelude.{◌≡◌, [], true, false, IfOk, OnOk, MatchOption};
    ghost use Rattle.text_store.specs.Image.{with_mark, have_own_names};

    /// No states, which takes no memory.
    pub fn new(alloc: Global) -> Marks
        ensures { result.states.items ≡ [] }
    {
        Marks {
            states: Vec::new(alloc),
            places: BTreeMap::new(alloc),
        }
    }

    /// States whose names differ; none, where two have one name.
    pub fn of(alloc: Global, states: Vec<Latest>) -> Result<Option<Marks>, Memory>
        ensures { IfOk result (λ found. MatchOption found (have_own_names states.items ≡ false)
            (λ marks. (have_own_names states.items ≡ true) × (marks.states.items ≡ states.items))) }
    {
        match places_of(alloc, &states)? {
            None => Ok(None),
            Some(places) => Ok(Some(Marks { states, places })),
        }
    }

    /// Puts a state in the place of that of its name, or behind the others.
    pub fn put(&mut self, alloc: Global, state: Latest) -> Result<(), Memory>
        ensures { OnOk result (self.new.states.items ≡ with_mark state self.old.states.items) }
    {
        put_state(alloc, &mut self.states, &mut self.places, state)
    }
}
