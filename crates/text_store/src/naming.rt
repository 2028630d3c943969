//! The places of import states by their names.
ghost use Rattle.std.specs.Prelude.{◌≡◌, ◌++◌, ◌∷◌, [], true, false, None, IfOk, OnOk, OnErr, MatchOption};
ghost use Rattle.std.specs.Ordering.{nat_cmp};
ghost use Rattle.std.specs.Cmp.Lexicographic.{slice_cmp};
ghost use Rattle.std.specs.FinMap.Entries.{put};
ghost use Rattle.text_store.specs.Image.{with_mark, have_own_names};
ghost use Rattle.text_store.specs.Names.{places_in, place_at, ArePlaced};

use hl_base::{Latest, Memory};
use std::alloc::Global;
use std::collections::BTreeMap;

// The place that stands at a name.
fn place_of(places: &BTreeMap<Vec<u8>, usize>, name: &[u8]) -> Option<usize>
    ensures { result ≡ place_at name.now (places_in places.now.entries) }
{
    places.get(name).copied()
}

// Puts a place at a name.
fn put_place(
    alloc: Global,
    places: &mut BTreeMap<Vec<u8>, usize>,
    name: &[u8],
    place: usize,
) -> Result<(), Memory>
    ensures ok { OnOk result (places_in places.new.entries
        ≡ put (slice_cmp nat_cmp) name.now place (places_in places.old.entries)) }
    ensures err { OnErr result (places.new.entries ≡ places.old.entries) }
{
    let copy = Vec::from_slice(alloc, name)?;
    put_copy(places, copy, place)
}

fn put_copy(
    places: &mut BTreeMap<Vec<u8>, usize>,
    name: Vec<u8>,
    place: usize,
) -> Result<(), Memory>
    ensures ok { OnOk result (places_in places.new.entries
        ≡ put (slice_cmp nat_cmp) name.items place (places_in places.old.entries)) }
    ensures err { OnErr result (places.new.entries ≡ places.old.entries) }
{
    places.insert(name, place)?;
    Ok(())
}

/// The places of states by their names; none, where two states have one name.
pub fn places_of(
    alloc: Global,
    states: &[Latest],
) -> Result<Option<BTreeMap<Vec<u8>, usize>>, Memory>
    ensures { IfOk result (λ found. MatchOption found (have_own_names states.now ≡ false)
        (λ places. (have_own_names states.now ≡ true)
        × ArePlaced states.now 0 (places_in places.entries))) }
{
    let mut places = BTreeMap::new(alloc);
    let mut at = states.len();
    while at > 0 {
        at -= 1;
        let name = states[at].name.as_bytes();
        if place_of(&places, name).is_some() {
            return Ok(None);
        }
        put_place(alloc, &mut places, name, at)?;
    }
    Ok(Some(places))
}

/// Puts a state in the place of that of its name, or behind the others.
pub fn put_state(
    alloc: Global,
    states: &mut Vec<Latest>,
    places: &mut BTreeMap<Vec<u8>, usize>,
    state: Latest,
) -> Result<(), Memory>
    requires { ArePlaced states.old.items 0 (places_in places.old.entries) }
    ensures ok { OnOk result (states.new.items ≡ with_mark state states.old.items) }
    ensures placed { ArePlaced states.new.items 0 (places_in places.new.entries) }
{
    match place_of(places, state.name.as_bytes()) {
        Some(place) => {
            states[place] = state;
            Ok(())
        }
        None => push_state(alloc, states, places, state),
    }
}

// Puts a state behind the others, of which none has its name.
fn push_state(
    alloc: Global,
    states: &mut Vec<Latest>,
    places: &mut BTreeMap<Vec<u8>, usize>,
    state: Latest,
) -> Result<(), Memory>
    requires placed { ArePlaced states.old.items 0 (places_in places.old.entries) }
    requires other { place_at state.name (places_in places.old.entries) ≡ None }
    ensures ok { OnOk result (states.new.items ≡ states.old.items ++ state ∷ []) }
    ensures placed { ArePlaced states.new.items 0 (places_in places.new.entries) }
{
    states.reserve(1)?;
    put_place(alloc, places, state.name.as_bytes(), states.len())?;
    states.push(state)?;
    Ok(())
}
