//! A change made in an image.
ghost use Rattle.std.specs.Prelude.{◌≡◌, ◌↔◌, ◌+◌, ◌^◌, ◌<◌, [], ◌∷◌, ◌++◌, length, IsTrue, IfOk, OnOk};
ghost use Rattle.text_store.specs.Image.{same_name, with_mark};
ghost use Rattle.follower.specs.Changing.{with_parts, IsNextOf};

use hl_base::{Bytes, Latest, List, Memory, Splice};
use std::alloc::Global;
use text_store::{Change, Image};

/// What a change makes anew of an image beside its text: the import states of an import.
#[derive(Drop)]
pub struct Next {
    latest: Option<List<Latest>>,
}

// Whether a part lies outside a text.
fn is_outside(text: &[u8], part: &Splice) -> bool
    ensures { IsTrue result ↔ (length text.now < part.now.at + part.now.removed) }
{
    part.at.saturating_add(part.removed) > text.len() as u64
}

// Whether an import's state has the name of another.
fn is_named_as(one: &Latest, other: &Latest) -> bool
    ensures { result ≡ same_name one.now other.now }
{
    one.name.as_bytes() == other.name.as_bytes()
}

// Import states with one in the place of that of its name, or behind the others.
fn states_with(alloc: Global, states: &[Latest], state: &Latest) -> Result<List<Latest>, Memory>
    ensures { IfOk result (λ made. made ≡ with_mark state.now states.now) }
{
    let mut made = Vec::with_capacity(alloc, states.len())?;
    for i in 0..states.len() {
        let other = &states[i];
        if is_named_as(other, state) {
            let (_, behind) = states.split_at(i + 1);
            push_before(alloc, &mut made, state, behind)?;
            return Ok(List::from_vec(made));
        }
        push_state(alloc, &mut made, other)?;
    }
    push_state(alloc, &mut made, state)?;
    Ok(List::from_vec(made))
}

// Adds a copy of an import's state, and copies of those behind it.
fn push_before(
    alloc: Global,
    made: &mut Vec<Latest>,
    state: &Latest,
    behind: &[Latest],
) -> Result<(), Memory>
    ensures { OnOk result (made.new.items ≡ made.old.items ++ state.now ∷ behind.now) }
{
    push_state(alloc, made, state)?;
    push_states(alloc, made, behind)
}

// Adds copies of import states.
fn push_states(alloc: Global, made: &mut Vec<Latest>, states: &[Latest]) -> Result<(), Memory>
    ensures { OnOk result (made.new.items ≡ made.old.items ++ states.now) }
{
    for state in states {
        push_state(alloc, made, state)?;
    }
    Ok(())
}

// Adds a copy of an import's state.
fn push_state(alloc: Global, made: &mut Vec<Latest>, state: &Latest) -> Result<(), Memory>
    ensures { OnOk result (made.new.items ≡ made.old.items ++ state.now ∷ []) }
{
    made.push(state.copied(alloc)?)?;
    Ok(())
}

// What a splice makes anew of an image.
fn next_splice(image: &Image, part: &Splice) -> Option<Next>
    ensures { IsNextOf image.now (Change.Splice part.now) result }
{
    if is_outside(image.text.as_slice(), part) {
        return None;
    }
    Some(Next { latest: None })
}

// What an import makes anew of an image.
fn next_import(
    alloc: Global,
    image: &Image,
    state: &Latest,
    part: &Splice,
) -> Result<Option<Next>, Memory>
    ensures { IfOk result (IsNextOf image.now (Change.Import state.now part.now)) }
{
    let latest = states_with(alloc, image.latest.as_slice(), state)?;
    if latest.len() as u64 >= 1 << 32 {
        return Ok(None);
    }
    if is_outside(image.text.as_slice(), part) {
        return Ok(None);
    }
    Ok(Some(Next {
        latest: Some(latest),
    }))
}

/// What a change makes anew of an image; none, where its part lies outside the text or where it makes 2^32 import states.
pub fn next_of(alloc: Global, image: &Image, change: &Change) -> Result<Option<Next>, Memory>
    ensures { IfOk result (IsNextOf image.now change.now) }
{
    match change {
        Change::Splice(part) => Ok(next_splice(image, part)),
        Change::Whole(_) => Ok(Some(Next { latest: None })),
        Change::Import(state, part) => next_import(alloc, image, state, part),
    }
}

impl Next {
    /// Puts a change's text into its image, and the import states that were made anew. It takes no memory.
    pub fn put_into(self, image: &mut Image, text: Vec<u8>)
        requires { image.old.revision + 1 < 2 ^ 64 }
        ensures { image.new ≡ with_parts image.old text.items self }
    {
        image.text = Bytes::from_vec(text);
        image.revision += 1;
        match self.latest {
            None => (),
            Some(latest) => image.latest = latest,
        }
    }
}
