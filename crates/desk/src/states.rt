//! The states of imports.
ghost use Rattle.std.specs.Prelude.{◌≡◌, IfOk, OnOk};
ghost use Rattle.std.specs.Option.{option_map};
ghost use Rattle.std.specs.Str.{bytes_eq};
ghost use Rattle.text_store.specs.Image.{with_mark};
ghost use Rattle.desk.specs.Imports as spec;
ghost use Rattle.desk.specs.States.{states_with};

use crate::sizes::copy_states;
use hl_base::{Latest, List, Memory, Text};
use std::alloc::Global;

/// Whether a state is that of the import of a name.
fn is_named(state: &Latest, name: &Text) -> bool
    ensures { result ≡ bytes_eq state.now.name name.now }
{
    state.name.as_bytes() == name.as_bytes()
}

/// The state of the import of a name.
pub(crate) fn state_named<'a>(states: &'a [Latest], name: &Text) -> Option<&'a Latest>
    ensures { option_map (λ s. s.now) result ≡ spec.state_named name.now states.now }
{
    for state in states {
        if is_named(state, name) {
            return Some(state);
        }
    }
    None
}

/// Puts a state in the place of that of its name, or behind the others.
fn put_state(states: &mut Vec<Latest>, mark: Latest) -> Result<(), Memory>
    ensures { OnOk result (states.new.items ≡ with_mark mark states.old.items) }
{
    for i in 0..states.len() {
        if is_named(&states[i], &mark.name) {
            states[i] = mark;
            return Ok(());
        }
    }
    states.push(mark)?;
    Ok(())
}

/// The states after an import that leaves this one.
fn with_state(alloc: Global, states: &[Latest], mark: &Latest) -> Result<List<Latest>, Memory>
    ensures { IfOk result (λ made. made ≡ with_mark mark.now states.now) }
{
    let mut made = copy_states(alloc, states)?.into_vec();
    let mark = mark.copied(alloc)?;
    put_state(&mut made, mark)?;
    Ok(List::from_vec(made))
}

/// The states after an import, where an edit is one.
pub(crate) fn states_with(
    alloc: Global,
    states: &List<Latest>,
    mark: &Option<Latest>,
) -> Result<Option<List<Latest>>, Memory>
    ensures { IfOk result (λ made. made ≡ states_with mark.now states.now) }
{
    match mark {
        None => Ok(None),
        Some(mark) => Ok(Some(with_state(alloc, states.as_slice(), mark)?)),
    }
}
