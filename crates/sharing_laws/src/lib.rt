//! All that is made of a text may go to another thread.
#![tactic(auto)]

use loaded_texts::Loaded;

/// A value that may go to another thread.
fn crosses<T: Send>(_value: &T) {}

/// What is made of a text may go to another thread.
pub fn loaded_texts_cross(loaded: &Loaded) {
    crosses(loaded)
}
