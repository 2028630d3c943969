//! The rule of the lock, and what each of its steps tells. These types are for the proofs alone.
use crate::kept::Kept;
use crate::known::{Opening, Place, View};
use atomic_table::{Join, Play, Split, TableRule};

/// The rule.
pub struct Law;

impl<T: Kept> TableRule<Place<T, T::Entry>, View<T, T::Entry>, Opening<T>> for Law {
    ghost use Rattle.turn_lock.specs.Rule.{Rule, first_view};

    ghost holds = { λ key s. Rule T.state T.leads key s };

    ghost first = { λ key. first_view key };
}

/// A load that may find the lock spent.
pub struct Look;

impl<T, E> Play<Place<T, E>, View<T, E>> for Look {
    ghost use Rattle.turn_lock.specs.Rule.{looked};

    ghost then = { looked };
}

/// An exchange that takes the value, or finds that another did.
pub struct Take;

impl<T: Kept> Play<Place<T, T::Entry>, View<T, T::Entry>> for Take {
    ghost use Rattle.turn_lock.specs.Rule.{took};

    ghost then = { took T.state T.leads };
}

/// The step that gives the value back and makes the entry.
pub struct Give;

impl<T, E> Play<Place<T, E>, View<T, E>> for Give {
    ghost use Rattle.turn_lock.specs.Rule.{gave};

    ghost then = { gave };
}

/// The first pass makes another.
pub struct Fork;

impl<T, E> Split<View<T, E>> for Fork {
    ghost use Rattle.turn_lock.specs.Views.{over_live, parent, child};

    ghost left = { over_live parent };

    ghost right = { over_live child };
}

/// The first pass takes another in.
pub struct Gather;

impl<T, E> Join<View<T, E>> for Gather {
    ghost use Rattle.turn_lock.specs.Views.{over_both, joint};
    ghost use Rattle.turn_lock.specs.declared.known.View.TheVariants.{Spent};

    ghost both = { over_both joint };

    ghost spent = { Spent };
}

/// The first pass ends, and what it knew is kept.
pub struct Close;

impl<T, E> Split<View<T, E>> for Close {
    ghost use Rattle.turn_lock.specs.Views.{over_live, closed};

    ghost left = { over_live closed };

    ghost right = { over_live closed };
}
