//! The pass of one caller.
ghost use Rattle.std.specs.Prelude.{◌≡◌, true};
ghost use Rattle.turn_lock.specs.Views.{is_live};

use crate::kept::Kept;
use crate::known::{Place, View};
use atomic_table::Seat;
use std::marker::Model;

/// What one caller knows of a lock. It takes no bytes.
#[derive(Drop)]
pub struct Pass<T: Kept> {
    pub(crate) seat: Seat<Place<T, T::Entry>, View<T, T::Entry>>,
    ghost live: { is_live seat.me.0 ≡ true },
}

impl<T: Kept> Model for Pass<T> {
    ghost use Rattle.turn_lock.specs.Views.{Standing, standing, Carries};

    ghost Value = { Standing T T.Entry };

    ghost view = { λ p. standing p.seat p.live };

    ghost invariant = { λ p. Carries p.seat p.live };
}
