//! A total that is added to.
ghost use Rattle.std.specs.Prelude.{◌≡◌};

use crate::work::Work;
use std::snapshot::Snapshot;
use turn_lock::Kept;

/// A total, modulo 2^64.
#[derive(Drop)]
pub struct Count {
    pub total: u64,
}

/// What was added, and the total after it.
#[derive(Drop)]
pub struct Added {
    pub amount: Snapshot<u64>,
    pub total: Snapshot<u64>,
}

impl Kept for Count {
    ghost use Rattle.std.specs.Prelude.{ℕ};
    ghost use Rattle.turn_client.specs.Sums.{AddsUp};

    type Entry = Added;

    ghost State = { ℕ };

    ghost state = { λ c. c.total };

    ghost leads = { AddsUp };
}

impl Work for Count {
    type Ask = u64;

    type Answer = u64;

    ghost says = { λ e ask answer. (e.amount.value ≡ ask) × (e.total.value ≡ answer) };

    fn work(&mut self, ask: &u64) -> (u64, Added) {
        self.total = self.total.wrapping_add(*ask);
        let entry = Added {
            amount: Snapshot::of(ask),
            total: Snapshot::of(&self.total),
        };
        (self.total, entry)
    }
}
