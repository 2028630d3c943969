//! The rows that were put in, which only contracts see.
ghost use Rattle.std.specs.Prelude.{◌≡◌, ◌++◌, ◌∷◌, []};
ghost use Rattle.live_index.specs.Puts.{rows_put};

use crate::row::Row;
use std::marker::Model;
use std::snapshot::Snapshot;

/// The rows that were put in, in turn. Contracts alone see them, and they take no memory: a list of steps, each with
/// one row or none.
#[cycle(puts)]
#[derive(Drop)]
pub(crate) struct Puts {
    last: Option<Last>,
}

/// The last step, and those before it.
#[cycle(puts)]
#[derive(Drop)]
struct Last {
    before: Snapshot<Puts>,
    row: Option<Snapshot<Row>>,
}

impl Model for Puts {
    ghost use Rattle.std.specs.Prelude.{List, length};
    ghost use Rattle.std.proofs.Common.{arith, length-append};
    ghost use Rattle.std.specs.Option.{option_map};
    ghost use Rattle.live_index.specs.declared.row.Row.{Row};
    ghost use Rattle.live_index.specs.Puts.{steps};

    ghost Value = { List (List Row) };

    ghost view = { λ p. steps (option_map (λ l. (l.before.value, option_map (λ r. r.value) l.row)) p.last) };

    ghost size = { length };

    ghost size_decreases = { λ a h. Prim.grind (arith, length-append) };
}

impl Puts {
    /// The same rows.
    pub(crate) fn same(&self) -> Puts
        ensures { result ≡ self.now ++ [] ∷ [] }
    {
        Puts {
            last: Some(Last {
                before: Snapshot::of(self),
                row: None,
            }),
        }
    }

    /// No rows.
    pub(crate) fn new() -> Puts
        ensures { result ≡ [] }
    {
        Puts { last: None }
    }

    /// These rows, and one more.
    pub(crate) fn with(&self, row: &Row) -> Puts
        ensures { result ≡ self.now ++ (row.now ∷ []) ∷ [] }
    {
        Puts {
            last: Some(Last {
                before: Snapshot::of(self),
                row: Some(Snapshot::of(row)),
            }),
        }
    }

    /// These rows, and some more.
    pub(crate) fn with_all(&self, rows: &[Row]) -> Puts
        ensures { rows_put result ≡ rows_put self.now ++ rows.now }
    {
        let mut puts = self.same();
        for row in rows {
            puts = puts.with(row);
        }
        puts
    }
}
