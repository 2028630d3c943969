//! A transaction that says nothing.
ghost use Rattle.std.specs.Prelude.{◌≡◌};
ghost use Rattle.walked_edits.specs.Forms as spec;

use book::{Mark, Txn};
use hl_base::{List, Text};
use hl_time::Day;
use std::alloc::Global;

/// A transaction that holds a place, which takes no memory.
pub fn vacant(alloc: Global, day: Day) -> Txn
    ensures { result ≡ spec.vacant day }
{
    Txn {
        line: 0,
        day,
        mark: Mark::Unmarked,
        code: Text::new(alloc),
        description: Text::new(alloc),
        comment: Text::new(alloc),
        tags: List::new(alloc),
        postings: List::new(alloc),
    }
}
