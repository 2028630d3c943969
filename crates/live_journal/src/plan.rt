//! A planned edit of a journal.
ghost use Rattle.std.specs.Prelude.{◌≡◌};

use crate::live::Live;
use hl_base::{Bytes, Splice};
use loaded_texts::Made;
use std::marker::Model;
use std::snapshot::Snapshot;

/// An edit of a journal that was accepted, with all that it makes of the journal. One that is dropped changes nothing.
#[derive(Drop)]
pub struct Plan {
    pub(crate) from: Snapshot<Live>,
    pub(crate) text: Bytes,
    pub(crate) splice: Splice,
    pub(crate) same: bool,
    pub(crate) made: Made,
}

impl Model for Plan {
    ghost use Rattle.live_journal.specs.Journals.{Planned};
    ghost use Rattle.loaded_texts.specs.Ways.{IsMadeFrom};

    ghost Value = { Planned };

    ghost view = { λ p.
        record { from = p.from.value; text = p.text; splice = p.splice; same = p.same } };

    ghost invariant = { λ p.
        IsMadeFrom p.from.value.year p.from.value.text p.splice.inserted p.text p.made };
}

impl Plan {
    /// The change of the old text that makes the new one.
    pub fn splice(&self) -> &Splice
        ensures { result.now ≡ self.now.splice }
    {
        &self.splice
    }

    /// Whether the new text is the old one.
    pub fn same(&self) -> bool
        ensures { result ≡ self.now.same }
    {
        self.same
    }
}
