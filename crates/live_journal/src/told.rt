//! What a journal tells of its text: the bytes of its items, and the sums of its book before a day.

use crate::live::Live;
use book::DaySums;
use hl_base::{Steps, Text};
use hl_num::Dec;
use hl_time::Day;
use live_cells::BookSums;
use std::sync::ledger::Ledger;
use text_pieces::Pieces;

impl Live {
    ghost use Rattle.std.specs.Prelude.{◌≡◌, map};
    ghost use Rattle.std.specs.List.{concat};
    ghost use Rattle.hl_base.specs.Items.{items_of};
    ghost use Rattle.text_pieces.specs.ItemBytes.{bytes_of, pieces_left};
    ghost use Rattle.live_journal.specs.Loading.{txns_in};

    /// The bytes of the text's items, one after another.
    pub fn pieces(&self) -> Pieces
        ensures each { pieces_left result ≡ map (bytes_of self.now.text) (items_of self.now.text) }
        ensures whole { concat (pieces_left result) ≡ self.now.text }
    {
        Pieces::of(self.text.as_slice(), self.loaded.items.as_slice())
    }

    /// The sums of the text's book before any day.
    fn by_day(&self) -> BookSums
        ensures { result ≡ txns_in self.now.year self.now.text }
    {
        let index = &self.loaded.kept.walks.kept.index;
        BookSums::new(index, self.loaded.book.txns.as_slice())
    }
}

impl DaySums for Live {
    ghost use Rattle.live_journal.specs.Loading.{txns_in};

    ghost txns = { λ j. txns_in j.year j.text };

    fn cell<L: Ledger>(
        &self,
        account: &Text,
        symbol: &Text,
        end: Day,
        below: bool,
        steps: &mut Steps<L>,
    ) -> Dec {
        self.by_day().cell(account, symbol, end, below, steps)
    }
}
