//! The counters of the work that contracts speak of. They take no bytes, and nothing that runs can read them.
ghost use Rattle.std.specs.Prelude.{◌≡◌, ◌+◌, ◌<◌};

use std::marker::Model;
use std::sync::ledger::{Blank, Book, Ledger, Share};

/// Three counters that contracts alone see: the bytes that were read as items, the nodes of the index of sums
/// that were asked, and the transactions that were checked.
#[derive(Drop)]
pub struct Steps<L: Ledger> {
    book: Book<L>,
    bytes_read: Share<L>,
    nodes: Share<L>,
    checked: Share<L>,
}

impl<L: Ledger> Model for Steps<L> {
    ghost use Rattle.std.specs.Prelude.{◌<◌};
    ghost use Rattle.hl_base.specs.Counts.{Counts};

    ghost Value = { Counts };

    ghost view = { λ s. record { bytes_read = s.bytes_read.amount; nodes = s.nodes.amount; checked = s.checked.amount } };

    ghost invariant = { λ s. (0 < s.bytes_read.parts) × (0 < s.nodes.parts) × (0 < s.checked.parts) };
}

impl<L: Ledger> Steps<L> {
    /// Counters at zero, of a blank ledger of three parts.
    pub fn start(blank: Blank) -> Steps<L>
        requires name { blank.name ≡ L.name }
        requires parts { blank.parts ≡ L.parts }
        requires three { blank.parts ≡ 3 }
        ensures { result ≡ record { bytes_read = 0; nodes = 0; checked = 0 } }
    {
        let (book, mut checked) = blank.open();
        let bytes_read = checked.split_off(1, 0);
        let nodes = checked.split_off(1, 0);
        Steps {
            book,
            bytes_read,
            nodes,
            checked,
        }
    }

    /// Counts bytes that were read as an item.
    pub fn read_bytes(&mut self, count: u64)
        ensures { self.new ≡ record self.old { bytes_read = self.old.bytes_read + count } }
    {
        self.book.add(&mut self.bytes_read, count);
    }

    /// Counts a node that was asked.
    pub fn ask_node(&mut self)
        ensures { self.new ≡ record self.old { nodes = self.old.nodes + 1 } }
    {
        self.book.add(&mut self.nodes, 1);
    }

    /// Counts a transaction that was checked.
    pub fn check_one(&mut self)
        ensures { self.new ≡ record self.old { checked = self.old.checked + 1 } }
    {
        self.book.add(&mut self.checked, 1);
    }
}
