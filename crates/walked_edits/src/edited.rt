//! An edit of some transactions.
ghost use Rattle.std.specs.Prelude.{◌≡◌};

use book::Txn;
use hl_base::Text;
use placed_sums::ByNumber;
use reached_walk::Spot;
use std::alloc::Global;
use std::marker::Model;
use watchers::Watchers;

/// An edit of some transactions: where they stand now, in the order of their places; the transactions as they were written
/// before the edit, and as they are written now; the watches of these; and symbols in the order of their bytes, among which
/// are all of the book's.
#[derive(Drop)]
pub struct Edited<'a, V: ByNumber, W: ByNumber> {
    alloc: Global,
    spots: &'a [Spot],
    former: &'a V,
    written: &'a W,
    watchers: &'a Watchers,
    symbols: &'a [Text],
}

impl<'a, V: ByNumber, W: ByNumber> Model for Edited<'a, V, W> {
    ghost use Rattle.walked_edits.specs.Scenes.{Scene, scene};

    ghost Value = { Scene };

    ghost view = { λ e. scene e.spots.now (V.txns e.former.now)
        (W.txns e.written.now) e.watchers.now e.symbols.now };
}

impl<'a, V: ByNumber, W: ByNumber> Edited<'a, V, W> {
    ghost use Rattle.std.specs.Prelude.{◌≡◌, slice_get};
    ghost use Rattle.std.specs.Option.{option_copied};
    ghost use Rattle.walked_edits.specs.Scenes.{scene};

    /// An edit of the transactions that stand at some places. Those that come behind the old text are added, and all others
    /// are changed.
    pub fn new(
        alloc: Global,
        spots: &'a [Spot],
        former: &'a V,
        written: &'a W,
        watchers: &'a Watchers,
        symbols: &'a [Text],
    ) -> Edited<'a, V, W>
        ensures { result ≡ scene spots.now (V.txns former.now)
            (W.txns written.now) watchers.now symbols.now }
    {
        Edited {
            alloc,
            spots,
            former,
            written,
            watchers,
            symbols,
        }
    }

    pub(crate) fn alloc(&self) -> Global {
        self.alloc
    }

    /// Where the edited transactions stand.
    pub(crate) fn spots(&self) -> &[Spot]
        ensures { result.now ≡ self.now.spots }
    {
        self.spots
    }

    /// A transaction as it was written before, if it was.
    pub(crate) fn former_form(&self, number: u64) -> Option<&Txn>
        ensures { option_copied result ≡ slice_get self.now.former number }
    {
        self.former.txn(number as usize)
    }

    /// A transaction as it is written.
    pub(crate) fn written_form(&self, number: u64) -> Option<&Txn>
        ensures { option_copied result ≡ slice_get self.now.written number }
    {
        self.written.txn(number as usize)
    }

    pub(crate) fn watchers(&self) -> &Watchers
        ensures { result.now ≡ self.now.watches }
    {
        self.watchers
    }

    pub(crate) fn symbols(&self) -> &[Text]
        ensures { result.now ≡ self.now.symbols }
    {
        self.symbols
    }
}
