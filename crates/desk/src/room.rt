//! Whether the store has room for an edit.
ghost use Rattle.std.specs.Prelude.{◌≡◌};
ghost use Rattle.desk.specs.States as state;

use crate::deed::Deed;
use crate::desk::Desk;
use crate::judging::{at_an_end, is_past};
use crate::keep::is_due;
use crate::putting::Ready;
use crate::reply::Reply;
use crate::sizes::record_size;
use hl_base::{Disk, Latest, List};
use text_store::size_of_parts;

impl<D: Disk> Desk<D> {
    ghost use Rattle.std.specs.Prelude.{◌≡◌, ◌-◌, ◌^◌, ◌<◌, min};
    ghost use Rattle.live_journal.specs.Loading.{first_of};
    ghost use Rattle.desk.specs.Desks.{state_of};

    /// The refusal of an edit that the store has no room for, or where a number has come to its end.
    pub(crate) fn unready(&self, deed: &Deed, ready: &Ready) -> Option<Reply>
        ensures { result ≡ first_of (state.full_cases (state_of self.now) deed.now.mark
            ready.now.states (min (state.record_size ready.now.change) (2 ^ 64 - 1))) }
    {
        let size = record_size(&ready.change);
        self.full(size, &deed.mark, &ready.states)
    }

    /// The refusal of an edit whose record has so many bytes, where there is no room for it, or a number has come to its
    /// end.
    fn full(&self, size: u64, mark: &Option<Latest>, states: &Option<List<Latest>>) -> Option<Reply>
        requires { 0 < size }
        ensures { result
            ≡ first_of (state.full_cases (state_of self.now) mark.now states.now size) }
    {
        match self.no_room(size) {
            Some(reply) => Some(reply),
            None => at_an_end(self.live.revision(), mark, states),
        }
    }

    /// The refusal of an edit whose record has so many bytes, where also a new store has no room for it.
    fn no_room(&self, size: u64) -> Option<Reply>
        requires { 0 < size }
        ensures { result ≡ state.no_room (state_of self.now) size }
    {
        if !is_due(&self.store, &self.live, &self.latest, size) {
            return None;
        }
        let whole = size_of_parts(self.live.text(), self.latest.as_slice());
        let limit = self.store.limit();
        if is_past(limit, whole, size) {
            let size = whole.saturating_add(size);
            Some(Reply::Full { size, limit })
        } else {
            None
        }
    }
}
