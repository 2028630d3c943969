//! A door in memory, which fails where it is told to.
ghost use Rattle.std.specs.Prelude.{◌≡◌, ◌≤◌, ◌+◌, [], Some, IfOk, length, map, vec_capacity};
ghost use Rattle.hl_base.specs.MemDoor.{uncounted};

use crate::door::{Door, Knock};
use crate::fault::Memory;
use crate::list::List;
use crate::mem_link::MemLink;
use std::alloc::Global;
use std::collections::VecDeque;
use std::snapshot::Snapshot;

/// A door to which connections in memory come. The calls of `next` whose numbers, counted from 1, were named fail
/// while a connection is to come.
#[derive(Drop)]
pub struct MemDoor {
    coming: VecDeque<MemLink>,
    given: Vec<Snapshot<MemLink>>,
    back: Vec<MemLink>,
    fails: Vec<u64>,
    calls: u64,
    faults: u64,
    ghost order: { length back.items ≤ length given.items },
    ghost given_room: { length coming.items + length given.items ≤ vec_capacity given },
    ghost back_room: { length coming.items + length given.items ≤ vec_capacity back },
}

impl MemDoor {
    /// A door to which these connections come, with the room for each of them to come back, which is taken now.
    pub fn new(alloc: Global, links: List<MemLink>, fails: &[u64]) -> Result<MemDoor, Memory>
        ensures coming { IfOk result (λ door.
            ⟦<MemDoor as Door>⟧.coming door ≡ Some (map uncounted links)) }
        ensures given { IfOk result (λ door. ⟦<MemDoor as Door>⟧.given door ≡ Some []) }
        ensures faults { IfOk result (λ door. ⟦<MemDoor as Door>⟧.faults door ≡ 0) }
        ensures sound { IfOk result (λ door. fails.now ≡ [] → ⟦<MemDoor as Door>⟧.IsSound door) }
    {
        let links = links.into_vec();
        let given = Vec::with_capacity(alloc, links.len())?;
        let back = Vec::with_capacity(alloc, links.len())?;
        let fails = Vec::from_slice(alloc, fails)?;
        Ok(MemDoor {
            coming: VecDeque::from(links),
            given,
            back,
            fails,
            calls: 0,
            faults: 0,
        })
    }

    /// The connections that came back, in order.
    pub fn back(&self) -> &[MemLink]
        ensures { result.now ≡ self.now.back.items }
    {
        self.back.as_slice()
    }

    /// How many calls have failed.
    pub fn faults(&self) -> u64
        ensures { result ≡ ⟦<MemDoor as Door>⟧.faults self.now }
    {
        self.faults
    }
}

impl Door for MemDoor {
    type Link = MemLink;

    ghost use Rattle.std.specs.Prelude.{◌≡◌, [], Some, map};
    ghost use Rattle.hl_base.specs.MemDoor.{uncounted, visits_of};

    ghost coming = { λ d. Some (map uncounted d.coming.items) };

    ghost given = { λ d. Some (visits_of d.given.items d.back.items) };

    ghost faults = { λ d. d.faults };

    ghost IsSound = { λ d. d.fails.items ≡ [] };

    fn next(&mut self) -> Knock<MemLink> {
        self.calls = self.calls.saturating_add(1);
        if self.coming.is_empty() {
            return Knock::End;
        }
        if self.fails.contains(&self.calls) {
            self.faults = self.faults.saturating_add(1);
            return Knock::Failed;
        }
        let Some(link) = self.coming.pop_front() else {
            return Knock::End
        };
        let link = link.uncounted();
        let _ = self.given.push(Snapshot::of(&link));
        Knock::Link(link)
    }

    fn give_back(&mut self, link: MemLink) {
        if self.back.len() < self.given.len() {
            let _ = self.back.push(link);
        }
    }
}
