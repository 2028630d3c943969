//! A house in memory, which fails where it is told to.
ghost use Rattle.std.specs.Prelude.{◌≡◌, ◌≤◌, ◌<◌, ◌+◌, [], Some, All, IfOk, IsOk, length, vec_capacity};
ghost use Rattle.hl_base.specs.Causes.{HasCause, Rose};
ghost use Rattle.desk_team.specs.Houses.{IsNew, after_door, is_sound, mem_faultless, not_bound};

use crate::house::House;
use hl_base::{Failed, List, MemClock, MemDoor, Memory, Text};
use query::Maker;
use shared_desk::Kit;
use std::alloc::Global;
use std::collections::VecDeque;
use std::snapshot::Snapshot;

/// Calls of which those fail whose numbers, counted from 1, were named, and how many failed.
#[derive(Drop)]
struct Calls {
    fails: Vec<u64>,
    count: u64,
    faults: u64,
}

impl Calls {
    /// Counts a call that failed.
    fn fail(&mut self)
        ensures later { self.old.faults ≤ self.new.faults }
        ensures rose { Rose self.old.faults self.new.faults }
        ensures same { self.new.fails ≡ self.old.fails }
    {
        self.faults = self.faults.saturating_add(1);
    }

    /// Counts the next call, and fails where it is to.
    fn next(&mut self) -> Result<(), Failed>
        ensures cause { HasCause self.old.faults self.new.faults result }
        ensures sound { self.old.fails.items ≡ [] → IsOk result }
        ensures same { self.new.fails ≡ self.old.fails }
    {
        self.count = self.count.saturating_add(1);
        if self.fails.contains(&self.count) {
            self.faults = self.faults.saturating_add(1);
            return Err(Failed);
        }
        Ok(())
    }

    /// Counts a door that came back with so many faults.
    fn take_door(&mut self, faults: u64)
        ensures faults { self.new.faults ≡ after_door self.old.faults faults }
        ensures same { self.new.fails ≡ self.old.fails }
    {
        if faults != 0 {
            self.faults = self.faults.saturating_add(1);
        }
    }
}

/// A house that hands out kits in memory, in order. The binds and workers whose numbers, counted together from 1, were
/// named fail, and so does a worker for whom no kit is left.
#[derive(Drop)]
pub struct MemHouse<M: Maker> {
    coming: VecDeque<Kit<MemDoor, MemClock, M>>,
    made: Vec<Snapshot<Kit<MemDoor, MemClock, M>>>,
    back: Vec<Kit<MemDoor, MemClock, M>>,
    calls: Calls,
    binds: u64,
    last: Option<(Text, u16)>,
    ghost order: { length back.items ≤ length made.items },
    ghost made_room: { length coming.items + length made.items ≤ vec_capacity made },
    ghost back_room: { length coming.items + length made.items ≤ vec_capacity back },
    ghost fresh: { All (λ kit. IsNew kit.door (M.refusals kit.maker)) coming.items },
}

impl<M: Maker + Drop + Send> MemHouse<M> {
    /// A house with these kits, and the room for each of them to come back, which is taken now.
    pub fn new(
        alloc: Global,
        kits: List<Kit<MemDoor, MemClock, M>>,
        fails: &[u64],
    ) -> Result<MemHouse<M>, Memory>
        requires { All (λ kit. IsNew kit.door (M.refusals kit.maker)) kits }
        ensures told { IfOk result (λ house. ⟦<MemHouse<M> as House>⟧.told house
            ≡ record {
              coming = Some kits;
              given = Some [];
              back = Some [];
              faultless = mem_faultless (λ kit. is_sound kit.door) fails.now kits;
              bound = not_bound;
              faults = 0;
              refusals = 0;
            }) }
    {
        let kits = kits.into_vec();
        let made = Vec::with_capacity(alloc, kits.len())?;
        let back = Vec::with_capacity(alloc, kits.len())?;
        let fails = Vec::from_slice(alloc, fails)?;
        Ok(MemHouse {
            coming: VecDeque::from(kits),
            made,
            back,
            calls: Calls {
                fails,
                count: 0,
                faults: 0,
            },
            binds: 0,
            last: None,
        })
    }

    /// The kits that came back, in order.
    pub fn back(&self) -> &[Kit<MemDoor, MemClock, M>]
        ensures { result.now ≡ self.now.back.items }
    {
        self.back.as_slice()
    }
}

impl<M: Maker> MemHouse<M> {
    ghost use Rattle.desk_team.specs.Houses.{HandsOut, bound_of, is_sound, mem_told};

    /// Hands out the next kit, if one is left.
    fn hand_out(&mut self) -> Result<Kit<MemDoor, MemClock, M>, Failed>
        ensures hands_out { HandsOut
            (mem_told (λ kit. is_sound kit.door) (λ kit. M.refusals kit.maker)
            self.old.coming.items self.old.made.items self.old.back.items self.old.calls.fails.items
            (bound_of self.old.binds self.old.last) self.old.calls.faults)
            (mem_told (λ kit. is_sound kit.door) (λ kit. M.refusals kit.maker)
            self.new.coming.items self.new.made.items self.new.back.items self.new.calls.fails.items
            (bound_of self.new.binds self.new.last) self.new.calls.faults)
            result }
        ensures fresh { IfOk result (λ kit. IsNew kit.door (M.refusals kit.maker)) }
        ensures sound { 0 < mem_faultless (λ kit. is_sound kit.door) self.old.calls.fails.items
            self.old.coming.items → IfOk result (λ kit. kit.door.fails.items ≡ []) }
    {
        match self.coming.pop_front() {
            Some(kit) => {
                self.made.push_reserved(Snapshot::of(&kit));
                Ok(kit)
            }
            None => {
                self.calls.fail();
                Err(Failed)
            }
        }
    }
}

impl<M: Maker + Drop + Send> House for MemHouse<M> {
    type Door = MemDoor;

    type Clock = MemClock;

    type Maker = M;

    ghost use Rattle.desk_team.specs.Houses.{IsOneOut, TakesBack, bound_of, is_sound, mem_told};

    ghost told = { λ h. mem_told (λ kit. is_sound kit.door) (λ kit. M.refusals kit.maker)
        h.coming.items h.made.items h.back.items h.calls.fails.items
        (bound_of h.binds h.last) h.calls.faults };

    fn bind(&mut self, host: Text, port: u16) -> Result<(), Failed> {
        self.binds = self.binds.saturating_add(1);
        self.last = Some((host, port));
        self.calls.next()
    }

    fn worker(&mut self) -> Result<Kit<MemDoor, MemClock, M>, Failed> {
        match self.calls.next() {
            Ok(()) => self.hand_out(),
            Err(Failed) => Err(Failed),
        }
    }

    fn give_back(&mut self, kit: Kit<MemDoor, MemClock, M>)
        requires { IsOneOut (mem_told (λ kit. is_sound kit.door) (λ kit. M.refusals kit.maker)
            self.old.coming.items self.old.made.items self.old.back.items self.old.calls.fails.items
            (bound_of self.old.binds self.old.last) self.old.calls.faults) }
        ensures { TakesBack
            (mem_told (λ kit. is_sound kit.door) (λ kit. M.refusals kit.maker)
            self.old.coming.items self.old.made.items self.old.back.items self.old.calls.fails.items
            (bound_of self.old.binds self.old.last) self.old.calls.faults)
            (mem_told (λ kit. is_sound kit.door) (λ kit. M.refusals kit.maker)
            self.new.coming.items self.new.made.items self.new.back.items self.new.calls.fails.items
            (bound_of self.new.binds self.new.last) self.new.calls.faults)
            kit kit.door.faults (M.refusals kit.maker) }
    {
        self.calls.take_door(kit.door.faults());
        self.back.push_reserved(kit);
    }
}
