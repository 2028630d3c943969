//! The lock.
ghost use Rattle.std.specs.Prelude.{◌≡◌, ◌+◌, ◌-◌, ◌*◌, ◌%◌, ◌^◌, ◌<◌, [], ◌∷◌, ◌++◌, length, MatchResult, IfOk, IfErr, OnOk, IsOk};
ghost use mathlib.Core.List.{IsPrefix};
ghost use Rattle.turn_lock.specs.History.{Leads, IsOf, longer};
ghost use Rattle.turn_lock.specs.Passes.{IsFree, IsFirst, KeepsPass, first_pass, stamped};
ghost use Rattle.turn_lock.specs.declared.known.Hold.TheVariants.{Free, Holds, Over};

use crate::held::Held;
use crate::kept::Kept;
use crate::known::{Opening, Place};
use crate::pass::Pass;
use crate::rule::{Close, Fork, Gather};
use crate::steps::{Room, acquire, release};
use atomic_table::{Refused, Table};
use hl_base::Memory;
use std::alloc::{AllocFailed, Global};
use std::marker::Model;
use std::snapshot::Snapshot;
use std::sync::Wait;

/// The lock. Contracts see which lock it is.
#[derive(Drop)]
pub struct Turn<T: Kept> {
    table: Room<T>,
}

impl<T: Kept> Model for Turn<T> {
    ghost use Rattle.std.specs.Prelude.{◌≡◌};
    ghost use Rattle.turn_lock.specs.Views.{Lock};

    ghost Value = { Lock T };

    ghost view = { λ t. record { name = t.table.shared.table_id; done = t.table.shared.key.done; opening = t.table.shared.key.first.value } };

    ghost invariant = { λ t. (t.table.shared.table_id.words ≡ 1) × (t.table.shared.table_id.slots ≡ 1) };
}

/// The lock's history has no room for another entry.
#[derive(Clone, Copy, Debug, PartialEq, Eq)]
pub struct Spent;

impl<T: Kept> Turn<T> {
    /// A lock of a value, and its first pass. `done` entries were made before its history, which is empty.
    pub fn new(alloc: Global, value: T, done: u64) -> Result<(Turn<T>, Pass<T>), (T, Memory)>
        requires { done < 2 ^ 63 }
        ensures { MatchResult result (λ r. (r.0.done ≡ done) × (r.0.opening ≡ value)
            × (r.1 ≡ first_pass r.0)) (λ e. e.0 ≡ value) }
    {
        let about = Opening {
            done,
            first: Snapshot::of(&value),
        };
        let mut slots = Vec::new(alloc);
        if let Err(failed) = slots.push(Place {
            value: Some(value),
            last: None,
        }) {
            slots.destroy_empty();
            let AllocFailed { value: place } = failed;
            return Err((place.into_value(), Memory));
        }
        match Table::new(alloc, &[2 * done], slots, &about) {
            Ok((table, seat)) => Ok((Turn { table }, Pass { seat })),
            Err(Refused { mut slots }) => {
                let place = slots.pop().unwrap();
                slots.destroy_empty();
                Err((place.into_value(), Memory))
            }
        }
    }
    /// Takes the value, and waits while another has it. The pass then has seen the history that led to this value.
    /// `Spent`: the history that it has seen then is one that leaves no room for another entry.
    pub fn take<R: Wait>(&self, rt: &R, pass: &mut Pass<T>) -> Result<Held<T>, Spent>
        requires { IsFree self.now pass.old }
        ensures pass { KeepsPass pass.old pass.new }
        ensures seen { IsPrefix pass.old.seen pass.new.seen }
        ensures held { IfOk result (λ h. (h.pass.value ≡ pass.new) × (pass.new.hold ≡ Holds h.value)
            × Leads T.leads (T.state self.now.opening) pass.new.seen (T.state h.value)
            × (self.now.done + length pass.new.seen + 1 < 2 ^ 63)) }
        ensures spent { IfErr result (λ _. (pass.new.hold ≡ Free)
            × (self.now.done + length pass.new.seen + 1 ≡ 2 ^ 63)) }
    {
        match acquire(rt, &self.table.shared, &mut pass.seat) {
            Some(value) => Ok(Held {
                value,
                pass: Snapshot::of(pass),
            }),
            None => Err(Spent),
        }
    }

    /// Gives the value back, and enters how its state came from the state that was taken.
    pub fn give(&self, pass: &mut Pass<T>, held: Held<T>, entry: T::Entry)
        requires lock { pass.old.lock ≡ self.now }
        requires took { held.pass.value ≡ pass.old }
        requires leads { (taken : T) × (pass.old.hold ≡ Holds taken)
            × T.leads (T.state taken) entry (T.state held.value) }
        ensures { pass.new ≡ record pass.old {
          seen = pass.old.seen ++ stamped pass.old.number entry
              ∷ [];
          mine = pass.old.mine ++ entry ∷ [];
          hold = Free;
        } }
    {
        let Held { value, pass: _ } = held;
        release(&self.table.shared, &mut pass.seat, value, entry);
    }

    /// Makes another pass, which has seen what the first one has.
    pub fn split(&self, pass: &mut Pass<T>) -> Result<Pass<T>, Memory>
        requires { IsFirst self.now pass.old }
        ensures answer { IsOk result }
        ensures first { pass.new ≡ record pass.old { made = pass.old.made + 1 } }
        ensures another { IfOk result (λ p.
            p ≡ record pass.old { number = pass.old.made + 1; made = 0; mine = []; joined = [] }) }
    {
        let seat = self.table.shared.split_seat::<Fork>(&mut pass.seat);
        Ok(Pass { seat })
    }

    /// Takes another pass in.
    pub fn join(&self, pass: &mut Pass<T>, other: Pass<T>)
        requires first { IsFirst self.now pass.old }
        requires other { IsFree self.now other }
        ensures { pass.new ≡ record pass.old {
          seen = longer pass.old.seen other.seen;
          joined = pass.old.joined
              ++ record { number = other.number; mine = other.mine } ∷ [];
        } }
    {
        let Pass { seat } = other;
        self.table.shared.join_seat::<Gather>(&mut pass.seat, seat);
    }

    /// Closes the lock, once each pass that was made came back. The first pass has then seen the whole history.
    pub fn close(self, pass: Pass<T>) -> (T, Pass<T>)
        requires first { IsFirst self pass }
        requires all { pass.made ≡ length pass.joined }
        ensures pass { result.1 ≡ record pass { hold = Over } }
        ensures led { Leads T.leads (T.state self.opening) result.1.seen (T.state result.0) }
        ensures whole { IsOf result.1.seen result.1.mine result.1.joined }
    {
        let Turn { table } = self;
        let Pass { mut seat } = pass;
        let kept = table.shared.split_seat::<Close>(&mut seat);
        let mut closed = table.close_with(seat);
        let place = closed.take(0);
        closed.free();
        (place.into_value(), Pass { seat: kept })
    }
}
