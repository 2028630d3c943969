//! The places of accounts among those with goals.
ghost use Rattle.std.specs.Prelude.{◌≡◌, ◌<◌, ℕ, List, None, Some, IfOk, OnOk, length, map, if◌then◌else◌};
ghost use Rattle.std.specs.HashMap.{get_by_text};
ghost use Rattle.std.specs.Str.{bytes_eq};
ghost use Rattle.budget_layout.specs.Grouped.{fronts, last_place, names_of, place_above, place_for, place_from};
ghost use Rattle.budget_layout.specs.Placed.{place_in};

use hl_base::{Memory, Text};
use report_cells::CellRow;
use std::alloc::Global;
use std::collections::HashMap;

/// The places of accounts among some rows.
#[derive(Drop)]
pub(crate) struct Places {
    places: HashMap<String, usize>,
}

/// Puts a place under the name of an account.
#[tactic(auto, using(std::proofs::lemmas::Map::Text::text_keys))]
fn put(
    places: &mut HashMap<String, usize>,
    alloc: Global,
    name: &Text,
    place: usize,
) -> Result<(), Memory>
    ensures { OnOk result ((q : List ℕ) → get_by_text places.new q
        ≡ (if bytes_eq q name.now then Some place else get_by_text places.old q)) }
{
    let key = String::from_str(alloc, name.as_str())?;
    places.insert(key, place)?;
    Ok(())
}

/// The place under a name.
fn place_under(places: &HashMap<String, usize>, name: &str) -> Option<usize>
    ensures { result ≡ get_by_text places.now name.now }
{
    places.get(name).copied()
}

impl Places {
    /// No places, which take no memory.
    pub fn none(alloc: Global) -> Places
        ensures { (name : List ℕ) → place_in result name ≡ None }
    {
        Places {
            places: HashMap::new(alloc),
        }
    }

    /// The place of each account among some rows, the first where it stands more than once.
    pub fn new(alloc: Global, rows: &[CellRow]) -> Result<Places, Memory>
        ensures { IfOk result (λ places. (name : List ℕ)
            → place_in places name ≡ place_from 0 (names_of rows.now) name) }
    {
        let mut places = HashMap::new(alloc);
        let mut at = rows.len();
        while 0 < at {
            at -= 1;
            let row = &rows[at];
            put(&mut places, alloc, &row.account, at)?;
        }
        Ok(Places { places })
    }

    /// The place of an account, if it has one.
    pub fn place(&self, account: &str) -> Option<usize>
        ensures { result ≡ place_in self.now account.now }
    {
        place_under(&self.places, account)
    }

    /// The place of the account whose name ends at a colon of another one, if it has one.
    fn place_above(&self, account: &str, at: usize) -> Option<usize>
        requires { at < length account.now }
        ensures { result ≡ place_above (place_in self.now) account.now at }
    {
        if account.as_bytes()[at] == b':' {
            self.place(&account[..at])
        } else {
            None
        }
    }

    /// The place of the nearest account above one that has a place.
    fn nearest_above(&self, account: &str) -> Option<usize>
        ensures { result ≡ last_place (place_in self.now)
            (fronts account.now (length account.now)) }
    {
        let mut at = account.len();
        while 0 < at {
            at -= 1;
            let found = self.place_above(account, at);
            if found.is_some() {
                return found;
            }
        }
        None
    }

    /// The place of an account, or else of the nearest above it that has one.
    pub fn place_for(&self, account: &str) -> Option<usize>
        ensures { result ≡ place_for (place_in self.now) account.now }
    {
        match self.place(account) {
            Some(place) => Some(place),
            None => self.nearest_above(account),
        }
    }
}
