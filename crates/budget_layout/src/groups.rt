//! Rows that are grouped by the goals that they count for.
ghost use Rattle.std.specs.Prelude.{◌≡◌, ◌<◌, ◌++◌, ◌∷◌, [], ℕ, List, IfOk, IfSome, OnOk, length, map, replicate, slice_index_or};
ghost use Rattle.budget_layout.specs.Grouped.{groups_of, place_for, rows_at, ungrouped, with_rest, with_row};
ghost use Rattle.budget_layout.specs.Placed.{place_in};

use crate::places::Places;
use hl_base::{List, Memory};
use report_cells::CellRow;
use std::alloc::Global;
use std::marker::Model;

/// Rows that count for one account. Contracts see a list of them.
#[derive(Drop)]
pub(crate) struct Group {
    rows: Vec<CellRow>,
}

impl Model for Group {
    ghost use Rattle.std.specs.Prelude.{List};
    ghost use Rattle.report_cells.specs.declared.cells.CellRow.{CellRow};

    ghost Value = { List CellRow };

    ghost view = { λ g. g.rows.items };
}

impl Group {
    /// No rows, which take no memory.
    pub fn new(alloc: Global) -> Group
        ensures { result ≡ [] }
    {
        Group {
            rows: Vec::new(alloc),
        }
    }

    pub fn rows(&self) -> &[CellRow]
        ensures { result.now ≡ self.now }
    {
        self.rows.as_slice()
    }

    /// Adds a row behind the others.
    pub fn push(&mut self, row: CellRow) -> Result<(), Memory>
        ensures { OnOk result (self.new ≡ self.old ++ row ∷ []) }
    {
        self.rows.push(row)?;
        Ok(())
    }
}

/// The rows of each place, and those of none.
#[derive(Drop)]
pub(crate) struct Groups {
    pub groups: Vec<Group>,
    pub rest: Group,
}

/// A number of groups without rows.
fn empty_groups(alloc: Global, count: usize) -> Result<Vec<Group>, Memory>
    ensures { IfOk result (λ groups. groups.items ≡ replicate count []) }
{
    let mut groups = Vec::new(alloc);
    for _made in 0..count {
        groups.push(Group::new(alloc))?;
    }
    Ok(groups)
}

/// Puts a row into the group of its place, or into that of none.
fn put_row(
    groups: &mut Vec<Group>,
    rest: &mut Group,
    place: Option<usize>,
    row: CellRow,
) -> Result<(), Memory>
    requires { IfSome place (λ at. at < length groups.old.items) }
    ensures groups { OnOk result (groups.new.items ≡ with_row place row groups.old.items) }
    ensures rest { OnOk result (rest.new ≡ with_rest place row rest.old) }
{
    match place {
        Some(at) => groups[at].push(row),
        None => rest.push(row),
    }
}

/// The rows by the places of the accounts that they count for.
pub(crate) fn grouped(
    alloc: Global,
    places: &Places,
    count: usize,
    rows: List<CellRow>,
) -> Result<Groups, Memory>
    requires { (name : List ℕ) → IfSome (place_in places.now name) (λ at. at < count) }
    ensures groups { IfOk result (λ grouped. grouped.groups.items
        ≡ groups_of (place_in places.now) count rows) }
    ensures rest { IfOk result (λ grouped. grouped.rest ≡ ungrouped (place_in places.now) rows) }
{
    let mut groups = empty_groups(alloc, count)?;
    let mut rest = Group::new(alloc);
    for row in rows.into_vec() {
        let place = places.place_for(row.account.as_str());
        put_row(&mut groups, &mut rest, place, row)?;
    }
    Ok(Groups { groups, rest })
}

/// The rows of a place, if there is one.
pub(crate) fn rows_at(groups: &[Group], place: Option<usize>) -> &[CellRow]
    ensures { result.now ≡ rows_at place groups.now }
{
    match place {
        Some(at) => group_rows(groups, at),
        None => &[],
    }
}

/// The rows of the group at an index, if there is one.
fn group_rows(groups: &[Group], at: usize) -> &[CellRow]
    ensures { result.now ≡ slice_index_or groups.now at [] }
{
    match groups.get(at) {
        Some(group) => group.rows(),
        None => &[],
    }
}
