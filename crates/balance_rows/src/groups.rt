//! Rows that are grouped by the accounts that they count for.
ghost use Rattle.std.specs.Prelude.{◌≡◌, ◌<◌, ◌++◌, ◌∷◌, [], IfOk, OnOk, length, map};
ghost use Rattle.std.specs.List.{flat_map, fold};
ghost use Rattle.balance_rows.specs.Groups.{AreOrdered, given_at, grouped, group_with, kept_given};
ghost use Rattle.balance_rows.specs.Trees.{lineage, parents};

use crate::account_key::AccountKey;
use book::Mixed;
use hl_base::{List, Memory, Text};
use report_cells::CellRow;
use std::alloc::Global;
use std::collections::BTreeMap;
use std::marker::Model;

/// Cells that count for an account. Contracts see them.
#[derive(Drop)]
pub(crate) struct Given<'a> {
    cells: &'a [Mixed],
}

impl<'a> Model for Given<'a> {
    ghost use Rattle.std.specs.Prelude.{List, ℕ};
    ghost use Rattle.hl_num.specs.Decimal.{Decimal};

    ghost Value = { List (List (List ℕ × Decimal)) };

    ghost view = { λ g. g.cells.now };
}

impl<'a> Given<'a> {
    pub fn cells(&self) -> &'a [Mixed]
        ensures { result.now ≡ self.now }
    {
        self.cells
    }
}

/// The cells of each row.
pub(crate) fn all_given<'a>(alloc: Global, rows: &'a [CellRow]) -> Result<List<Given<'a>>, Memory>
    ensures { IfOk result (λ given. given ≡ map (λ row. row.cells) rows.now) }
{
    let mut given = Vec::new(alloc);
    for row in rows {
        given.push(Given {
            cells: row.cells.as_slice(),
        })?;
    }
    Ok(List::from_vec(given))
}

/// The cells that count for an account. Contracts see a list of them.
#[derive(Drop)]
pub(crate) struct Group<'a> {
    rows: Vec<Given<'a>>,
}

impl<'a> Model for Group<'a> {
    ghost use Rattle.std.specs.Prelude.{List, ℕ};
    ghost use Rattle.hl_num.specs.Decimal.{Decimal};

    ghost Value = { List (List (List (List ℕ × Decimal))) };

    ghost view = { λ g. g.rows.items };
}

impl<'a> Group<'a> {
    /// The cells of one row.
    pub fn of(alloc: Global, cells: &'a [Mixed]) -> Result<Group<'a>, Memory>
        ensures { IfOk result (λ group. group ≡ cells.now ∷ []) }
    {
        let mut rows = Vec::new(alloc);
        rows.push(Given { cells })?;
        Ok(Group { rows })
    }

    pub fn rows(&self) -> &[Given<'a>]
        ensures { result.now ≡ self.now }
    {
        self.rows.as_slice()
    }

    /// Adds cells behind the others.
    pub fn push(&mut self, cells: &'a [Mixed]) -> Result<(), Memory>
        ensures { OnOk result (self.new ≡ self.old ++ cells.now ∷ []) }
    {
        self.rows.push(Given { cells })?;
        Ok(())
    }
}

/// An account with the cells that count for it. Contracts see both as a pair.
#[derive(Drop)]
pub(crate) struct NamedGroup<'a> {
    account: Text,
    group: Group<'a>,
}

impl<'a> Model for NamedGroup<'a> {
    ghost use Rattle.std.specs.Prelude.{List, ℕ};
    ghost use Rattle.hl_num.specs.Decimal.{Decimal};

    ghost Value = { List ℕ × List (List (List (List ℕ × Decimal))) };

    ghost view = { λ g. (g.account, g.group) };
}

impl<'a> NamedGroup<'a> {
    pub fn account(&self) -> &str
        ensures { result.now ≡ self.now.0 }
    {
        self.account.as_str()
    }

    pub fn rows(&self) -> &[Given<'a>]
        ensures { result.now ≡ self.now.1 }
    {
        self.group.rows()
    }
}

/// Adds cells to those that count for an account.
fn add_given<'a>(
    alloc: Global,
    groups: &mut BTreeMap<AccountKey, Group<'a>>,
    account: &str,
    cells: &'a [Mixed],
) -> Result<(), Memory>
    requires { AreOrdered groups.old.entries }
    ensures added { OnOk result (groups.new.entries
        ≡ group_with groups.old.entries (account.now, cells.now)) }
    ensures ordered { OnOk result (AreOrdered groups.new.entries) }
{
    let key = AccountKey::copied(alloc, account)?;
    if let Some(group) = groups.get_mut(&key) {
        return group.push(cells);
    }
    let group = Group::of(alloc, cells)?;
    groups.insert(key, group)?;
    Ok(())
}

/// Adds cells to those that count for the account whose name ends at a place of another one, if one does.
fn add_parent<'a>(
    alloc: Global,
    groups: &mut BTreeMap<AccountKey, Group<'a>>,
    account: &str,
    at: usize,
    cells: &'a [Mixed],
) -> Result<(), Memory>
    requires ordered { AreOrdered groups.old.entries }
    requires within { at < length account.now }
    ensures added { OnOk result (groups.new.entries
        ≡ fold group_with groups.old.entries (given_at account.now cells.now at)) }
    ensures ordered { OnOk result (AreOrdered groups.new.entries) }
{
    if account.as_bytes()[at] == b':' {
        add_given(alloc, groups, &account[..at], cells)
    } else {
        Ok(())
    }
}

/// Adds cells to those that count for each account above one.
fn add_parents<'a>(
    alloc: Global,
    groups: &mut BTreeMap<AccountKey, Group<'a>>,
    account: &str,
    cells: &'a [Mixed],
) -> Result<(), Memory>
    requires { AreOrdered groups.old.entries }
    ensures added { OnOk result (groups.new.entries
        ≡ fold group_with groups.old.entries (map (λ name.
        (name, cells.now)) (parents account.now))) }
    ensures ordered { OnOk result (AreOrdered groups.new.entries) }
{
    for at in 0..account.len() {
        add_parent(alloc, groups, account, at, cells)?;
    }
    Ok(())
}

/// Adds a row to the groups of its account and of each account above it.
fn add_row<'a>(
    alloc: Global,
    groups: &mut BTreeMap<AccountKey, Group<'a>>,
    row: &'a CellRow,
) -> Result<(), Memory>
    requires { AreOrdered groups.old.entries }
    ensures added { OnOk result (groups.new.entries
        ≡ fold group_with groups.old.entries (kept_given row.now)) }
    ensures ordered { OnOk result (AreOrdered groups.new.entries) }
{
    let account = row.account.as_str();
    let cells = row.cells.as_slice();
    add_parents(alloc, groups, account, cells)?;
    add_given(alloc, groups, account, cells)
}

/// The rows by the accounts that they count for.
fn grouped<'a>(
    alloc: Global,
    rows: &'a [CellRow],
) -> Result<BTreeMap<AccountKey, Group<'a>>, Memory>
    ensures { IfOk result (λ groups. groups.entries ≡ grouped (flat_map kept_given rows.now)) }
{
    let mut groups = BTreeMap::new(alloc);
    for row in rows {
        add_row(alloc, &mut groups, row)?;
    }
    Ok(groups)
}

/// The rows by the accounts that they count for, in the order of these accounts.
pub(crate) fn named_groups<'a>(
    alloc: Global,
    rows: &'a [CellRow],
) -> Result<List<NamedGroup<'a>>, Memory>
    ensures { IfOk result (λ named. named ≡ grouped (flat_map kept_given rows.now)) }
{
    let groups = grouped(alloc, rows)?;
    let mut named = Vec::new(alloc);
    for (key, group) in groups {
        named.push(NamedGroup {
            account: key.into_account(),
            group,
        })?;
    }
    Ok(List::from_vec(named))
}
