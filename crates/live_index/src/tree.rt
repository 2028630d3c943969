//! Cells in a balanced tree, of which a changed copy shares all but the cells on the way to the change.
ghost use Rattle.std.specs.Prelude.{◌≡◌, ◌++◌, ◌∷◌, [], map, IfOk, IfSome, not};
ghost use Rattle.std.specs.Arc.{arc_value};
ghost use Rattle.std.specs.Option.{option_copied};
ghost use Rattle.std.specs.Ordering.{eq_by_cmp};
ghost use Rattle.std.specs.FinMap.Entries.{put, where_key};
ghost use Rattle.live_index.specs.Cells.{AreCells, HasDays, IsOrdered, AreJoined, key_cmp, sums_of, told_by};
ghost use Rattle.live_index.specs.Trees.{cells_of};

use crate::cell::Cell;
use hl_base::{Memory, Text};
use std::alloc::Global;
use std::cmp::Ordering;
use std::sync::Arc;

/// Cells in the order of their keys.
#[cycle(tree)]
#[derive(Drop)]
pub(crate) enum Tree {
    Leaf,
    Fork(Arc<Fork>),
}

/// A cell between those of lesser and of greater keys. The height is that of the longest way down.
#[cycle(tree)]
#[derive(Drop)]
pub(crate) struct Fork {
    left: Tree,
    cell: Arc<Cell>,
    right: Tree,
    height: u8,
}

/// The same tree, shared.
pub(crate) fn shared(tree: &Tree) -> Result<Tree, Memory>
    ensures { IfOk result (λ copy. cells_of copy ≡ cells_of tree.now) }
{
    match tree {
        Tree::Leaf => Ok(Tree::Leaf),
        Tree::Fork(fork) => Ok(Tree::Fork(Arc::try_clone(fork)?)),
    }
}

/// The cell of a key.
pub(crate) fn find<'a>(
    tree: &'a Tree,
    account: &[u8],
    symbol: &Text,
    below: bool,
) -> Option<&'a Cell>
    ensures { IsOrdered (cells_of tree.now) → told_by (option_copied result)
        ≡ sums_of (record { account = account.now; symbol = symbol.now; below = below })
        (cells_of tree.now) }
{
    match tree {
        Tree::Leaf => None,
        Tree::Fork(fork) => match fork.cell.compare(account, symbol, below) {
            Ordering::Less => find(&fork.right, account, symbol, below),
            Ordering::Equal => Some(&fork.cell),
            Ordering::Greater => find(&fork.left, account, symbol, below),
        },
    }
}

/// The tree with the sums of some cells beside those that it has.
pub(crate) fn with_all(alloc: Global, tree: &Tree, cells: &[Arc<Cell>]) -> Result<Tree, Memory>
    requires tree { AreCells (cells_of tree.now) }
    requires cells { AreCells (map arc_value cells.now) }
    ensures { IfOk result (λ new. AreJoined (cells_of tree.now) (map arc_value cells.now)
        (cells_of new)) }
{
    match tree {
        Tree::Leaf => tree_of(alloc, cells),
        Tree::Fork(_) => with_each(alloc, tree, cells),
    }
}

/// The cells of a list as a tree.
fn tree_of(alloc: Global, cells: &[Arc<Cell>]) -> Result<Tree, Memory>
    ensures { IfOk result (λ new. cells_of new ≡ map arc_value cells.now) }
{
    if cells.is_empty() {
        return Ok(Tree::Leaf);
    }
    let (front, back) = cells.split_at(cells.len() / 2);
    let left = tree_of(alloc, front)?;
    let right = tree_of(alloc, &back[1..])?;
    node(alloc, left, Arc::try_clone(&back[0])?, right)
}

/// The tree with the sums of some cells, put in one after another.
fn with_each(alloc: Global, tree: &Tree, cells: &[Arc<Cell>]) -> Result<Tree, Memory>
    requires tree { AreCells (cells_of tree.now) }
    requires cells { AreCells (map arc_value cells.now) }
    ensures { IfOk result (λ new. AreJoined (cells_of tree.now) (map arc_value cells.now)
        (cells_of new)) }
{
    let mut all = shared(tree)?;
    for cell in cells {
        all = with_sums(alloc, &all, cell)?;
    }
    Ok(all)
}

/// The tree with a cell's sums beside those that it has.
fn with_sums(alloc: Global, tree: &Tree, cell: &Arc<Cell>) -> Result<Tree, Memory>
    requires tree { AreCells (cells_of tree.now) }
    requires cell { HasDays (arc_value cell.now).1 }
    ensures { IfOk result (λ new. AreJoined (cells_of tree.now) (arc_value cell.now ∷ [])
        (cells_of new)) }
{
    match find_like(tree, cell) {
        None => put_in(alloc, tree, Arc::try_clone(cell)?),
        Some(old) => {
            let both = old.plus(alloc, cell)?;
            if both.has_days() {
                put_in(alloc, tree, Arc::new(alloc, both)?)
            } else {
                without(alloc, tree, cell)
            }
        }
    }
}

/// The cell of the key of another.
fn find_like<'a>(tree: &'a Tree, cell: &Cell) -> Option<&'a Cell>
    ensures sums { IsOrdered (cells_of tree.now) → told_by (option_copied result)
        ≡ sums_of cell.now.0 (cells_of tree.now) }
    ensures key { IfSome result (λ found. found.now.0 ≡ cell.now.0) }
{
    match tree {
        Tree::Leaf => None,
        Tree::Fork(fork) => match fork.cell.compare_with(cell) {
            Ordering::Less => find_like(&fork.right, cell),
            Ordering::Equal => Some(&fork.cell),
            Ordering::Greater => find_like(&fork.left, cell),
        },
    }
}

/// The tree with a cell in the place of its key.
fn put_in(alloc: Global, tree: &Tree, cell: Arc<Cell>) -> Result<Tree, Memory>
    ensures { IsOrdered (cells_of tree.now) → IfOk result (λ new. cells_of new
        ≡ put key_cmp (arc_value cell).0 (arc_value cell).1 (cells_of tree.now)) }
{
    match tree {
        Tree::Leaf => node(alloc, Tree::Leaf, cell, Tree::Leaf),
        Tree::Fork(fork) => match fork.cell.compare_with(&cell) {
            Ordering::Less => {
                let right = put_in(alloc, &fork.right, cell)?;
                balanced(
                    alloc,
                    shared(&fork.left)?,
                    Arc::try_clone(&fork.cell)?,
                    right,
                )
            }
            Ordering::Equal => node(alloc, shared(&fork.left)?, cell, shared(&fork.right)?),
            Ordering::Greater => {
                let left = put_in(alloc, &fork.left, cell)?;
                balanced(
                    alloc,
                    left,
                    Arc::try_clone(&fork.cell)?,
                    shared(&fork.right)?,
                )
            }
        },
    }
}

/// The tree without the cell of a cell's key.
fn without(alloc: Global, tree: &Tree, cell: &Cell) -> Result<Tree, Memory>
    ensures { IsOrdered (cells_of tree.now) → IfOk result (λ new. cells_of new
        ≡ where_key key_cmp (λ key. not (eq_by_cmp key_cmp cell.now.0 key)) (cells_of tree.now)) }
{
    match tree {
        Tree::Leaf => Ok(Tree::Leaf),
        Tree::Fork(fork) => match fork.cell.compare_with(cell) {
            Ordering::Less => {
                let right = without(alloc, &fork.right, cell)?;
                balanced(
                    alloc,
                    shared(&fork.left)?,
                    Arc::try_clone(&fork.cell)?,
                    right,
                )
            }
            Ordering::Equal => beside(alloc, &fork.left, &fork.right),
            Ordering::Greater => {
                let left = without(alloc, &fork.left, cell)?;
                balanced(
                    alloc,
                    left,
                    Arc::try_clone(&fork.cell)?,
                    shared(&fork.right)?,
                )
            }
        },
    }
}

/// The cells of two trees whose heights differ by one at most, those of the first before those of the second.
fn beside(alloc: Global, left: &Tree, right: &Tree) -> Result<Tree, Memory>
    ensures { IfOk result (λ new. cells_of new ≡ cells_of left.now ++ cells_of right.now) }
{
    match right {
        Tree::Leaf => shared(left),
        Tree::Fork(fork) => {
            let (cell, rest) = first_and_rest(alloc, fork)?;
            balanced(alloc, shared(left)?, cell, rest)
        }
    }
}

/// The first cell, and the tree without it.
fn first_and_rest(alloc: Global, fork: &Fork) -> Result<(Arc<Cell>, Tree), Memory>
    ensures { IfOk result (λ both. arc_value both.0 ∷ cells_of both.1
        ≡ cells_of fork.now.left ++ arc_value fork.now.cell ∷ cells_of fork.now.right) }
{
    match &fork.left {
        Tree::Leaf => Ok((Arc::try_clone(&fork.cell)?, shared(&fork.right)?)),
        Tree::Fork(left) => {
            let (cell, rest) = first_and_rest(alloc, left)?;
            let rest = balanced(
                alloc,
                rest,
                Arc::try_clone(&fork.cell)?,
                shared(&fork.right)?,
            )?;
            Ok((cell, rest))
        }
    }
}

/// A tree of a cell between two trees, turned where their heights differ by more than one.
fn balanced(alloc: Global, left: Tree, cell: Arc<Cell>, right: Tree) -> Result<Tree, Memory>
    ensures { IfOk result (λ new. cells_of new ≡ cells_of left ++ arc_value cell ∷ cells_of right) }
{
    if height(&left) > height(&right).saturating_add(1) {
        turned_right(alloc, left, cell, right)
    } else if height(&right) > height(&left).saturating_add(1) {
        turned_left(alloc, left, cell, right)
    } else {
        node(alloc, left, cell, right)
    }
}

/// A tree of a cell between two trees, of which the first is higher.
fn turned_right(alloc: Global, left: Tree, cell: Arc<Cell>, right: Tree) -> Result<Tree, Memory>
    ensures { IfOk result (λ new. cells_of new ≡ cells_of left ++ arc_value cell ∷ cells_of right) }
{
    match &left {
        Tree::Leaf => node(alloc, Tree::Leaf, cell, right),
        Tree::Fork(fork) => match inner(&fork.right, &fork.left) {
            Some(inner) => {
                let low = node(
                    alloc,
                    shared(&fork.left)?,
                    Arc::try_clone(&fork.cell)?,
                    shared(&inner.left)?,
                )?;
                let high = node(alloc, shared(&inner.right)?, cell, right)?;
                node(alloc, low, Arc::try_clone(&inner.cell)?, high)
            }
            None => {
                let high = node(alloc, shared(&fork.right)?, cell, right)?;
                node(
                    alloc,
                    shared(&fork.left)?,
                    Arc::try_clone(&fork.cell)?,
                    high,
                )
            }
        },
    }
}

/// A tree of a cell between two trees, of which the second is higher.
fn turned_left(alloc: Global, left: Tree, cell: Arc<Cell>, right: Tree) -> Result<Tree, Memory>
    ensures { IfOk result (λ new. cells_of new ≡ cells_of left ++ arc_value cell ∷ cells_of right) }
{
    match &right {
        Tree::Leaf => node(alloc, left, cell, Tree::Leaf),
        Tree::Fork(fork) => match inner(&fork.left, &fork.right) {
            Some(inner) => {
                let low = node(alloc, left, cell, shared(&inner.left)?)?;
                let high = node(
                    alloc,
                    shared(&inner.right)?,
                    Arc::try_clone(&fork.cell)?,
                    shared(&fork.right)?,
                )?;
                node(alloc, low, Arc::try_clone(&inner.cell)?, high)
            }
            None => {
                let low = node(alloc, left, cell, shared(&fork.left)?)?;
                node(
                    alloc,
                    low,
                    Arc::try_clone(&fork.cell)?,
                    shared(&fork.right)?,
                )
            }
        },
    }
}

/// The top of the inner of two trees, where it is higher than the outer one.
fn inner<'a>(inner: &'a Tree, outer: &Tree) -> Option<&'a Fork>
    ensures { IfSome result (λ fork.
        cells_of fork.now.left ++ arc_value fork.now.cell ∷ cells_of fork.now.right
        ≡ cells_of inner.now) }
{
    match inner {
        Tree::Fork(fork) if height(inner) > height(outer) => Some(fork),
        _ => None,
    }
}

/// A tree of a cell between two trees.
fn node(alloc: Global, left: Tree, cell: Arc<Cell>, right: Tree) -> Result<Tree, Memory>
    ensures { IfOk result (λ new. cells_of new ≡ cells_of left ++ arc_value cell ∷ cells_of right) }
{
    let height = height(&left).max(height(&right)).saturating_add(1);
    let fork = Arc::new(
        alloc,
        Fork {
            left,
            cell,
            right,
            height,
        },
    )?;
    Ok(Tree::Fork(fork))
}

/// How many cells the longest way down has.
fn height(tree: &Tree) -> u8 {
    match tree {
        Tree::Leaf => 0,
        Tree::Fork(fork) => fork.height,
    }
}

/// How many cells a tree has.
#[cfg(test)]
pub(crate) fn count(tree: &Tree) -> usize {
    match tree {
        Tree::Leaf => 0,
        Tree::Fork(fork) => count(&fork.left)
            .saturating_add(count(&fork.right))
            .saturating_add(1),
    }
}
