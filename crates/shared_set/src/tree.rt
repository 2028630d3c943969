//! A balanced tree of items, of which a changed copy shares all but the items on the way to the change.
ghost use Rattle.std.specs.Prelude.{◌≡◌, ◌++◌, ◌∷◌, [], IfOk, IfSome};
ghost use Rattle.std.specs.Arc.{arc_value};
ghost use Rattle.std.specs.List.{find};
ghost use Rattle.std.specs.Option.{option_copied};
ghost use Rattle.std.specs.Ordering.{is_eq, is_gt, is_lt};
ghost use Rattle.std.specs.BTreeSet.{replace_key};
ghost use Rattle.shared_set.specs.Sorted.{Rises, find_last, without_key};
ghost use Rattle.shared_set.specs.Trees.{items_of};

use crate::order::{Ranked, Seek};
use std::alloc::{AllocError, Global};
use std::cmp::Ordering;
use std::sync::Arc;

/// Items from left to right.
#[cycle(tree)]
#[derive(Drop)]
pub(crate) enum Tree<T: Drop> {
    Leaf,
    Fork(Arc<Fork<T>>),
}

/// An item between those on both sides of it. The height is that of the longest way down.
#[cycle(tree)]
#[derive(Drop)]
pub(crate) struct Fork<T: Drop> {
    left: Tree<T>,
    item: Arc<T>,
    right: Tree<T>,
    height: u8,
}

/// The same tree, shared.
pub(crate) fn shared<T: Drop>(tree: &Tree<T>) -> Result<Tree<T>, AllocError>
    ensures { IfOk result (λ copy. items_of copy ≡ items_of tree.now) }
{
    match tree {
        Tree::Leaf => Ok(Tree::Leaf),
        Tree::Fork(fork) => Ok(Tree::Fork(Arc::try_clone(fork)?)),
    }
}

/// The item that is looked for.
pub(crate) fn find_equal<'a, T: Ranked + Drop, Q: Seek<T>>(
    tree: &'a Tree<T>,
    sought: &Q,
) -> Option<&'a T>
    ensures { Rises T.rank (items_of tree.now) → option_copied result
        ≡ find (λ item. is_eq (Q.side sought.now item)) (items_of tree.now) }
{
    match tree {
        Tree::Leaf => None,
        Tree::Fork(fork) => match sought.side(&fork.item) {
            Ordering::Less => find_equal(&fork.left, sought),
            Ordering::Equal => Some(&fork.item),
            Ordering::Greater => find_equal(&fork.right, sought),
        },
    }
}

/// The first item above what is looked for.
pub(crate) fn find_above<'a, T: Ranked + Drop, Q: Seek<T>>(
    tree: &'a Tree<T>,
    sought: &Q,
) -> Option<&'a T>
    ensures { Rises T.rank (items_of tree.now) → option_copied result
        ≡ find (λ item. is_lt (Q.side sought.now item)) (items_of tree.now) }
{
    match tree {
        Tree::Leaf => None,
        Tree::Fork(fork) => match sought.side(&fork.item) {
            Ordering::Less => match find_above(&fork.left, sought) {
                Some(item) => Some(item),
                None => Some(&fork.item),
            },
            Ordering::Equal => find_above(&fork.right, sought),
            Ordering::Greater => find_above(&fork.right, sought),
        },
    }
}

/// The last item below what is looked for.
pub(crate) fn find_below<'a, T: Ranked + Drop, Q: Seek<T>>(
    tree: &'a Tree<T>,
    sought: &Q,
) -> Option<&'a T>
    ensures { Rises T.rank (items_of tree.now) → option_copied result
        ≡ find_last (λ item. is_gt (Q.side sought.now item)) (items_of tree.now) }
{
    match tree {
        Tree::Leaf => None,
        Tree::Fork(fork) => match sought.side(&fork.item) {
            Ordering::Greater => match find_below(&fork.right, sought) {
                Some(item) => Some(item),
                None => Some(&fork.item),
            },
            Ordering::Equal => find_below(&fork.left, sought),
            Ordering::Less => find_below(&fork.left, sought),
        },
    }
}

/// The tree with an item where it goes, in the place of its equal if there is one.
pub(crate) fn put_in<T: Ranked + Drop>(
    alloc: Global,
    tree: &Tree<T>,
    item: Arc<T>,
) -> Result<Tree<T>, AllocError>
    ensures { Rises T.rank (items_of tree.now) → IfOk result (λ new. items_of new
        ≡ replace_key T.rank (items_of tree.now) (arc_value item)) }
{
    match tree {
        Tree::Leaf => node(alloc, Tree::Leaf, item, Tree::Leaf),
        Tree::Fork(fork) => match fork.item.rank(&item) {
            Ordering::Less => {
                let right = put_in(alloc, &fork.right, item)?;
                balanced(
                    alloc,
                    shared(&fork.left)?,
                    Arc::try_clone(&fork.item)?,
                    right,
                )
            }
            Ordering::Equal => node(alloc, shared(&fork.left)?, item, shared(&fork.right)?),
            Ordering::Greater => {
                let left = put_in(alloc, &fork.left, item)?;
                balanced(
                    alloc,
                    left,
                    Arc::try_clone(&fork.item)?,
                    shared(&fork.right)?,
                )
            }
        },
    }
}

/// The tree without the item that equals another.
pub(crate) fn without<T: Ranked + Drop>(
    alloc: Global,
    tree: &Tree<T>,
    item: &T,
) -> Result<Tree<T>, AllocError>
    ensures { Rises T.rank (items_of tree.now) → IfOk result (λ new. items_of new
        ≡ without_key T.rank item.now (items_of tree.now)) }
{
    match tree {
        Tree::Leaf => Ok(Tree::Leaf),
        Tree::Fork(fork) => match fork.item.rank(item) {
            Ordering::Less => {
                let right = without(alloc, &fork.right, item)?;
                balanced(
                    alloc,
                    shared(&fork.left)?,
                    Arc::try_clone(&fork.item)?,
                    right,
                )
            }
            Ordering::Equal => beside(alloc, &fork.left, &fork.right),
            Ordering::Greater => {
                let left = without(alloc, &fork.left, item)?;
                balanced(
                    alloc,
                    left,
                    Arc::try_clone(&fork.item)?,
                    shared(&fork.right)?,
                )
            }
        },
    }
}

/// The items of two trees whose heights differ by one at most, those of the first before those of the second.
fn beside<T: Drop>(alloc: Global, left: &Tree<T>, right: &Tree<T>) -> Result<Tree<T>, AllocError>
    ensures { IfOk result (λ new. items_of new ≡ items_of left.now ++ items_of right.now) }
{
    match right {
        Tree::Leaf => shared(left),
        Tree::Fork(fork) => {
            let (item, rest) = first_and_rest(alloc, fork)?;
            balanced(alloc, shared(left)?, item, rest)
        }
    }
}

/// The first item, and the tree without it.
fn first_and_rest<T: Drop>(alloc: Global, fork: &Fork<T>) -> Result<(Arc<T>, Tree<T>), AllocError>
    ensures { IfOk result (λ both. arc_value both.0 ∷ items_of both.1
        ≡ items_of fork.now.left ++ arc_value fork.now.item ∷ items_of fork.now.right) }
{
    match &fork.left {
        Tree::Leaf => Ok((Arc::try_clone(&fork.item)?, shared(&fork.right)?)),
        Tree::Fork(left) => {
            let (item, rest) = first_and_rest(alloc, left)?;
            let rest = balanced(
                alloc,
                rest,
                Arc::try_clone(&fork.item)?,
                shared(&fork.right)?,
            )?;
            Ok((item, rest))
        }
    }
}

/// A tree of an item between two trees, turned where their heights differ by more than one.
fn balanced<T: Drop>(
    alloc: Global,
    left: Tree<T>,
    item: Arc<T>,
    right: Tree<T>,
) -> Result<Tree<T>, AllocError>
    ensures { IfOk result (λ new. items_of new ≡ items_of left ++ arc_value item ∷ items_of right) }
{
    if height(&left) > height(&right).saturating_add(1) {
        turned_right(alloc, left, item, right)
    } else if height(&right) > height(&left).saturating_add(1) {
        turned_left(alloc, left, item, right)
    } else {
        node(alloc, left, item, right)
    }
}

/// A tree of an item between two trees, of which the first is higher.
fn turned_right<T: Drop>(
    alloc: Global,
    left: Tree<T>,
    item: Arc<T>,
    right: Tree<T>,
) -> Result<Tree<T>, AllocError>
    ensures { IfOk result (λ new. items_of new ≡ items_of left ++ arc_value item ∷ items_of right) }
{
    match &left {
        Tree::Leaf => node(alloc, Tree::Leaf, item, right),
        Tree::Fork(fork) => match inner(&fork.right, &fork.left) {
            Some(inner) => {
                let low = node(
                    alloc,
                    shared(&fork.left)?,
                    Arc::try_clone(&fork.item)?,
                    shared(&inner.left)?,
                )?;
                let high = node(alloc, shared(&inner.right)?, item, right)?;
                node(alloc, low, Arc::try_clone(&inner.item)?, high)
            }
            None => {
                let high = node(alloc, shared(&fork.right)?, item, right)?;
                node(
                    alloc,
                    shared(&fork.left)?,
                    Arc::try_clone(&fork.item)?,
                    high,
                )
            }
        },
    }
}

/// A tree of an item between two trees, of which the second is higher.
fn turned_left<T: Drop>(
    alloc: Global,
    left: Tree<T>,
    item: Arc<T>,
    right: Tree<T>,
) -> Result<Tree<T>, AllocError>
    ensures { IfOk result (λ new. items_of new ≡ items_of left ++ arc_value item ∷ items_of right) }
{
    match &right {
        Tree::Leaf => node(alloc, left, item, Tree::Leaf),
        Tree::Fork(fork) => match inner(&fork.left, &fork.right) {
            Some(inner) => {
                let low = node(alloc, left, item, shared(&inner.left)?)?;
                let high = node(
                    alloc,
                    shared(&inner.right)?,
                    Arc::try_clone(&fork.item)?,
                    shared(&fork.right)?,
                )?;
                node(alloc, low, Arc::try_clone(&inner.item)?, high)
            }
            None => {
                let low = node(alloc, left, item, shared(&fork.left)?)?;
                node(
                    alloc,
                    low,
                    Arc::try_clone(&fork.item)?,
                    shared(&fork.right)?,
                )
            }
        },
    }
}

/// The top of the inner of two trees, where it is higher than the outer one.
fn inner<'a, T: Drop>(inner: &'a Tree<T>, outer: &Tree<T>) -> Option<&'a Fork<T>>
    ensures { IfSome result (λ fork.
        items_of fork.now.left ++ arc_value fork.now.item ∷ items_of fork.now.right
        ≡ items_of inner.now) }
{
    match inner {
        Tree::Fork(fork) if height(inner) > height(outer) => Some(fork),
        _ => None,
    }
}

/// A tree of an item between two trees.
fn node<T: Drop>(
    alloc: Global,
    left: Tree<T>,
    item: Arc<T>,
    right: Tree<T>,
) -> Result<Tree<T>, AllocError>
    ensures { IfOk result (λ new. items_of new ≡ items_of left ++ arc_value item ∷ items_of right) }
{
    let height = height(&left).max(height(&right)).saturating_add(1);
    let fork = Arc::new(
        alloc,
        Fork {
            left,
            item,
            right,
            height,
        },
    )?;
    Ok(Tree::Fork(fork))
}

/// How many items the longest way down has.
fn height<T: Drop>(tree: &Tree<T>) -> u8 {
    match tree {
        Tree::Leaf => 0,
        Tree::Fork(fork) => fork.height,
    }
}
