//! Items in order that copies share.
ghost use Rattle.std.specs.Prelude.{◌≡◌, [], IfOk, OnErr, OnOk};
ghost use Rattle.std.specs.List.{find};
ghost use Rattle.std.specs.Option.{option_copied};
ghost use Rattle.std.specs.Ordering.{is_eq, is_gt, is_lt};
ghost use Rattle.std.specs.BTreeSet.{replace_key};
ghost use Rattle.shared_set.specs.Sorted.{Rises, find_last, without_key};

use crate::order::{Ranked, Seek};
use crate::tree::{Tree, find_above, find_below, find_equal, put_in, shared, without};
use std::alloc::{AllocError, Global};
use std::marker::Model;
use std::sync::Arc;

/// Items in order, each once. Contracts see the list of them. A copy shares its items, and so does a changed set: a
/// change takes time and memory for the items on one way down the tree alone.
#[derive(Drop)]
pub struct SharedSet<T: Ranked + Drop> {
    tree: Tree<T>,
}

impl<T: Ranked + Drop> Model for SharedSet<T> {
    ghost use Rattle.std.specs.Prelude.{List};
    ghost use Rattle.shared_set.specs.Sorted.{Rises};
    ghost use Rattle.shared_set.specs.Trees.{items_of};

    ghost Value = { List T };

    ghost view = { λ s. items_of s.tree };

    ghost invariant = { λ s. Rises T.rank (items_of s.tree) };
}

impl<T: Ranked + Drop> SharedSet<T> {
    /// No items, which takes no memory.
    pub fn new() -> SharedSet<T>
        ensures { result ≡ [] }
    {
        SharedSet { tree: Tree::Leaf }
    }

    /// The same items, shared.
    pub fn copy(&self) -> Result<SharedSet<T>, AllocError>
        ensures { IfOk result (λ copy. copy ≡ self.now) }
    {
        Ok(SharedSet {
            tree: shared(&self.tree)?,
        })
    }

    /// The item that is looked for.
    pub fn get<Q: Seek<T>>(&self, sought: &Q) -> Option<&T>
        ensures item { option_copied result ≡ find (λ item.
            is_eq (Q.side sought.now item)) self.now }
        ensures rises { Rises T.rank self.now }
    {
        find_equal(&self.tree, sought)
    }

    /// The first item above what is looked for.
    pub fn above<Q: Seek<T>>(&self, sought: &Q) -> Option<&T>
        ensures item { option_copied result ≡ find (λ item.
            is_lt (Q.side sought.now item)) self.now }
        ensures rises { Rises T.rank self.now }
    {
        find_above(&self.tree, sought)
    }

    /// The last item below what is looked for.
    pub fn below<Q: Seek<T>>(&self, sought: &Q) -> Option<&T>
        ensures item { option_copied result ≡ find_last (λ item.
            is_gt (Q.side sought.now item)) self.now }
        ensures rises { Rises T.rank self.now }
    {
        find_below(&self.tree, sought)
    }

    /// Puts an item where it goes, in the place of its equal if there is one. After an error the items are as before.
    pub fn put(&mut self, alloc: Global, item: T) -> Result<(), AllocError>
        ensures ok { OnOk result (self.new ≡ replace_key T.rank self.old item) }
        ensures err { OnErr result (self.new ≡ self.old) }
    {
        let item = Arc::new(alloc, item)?;
        self.tree = put_in(alloc, &self.tree, item)?;
        Ok(())
    }

    /// Takes away the item that equals another. After an error the items are as before.
    pub fn remove(&mut self, alloc: Global, item: &T) -> Result<(), AllocError>
        ensures ok { OnOk result (self.new ≡ without_key T.rank item.now self.old) }
        ensures err { OnErr result (self.new ≡ self.old) }
    {
        self.tree = without(alloc, &self.tree, item)?;
        Ok(())
    }
}
