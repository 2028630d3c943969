//! A class of amounts, of which each item says some.
ghost use Rattle.std.specs.Prelude.{◌≡◌, [], IfOk, OnOk};
ghost use Rattle.std.specs.List.{fold};
ghost use Rattle.counted_styles.specs.Marks.{counted, first_of, headed, last_in, mark_cmp, unheaded, uncounted, with_places};
ghost use Rattle.shared_set.specs.Sorted.{Rises};

use crate::mark::{Mark, count, first_in, head, last_in, uncount, unhead};
use book::Style;
use hl_base::{Memory, Text};
use shared_set::SharedSet;
use std::alloc::Global;

/// Of each symbol the first style that each item says, under the item's number, and how many amounts are written with
/// each number of decimals.
#[derive(Drop)]
pub(crate) struct Class {
    pub heads: SharedSet<Mark>,
    pub counts: SharedSet<Mark>,
}

impl Class {
    /// Nothing, which takes no memory.
    pub(crate) fn new() -> Class
        ensures heads { result.heads ≡ [] }
        ensures counts { result.counts ≡ [] }
    {
        Class {
            heads: SharedSet::new(),
            counts: SharedSet::new(),
        }
    }

    /// The same, shared.
    pub(crate) fn copy(&self) -> Result<Class, Memory>
        ensures { IfOk result (λ copy. copy ≡ self.now) }
    {
        Ok(Class {
            heads: self.heads.copy()?,
            counts: self.counts.copy()?,
        })
    }

    /// Adds what an item says.
    pub(crate) fn add(
        &mut self,
        alloc: Global,
        number: u64,
        said: &[(Text, Style)],
    ) -> Result<(), Memory>
        ensures heads { OnOk result
            (self.new.heads ≡ fold (headed number) self.old.heads said.now) }
        ensures counts { OnOk result (self.new.counts ≡ fold counted self.old.counts said.now) }
    {
        for one in said {
            head(alloc, &mut self.heads, number, one)?;
            count(alloc, &mut self.counts, one)?;
        }
        Ok(())
    }

    /// Takes away what an item says.
    pub(crate) fn remove(
        &mut self,
        alloc: Global,
        number: u64,
        said: &[(Text, Style)],
    ) -> Result<(), Memory>
        ensures heads { OnOk result
            (self.new.heads ≡ fold (unheaded number) self.old.heads said.now) }
        ensures counts { OnOk result (self.new.counts ≡ fold uncounted self.old.counts said.now) }
    {
        for one in said {
            unhead(alloc, &mut self.heads, number, one)?;
            uncount(alloc, &mut self.counts, one)?;
        }
        Ok(())
    }

    /// The last style of a symbol.
    pub(crate) fn last(&self, symbol: &Text) -> Option<Style>
        ensures value { result ≡ last_in symbol.now self.now.heads }
        ensures rises { Rises mark_cmp self.now.heads }
    {
        last_in(&self.heads, symbol)
    }

    /// A style with the greatest number of decimals of a symbol.
    pub(crate) fn most(&self, symbol: &Text) -> Option<Style>
        ensures value { result ≡ last_in symbol.now self.now.counts }
        ensures rises { Rises mark_cmp self.now.counts }
    {
        last_in(&self.counts, symbol)
    }

    /// The shape of the first style of a symbol, with the greatest number of decimals of all.
    pub(crate) fn first(&self, symbol: &Text) -> Option<Style>
        ensures value { result ≡ first_of symbol.now self.now.heads self.now.counts }
        ensures heads { Rises mark_cmp self.now.heads }
        ensures counts { Rises mark_cmp self.now.counts }
    {
        let most = last_in(&self.counts, symbol);
        match first_in(&self.heads, symbol) {
            Some(style) => with_places(style, most),
            None => None,
        }
    }
}

/// The shape of a style with the number of decimals of another.
fn with_places(style: Style, most: Option<Style>) -> Option<Style>
    ensures { result ≡ with_places style most }
{
    match most {
        Some(most) => Some(Style {
            shape: style.shape,
            places: most.places,
        }),
        None => None,
    }
}
