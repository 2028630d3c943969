//! The styles in which amounts of one symbol are written, under the numbers of their items.
ghost use Rattle.std.specs.Prelude.{◌≡◌, ◌≤◌, [], ◌∷◌, IfOk, OnOk, OnErr, IfSome};
ghost use Rattle.book.specs.Standing.{with_number, without_number, styles_only, last_kept, first_kept};
ghost use Rattle.book.specs.Style.{most_places};

use crate::style::Style;
use hl_base::Memory;
use std::alloc::Global;
use std::marker::Model;

/// Styles under the numbers of their items, and their greatest number of decimals. Contracts see a list of each
/// number and style.
#[derive(Debug, Drop)]
pub struct Marks {
    marks: Vec<(u64, Style)>,
    most: u8,
}

impl Model for Marks {
    ghost use Rattle.std.specs.Prelude.{◌≡◌, ◌≤◌, List, ℕ};
    ghost use Rattle.book.specs.declared.style.Style.{Style};
    ghost use Rattle.book.specs.Style.{most_places};
    ghost use Rattle.book.specs.Standing.{styles_only};

    ghost Value = { List (ℕ × Style) };

    ghost view = { λ m. m.marks.items };

    ghost invariant = { λ m. (m.most ≡ most_places (styles_only m.marks.items)) × (m.most ≤ 36) };
}

impl Marks {
    /// No styles, which takes no memory.
    pub fn new(alloc: Global) -> Marks
        ensures { result ≡ [] }
    {
        Marks {
            marks: Vec::new(alloc),
            most: 0,
        }
    }

    /// Puts a style under a number, after those under lower numbers and the same.
    pub fn put(&mut self, number: u64, style: Style) -> Result<(), Memory>
        requires { style.places ≤ 36 }
        ensures ok { OnOk result (self.new ≡ with_number number style self.old) }
        ensures err { OnErr result (self.new ≡ self.old) }
    {
        put_mark(&mut self.marks, number, style)?;
        self.most = self.most.max(style.places);
        Ok(())
    }

    /// Takes away what stands under a number.
    pub fn forget(&mut self, number: u64)
        ensures { self.new ≡ without_number number self.old }
    {
        retain_others(&mut self.marks, number);
        self.most = greatest_places(&self.marks);
    }

    /// The last style.
    pub fn last(&self) -> Option<Style>
        ensures value { result ≡ last_kept self.now }
        ensures places { IfSome result (λ style. style.places ≤ 36) }
    {
        let last = self.marks.last()?;
        Some(last.1)
    }

    /// The shape of the first style, with the greatest number of decimals of all.
    pub fn first(&self) -> Option<Style>
        ensures value { result ≡ first_kept self.now }
        ensures places { IfSome result (λ style. style.places ≤ 36) }
    {
        let first = self.marks.first()?;
        Some(Style {
            shape: first.1.shape,
            places: self.most,
        })
    }

    /// A copy.
    pub fn copy(&self, alloc: Global) -> Result<Marks, Memory>
        ensures { IfOk result (λ copy. copy ≡ self.now) }
    {
        let mut marks = Vec::new(alloc);
        marks.extend_from_slice(&self.marks)?;
        Ok(Marks {
            marks,
            most: self.most,
        })
    }
}

/// Puts a style before those at the end that have greater numbers.
fn put_mark(marks: &mut Vec<(u64, Style)>, number: u64, style: Style) -> Result<(), Memory>
    ensures ok { OnOk result (marks.new.items ≡ with_number number style marks.old.items) }
    ensures err { OnErr result (marks.new.items ≡ marks.old.items) }
{
    let mut at = marks.len();
    while at > 0 && marks[at - 1].0 > number {
        at -= 1;
    }
    marks.insert(at, (number, style))?;
    Ok(())
}

/// Takes away what stands under a number.
fn retain_others(marks: &mut Vec<(u64, Style)>, number: u64)
    ensures { marks.new.items ≡ without_number number marks.old.items }
{
    marks.retain(|mark| mark.0 != number);
}

/// The greatest number of decimals.
fn greatest_places(marks: &[(u64, Style)]) -> u8
    ensures { result ≡ most_places (styles_only marks.now) }
{
    let mut most = 0;
    for mark in marks {
        most = most.max(mark.1.places);
    }
    most
}
