//! The texts of names and cells, each with the columns that it takes.
ghost use Rattle.std.specs.Prelude.{◌≡◌, ◌++◌, IfOk, OnOk, List, ℕ, map};
ghost use Rattle.std.specs.List.{flat_map};
ghost use Rattle.std.specs.String.{string_bytes};
ghost use Rattle.book.specs.Styles.{style_in};
ghost use Rattle.report_table.specs.Cells.{amount_text, cell_text, next_amount, width_of};

use book::{Mixed, Styles, print_amount};
use hl_base::{List, Memory, Text};
use hl_num::Dec;
use std::alloc::Global;
use std::marker::Model;
use unicode_width::UnicodeWidthStr;

/// A text with the columns that it takes. Contracts see the text.
#[derive(Drop)]
pub struct Printed {
    text: Text,
    columns: usize,
}

impl Model for Printed {
    ghost use Rattle.std.specs.Prelude.{◌≡◌, List, ℕ};
    ghost use Rattle.report_table.specs.Cells.{width_of};

    ghost Value = { List ℕ };

    ghost view = { λ p. p.text };

    ghost invariant = { λ p. p.columns ≡ width_of p.text };
}

impl Printed {
    /// The text, measured.
    pub fn new(text: Text) -> Printed
        ensures { result ≡ text }
    {
        let columns = text.as_str().width();
        Printed { text, columns }
    }

    /// The bytes of the text.
    pub fn as_bytes(&self) -> &[u8]
        ensures { result.now ≡ self.now }
    {
        self.text.as_bytes()
    }

    /// The columns that the text takes on a terminal.
    pub fn columns(&self) -> usize
        ensures { result ≡ width_of self.now }
    {
        self.columns
    }
}

/// A sum in its symbol's style.
fn amount_text(alloc: Global, sum: &(Text, Dec), styles: &Styles) -> Result<Text, Memory>
    ensures { IfOk result (λ text. text ≡ amount_text (style_in styles.now) sum.now) }
{
    let style = styles.style(&sum.0);
    print_amount(alloc, &sum.0, sum.1, &style)
}

/// Appends some sums, each behind a comma.
fn push_amounts(
    alloc: Global,
    out: &mut String,
    sums: &[(Text, Dec)],
    styles: &Styles,
) -> Result<(), Memory>
    ensures { OnOk result (string_bytes out.new
        ≡ string_bytes out.old ++ flat_map (next_amount (style_in styles.now)) sums.now) }
{
    for sum in sums {
        let text = amount_text(alloc, sum, styles)?;
        out.push_str(", ")?;
        out.push_str(text.as_str())?;
    }
    Ok(())
}

/// Appends the text of a cell: its sums with `, ` between them, or `0` where there is none.
pub fn push_cell_text(
    alloc: Global,
    out: &mut String,
    sums: &[(Text, Dec)],
    styles: &Styles,
) -> Result<(), Memory>
    ensures { OnOk result (string_bytes out.new
        ≡ string_bytes out.old ++ cell_text (style_in styles.now) sums.now) }
{
    match sums {
        [] => {
            out.push_str("0")?;
            Ok(())
        }
        [first, rest @ ..] => {
            let text = amount_text(alloc, first, styles)?;
            out.push_str(text.as_str())?;
            push_amounts(alloc, out, rest, styles)
        }
    }
}

/// The text of a cell.
fn cell_text(alloc: Global, cell: &Mixed, styles: &Styles) -> Result<Printed, Memory>
    ensures { IfOk result (λ text. text ≡ cell_text (style_in styles.now) cell.now) }
{
    let mut text = String::new(alloc);
    push_cell_text(alloc, &mut text, cell.entries(), styles)?;
    Ok(Printed::new(Text::from_string(text)))
}

/// The texts of some cells.
pub fn cell_texts(alloc: Global, cells: &[Mixed], styles: &Styles) -> Result<List<Printed>, Memory>
    ensures { IfOk result (λ texts. texts ≡ map (cell_text (style_in styles.now)) cells.now) }
{
    let mut texts = Vec::new(alloc);
    for cell in cells {
        texts.push(cell_text(alloc, cell, styles)?)?;
    }
    Ok(List::from_vec(texts))
}
