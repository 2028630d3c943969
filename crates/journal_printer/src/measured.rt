//! Texts, each with the columns that it takes.
ghost use Rattle.std.specs.Prelude.{◌≡◌, List, ℕ};
ghost use Rattle.journal_printer.specs.Columns.{width_of};

use hl_base::Text;
use std::marker::Model;
use unicode_width::UnicodeWidthStr;

/// A text, with the columns that it takes. Contracts see the text.
#[derive(Drop)]
pub struct Measured {
    text: Text,
    columns: usize,
}

impl Model for Measured {
    ghost use Rattle.std.specs.Prelude.{◌≡◌, List, ℕ};
    ghost use Rattle.journal_printer.specs.Columns.{width_of};

    ghost Value = { List ℕ };

    ghost view = { λ m. m.text };

    ghost invariant = { λ m. m.columns ≡ width_of m.text };
}

impl Measured {
    pub fn new(text: Text) -> Measured
        ensures { result ≡ text }
    {
        let columns = text.as_str().width();
        Measured { text, columns }
    }

    pub fn as_bytes(&self) -> &[u8]
        ensures { result.now ≡ self.now }
    {
        self.text.as_bytes()
    }

    /// The columns that the text takes.
    pub fn columns(&self) -> usize
        ensures { result ≡ width_of self.now }
    {
        self.columns
    }
}
