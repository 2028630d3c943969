//! What a table shows.
use book::Mixed;
use hl_base::{List, Text};

/// A table: its title, the heads of its columns, its sections, and a last line with its name.
#[derive(Debug, Drop)]
pub struct Table2 {
    pub title: Text,
    pub heads: List<Text>,
    pub sections: List<Section>,
    pub last: Option<(Text, List<Mixed>)>,
}

/// A section of a table: its name, if it shows one, its rows with their names, and their totals, if it shows them.
#[derive(Debug, Drop)]
pub struct Section {
    pub name: Option<Text>,
    pub rows: List<(Text, List<Mixed>)>,
    pub totals: Option<List<Mixed>>,
}
