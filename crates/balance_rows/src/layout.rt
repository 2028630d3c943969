//! What the options of a report ask of its layout.
/// What a column counts.
#[derive(Clone, Copy, Debug, PartialEq, Eq)]
pub enum Basis {
    /// Its own days.
    Changes,
    /// All days from the first column's on, up to its end.
    Cumulative,
    /// All days up to its end.
    Historical,
}

/// In which order the rows stand.
#[derive(Clone, Copy, Debug, PartialEq, Eq)]
pub enum Order {
    /// By their accounts.
    Accounts,
    /// The greater amount first, and then by their accounts.
    Amounts,
    /// By their accounts, each below its parents, which show sums with all that lies below them.
    Tree,
}

/// What the options of a report ask of its layout.
#[derive(Clone, Copy, Debug, PartialEq, Eq)]
pub struct Layout {
    pub basis: Basis,
    pub order: Order,
    /// Whether the report is a table, as one with an interval is.
    pub table: bool,
    /// Whether accounts whose cells are all zero stay.
    pub empty: bool,
    /// Whether the totals are left out.
    pub no_total: bool,
    /// Whether a table has a column with the rows' totals.
    pub row_total: bool,
    /// Whether it has one with their averages.
    pub average: bool,
}
