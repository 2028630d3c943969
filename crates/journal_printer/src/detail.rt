//! How much is shown of what balancing found.

/// Whether a transaction is shown as it is written, or with the amounts and costs that balancing found.
#[derive(Clone, Copy, Debug, PartialEq, Eq)]
pub enum Detail {
    /// No amount and no cost that was found; the postings that one missing amount gave are one.
    Written,
    /// All amounts and costs.
    Explicit,
}
