//! The forms in which assigned amounts are found.

/// How an account's sum enters what an assignment comes to: with as few decimals as it needs, as in books, so that how
/// it was added up doesn't matter; or with all its decimals, as in the sums that faults tell.
#[derive(Debug, Copy, Clone, Drop)]
pub(crate) enum Form {
    Shortened,
    Whole,
}
