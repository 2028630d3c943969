//! Which days a column counts.

/// Which days a column counts: its own, or all before its end.
#[derive(Clone, Copy, Debug, PartialEq, Eq)]
pub enum Reach {
    Within,
    UpTo,
}
