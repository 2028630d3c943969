//! Why a text is no date or no period.
use thiserror::Error;

/// Why a text isn't read. `at` is a place in it, counted in bytes from 0.
#[derive(Clone, Copy, Debug, PartialEq, Eq, Error)]
pub enum TimeFault {
    /// The text is no date.
    #[error("no date at {at}")]
    BadDate { at: u64 },
    /// The text is no period.
    #[error("no period at {at}")]
    BadPeriod { at: u64 },
}
