//! The limits of a journal: each stands here once, and contracts cite it by the same name in `specs/Limits`.

/// How many bytes a journal's text has at most.
pub const TEXT_LIMIT: u64 = 16_777_216;

/// How many items a journal's text has at most.
pub const ITEM_LIMIT: u64 = 200_000;

/// How many bytes an entry has at most, or a directive; gaps, comment blocks and stray lines have no limit of their own.
pub const ENTRY_LIMIT: usize = 65_536;
