//! What a value under the lock says of itself.

/// A value that a lock keeps.
pub trait Kept {
    /// What is entered in the history when the value is given back. A value of it takes no bytes: make it of
    /// snapshots of what it names. Contracts see it as plain data.
    type Entry: Drop + Send;

    /// The states that values stand for.
    ghost State: { Type 0 };

    /// The state that a value stands for.
    ghost state: { Self → Self.State };

    /// An entry leads from one state to another.
    ghost leads: { Self.State → Self.Entry → Self.State → Type 0 };
}
