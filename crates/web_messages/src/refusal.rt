//! Why a message is refused without asking anybody.

/// Why a message is refused without asking anybody.
#[derive(Clone, Copy, Debug, PartialEq, Eq)]
pub enum Refusal {
    /// A parameter is missing, repeated or unknown.
    Form,
    /// A head that is none, or a length of the body that can't be used.
    Message,
    /// An unknown path.
    Path,
    /// The path has the method GET alone.
    GetOnly,
    /// The path has the method POST alone.
    PostOnly,
    /// A POST from a page of another site.
    Origin,
    /// A head past a limit.
    Head,
    /// A body past a limit.
    Body,
}
