//! The replies for which the journal isn't asked.

use hl_base::{Bytes, Text};
use web_messages::refusal::Refusal;

/// A reply for which the journal isn't asked.
#[derive(Debug, Drop)]
pub enum OwnReply {
    /// The message is refused.
    Refused(Refusal),
    /// The page, with the value of its field `Content-Security-Policy`.
    Page { text: Bytes, policy: Text },
}
