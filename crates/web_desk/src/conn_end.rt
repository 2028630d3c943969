//! How a connection ends.
ghost use Rattle.std.specs.Prelude.{◌≡◌};
ghost use Rattle.web_desk.specs.declared.conn_end.ConnEnd.TheVariants as conn;

use hl_base::Memory;
use std::alloc::AllocError;

/// A way over a link.
#[derive(Clone, Copy, Debug, PartialEq, Eq)]
pub enum Way {
    Read,
    Write,
}

/// How a connection ends.
#[derive(Clone, Copy, Debug, PartialEq, Eq)]
pub enum ConnEnd {
    /// The stream ended between two messages, or the connection was closed after a reply that says so: after a
    /// message that asks for it, one of HTTP/1.0, one whose length can't be used, or the last that is allowed.
    Closed,
    /// A read or a write failed.
    LinkFault { way: Way },
    /// The bytes from this place of the stream on begin no head.
    BadHead { at: u64 },
    /// A head has more than 16,384 bytes or more than 64 fields.
    HeadTooLong,
    /// A head says a body of so many bytes, more than 8,388,608.
    BodyTooLong { said: u64 },
    /// The stream ended after so many bytes of a body of which more were said.
    CutOff { had: u64, said: u64 },
    /// The one who is asked can answer no more.
    Spent,
    /// The stream ended inside a head, after so many bytes of it.
    HeadCut { had: u64 },
    /// Memory ran out.
    Memory,
}

impl From<Memory> for ConnEnd {
    ghost from_gives = { λ _ e. e ≡ conn.Memory };

    fn from(_memory: Memory) -> ConnEnd {
        ConnEnd::Memory
    }
}

impl From<AllocError> for ConnEnd {
    ghost from_gives = { λ _ e. e ≡ conn.Memory };

    fn from(_error: AllocError) -> ConnEnd {
        ConnEnd::Memory
    }
}
