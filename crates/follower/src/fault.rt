//! What becomes of frames, and why they are refused.
ghost use Rattle.std.specs.Prelude.{◌≡◌};
ghost use Rattle.follower.specs.declared.fault.FrameFault.TheVariants.{ReadFault as FailedRead, Memory as NoFrameMemory};
ghost use Rattle.follower.specs.declared.fault.FollowFault.TheVariants.{Memory as NoMemory};

use hl_base::{Failed, Memory};
use std::alloc::AllocError;
use text_store::StoreFault;

/// Why no frame was read. Numbers are of bytes.
#[derive(Clone, Copy, Debug, PartialEq, Eq)]
pub enum FrameFault {
    /// A read failed.
    ReadFault,
    /// The source ended inside a frame, after so many bytes of it.
    Cut { had: u64 },
    /// A frame of a kind that no record has.
    BadFrame { kind: u8 },
    /// A frame that says it has a longer payload than any may have.
    TooLong { said: u64, limit: u64 },
    Memory,
}

impl From<Failed> for FrameFault {
    ghost from_gives = { λ _ e. e ≡ FailedRead };

    fn from(_failed: Failed) -> FrameFault {
        FrameFault::ReadFault
    }
}

impl From<AllocError> for FrameFault {
    ghost from_gives = { λ _ e. e ≡ NoFrameMemory };

    fn from(_error: AllocError) -> FrameFault {
        FrameFault::Memory
    }
}

/// What became of a frame: its revision was taken, or it is `got` where the follower has `had`.
#[derive(Clone, Copy, Debug, PartialEq, Eq)]
pub enum Accepted {
    Taken { revision: u64 },
    /// The follower has this revision already.
    Old { had: u64, got: u64 },
    /// Frames before this one are missing.
    Gap { had: u64, got: u64 },
}

/// Why a frame wasn't taken, or a follower not made or opened.
#[derive(Clone, Copy, Debug, PartialEq, Eq)]
pub enum FollowFault {
    Store(StoreFault),
    /// A follower is made of a frame of the kind `C`.
    NotASnapshot { kind: u8 },
    /// The frame's payload doesn't read, its part lies outside the text, or its revision is above 2^62.
    BadPayload { revision: u64 },
    Memory,
}

impl From<Memory> for FollowFault {
    ghost from_gives = { λ _ e. e ≡ NoMemory };

    fn from(_memory: Memory) -> FollowFault {
        FollowFault::Memory
    }
}
