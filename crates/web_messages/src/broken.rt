//! Why no more of a stream was read.
ghost use Rattle.std.specs.Prelude.{◌≡◌};
ghost use Rattle.web_messages.specs.declared.broken.Broken.TheVariants as broken;

use hl_base::Memory;
use std::alloc::AllocError;

/// Why no more of a stream was read.
#[derive(Clone, Copy, Debug, PartialEq, Eq)]
pub enum Broken {
    /// A read of its link failed.
    Link,
    /// Memory ran out.
    Memory,
}

impl From<Memory> for Broken {
    ghost from_gives = { λ _ e. e ≡ broken.Memory };

    fn from(_memory: Memory) -> Broken {
        Broken::Memory
    }
}

impl From<AllocError> for Broken {
    ghost from_gives = { λ _ e. e ≡ broken.Memory };

    fn from(_error: AllocError) -> Broken {
        Broken::Memory
    }
}
