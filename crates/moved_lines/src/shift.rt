//! How far what stands behind a change of a text moves.
ghost use Rattle.std.specs.Prelude.{◌≡◌};
ghost use Rattle.moved_lines.specs.Moving as spec;

/// How far a number behind a change moves: by so much less, and then by so much more.
#[derive(Clone, Copy, Debug, PartialEq, Eq)]
pub struct Shift {
    pub removed: u64,
    pub added: u64,
}

impl Shift {
    /// What takes the change back.
    pub fn back(self) -> Shift
        ensures { result ≡ spec.back self }
    {
        Shift {
            removed: self.added,
            added: self.removed,
        }
    }

    /// A number behind the change.
    pub fn moved(self, number: u64) -> u64
        requires { spec.CanMove self number }
        ensures { result ≡ spec.moved_number self number }
    {
        number - self.removed + self.added
    }
}

/// How far what stands behind a change of a text moves, in bytes and in lines.
#[derive(Clone, Copy, Debug, PartialEq, Eq)]
pub struct Offset {
    pub bytes: Shift,
    pub lines: Shift,
}

impl Offset {
    /// What takes the change back.
    pub fn back(self) -> Offset
        ensures { result ≡ spec.back_offset self }
    {
        Offset {
            bytes: self.bytes.back(),
            lines: self.lines.back(),
        }
    }
}
