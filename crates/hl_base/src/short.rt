//! Texts that stand in place, and where the bytes of an owned text are.
ghost use Rattle.std.specs.Prelude.{◌≡◌, ◌≤◌, [], length, take};

use crate::surface::put;
use std::marker::Model;

/// The most bytes of a text that stands in place: so many take no more room than a string that stands apart.
pub(crate) const SHORT: usize = 23;

/// A text of few bytes, which stand in place. Contracts see its bytes.
#[derive(Debug, Drop)]
pub(crate) struct Short {
    len: u8,
    bytes: [u8; 23],
}

impl Model for Short {
    ghost use Rattle.std.specs.Prelude.{◌≡◌, ◌≤◌, List, ℕ, true, length, take};
    ghost use Rattle.std.specs.Str.{is_utf8};

    ghost Value = { List ℕ };

    ghost view = { λ s. take s.len s.bytes };

    ghost invariant = { λ s. (s.len ≤ 23) × (length s.bytes ≡ 23) × (is_utf8 (take s.len s.bytes) ≡ true) };
}

/// Where the bytes of an owned text are: in place, or apart in a string.
#[derive(Debug, Drop)]
pub(crate) enum Kept {
    Here(Short),
    Apart(String),
}

impl Short {
    /// No bytes.
    pub(crate) fn new() -> Short
        ensures { result ≡ [] }
    {
        Short {
            len: 0,
            bytes: [0; 23],
        }
    }

    /// A copy of a text of few bytes.
    #[tactic(auto, using(crate::proofs::Padding::front_utf8))]
    pub(crate) fn copied(text: &str) -> Short
        requires { length text.now ≤ 23 }
        ensures { result ≡ text.now }
    {
        let bytes = padded(text.as_bytes());
        Short {
            len: text.len() as u8,
            bytes,
        }
    }

    pub(crate) fn as_str(&self) -> &str
        ensures { result.now ≡ self.now }
    {
        // The bytes are those of a text.
        unsafe { std::str::from_utf8_unchecked(&self.bytes[..self.len as usize]) }
    }
}

/// Few bytes, and zeros behind them.
fn padded(text: &[u8]) -> [u8; 23]
    requires { length text.now ≤ 23 }
    ensures front { take (length text.now) result ≡ text.now }
    ensures len { length result ≡ 23 }
{
    let mut bytes = [0u8; 23];
    put(&mut bytes, 0, text);
    bytes
}
