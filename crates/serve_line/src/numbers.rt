//! Numbers as words write them.
ghost use Rattle.std.specs.Prelude.{◌≡◌, ◌≤◌, IfSome};
ghost use Rattle.serve_line.specs.Words as spec;

use command_words::number_of;
use hl_base::Text;

/// The number that is written, from 1 to a greatest one, or the usual one where none is.
pub(crate) fn number_or(usual: u64, greatest: u64, written: Option<Text>) -> Option<u64>
    requires { usual ≤ greatest }
    ensures value { result ≡ spec.number_or usual greatest written }
    ensures bound { IfSome result (λ n. n ≤ greatest) }
{
    match written {
        Some(text) => number_of(greatest, text.as_bytes()),
        None => Some(usual),
    }
}
